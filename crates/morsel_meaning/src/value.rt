//! Values, and the columns that hold them.
use crate::Name;

/// The type of a column. A column of each type may hold nulls.
#[derive(Clone, Copy, Debug, PartialEq, Eq)]
pub enum ColType {
    /// Whole numbers of 64 bits, with a sign.
    Int,
    /// Truth values.
    Bool,
    /// Texts in UTF-8.
    Text,
}

/// What a row has under a column. Values are ordered null first, then numbers, then false and true, then texts
/// by their bytes.
#[derive(Clone, Debug, Drop, PartialEq, Eq, PartialOrd, Ord)]
pub enum Value {
    /// No value.
    Null,
    /// A whole number.
    Int(i64),
    /// A truth value.
    Bool(bool),
    /// A text.
    Text(Name),
}

/// A column's name and type.
#[derive(Clone, Debug, Drop, PartialEq, Eq)]
pub struct Field {
    /// The column's name.
    pub name: Name,
    /// The column's type.
    pub kind: ColType,
}
