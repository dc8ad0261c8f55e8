//! Truth with three values.
ghost use Rattle.std.specs.Prelude.{◌≡◌, if◌then◌else◌};
ghost use Rattle.morsel_expr.specs.Truths.{least, greatest, mirror, certain, is_true};

/// What a predicate says of a row, in the order false, unknown, true.
#[derive(Clone, Copy, Debug, PartialEq, Eq)]
pub enum Truth {
    /// The predicate does not hold.
    False,
    /// A null leaves open whether it holds.
    Unknown,
    /// The predicate holds.
    True,
}

impl Truth {
    /// The answer of a test.
    pub fn certain(holds: bool) -> Truth
        ensures { result ≡ certain holds }
    {
        if holds { Truth::True } else { Truth::False }
    }

    /// Whether it is true, and neither false nor unknown.
    pub fn is_true(self) -> bool
        ensures { result ≡ is_true self }
    {
        match self {
            Truth::True => true,
            _ => false,
        }
    }

    /// This truth where there is a value, and else unknown.
    pub fn where_valid(self, valid: bool) -> Truth
        ensures { result ≡ (if valid then self else Truth.Unknown) }
    {
        if valid { self } else { Truth::Unknown }
    }

    /// The lesser of two: whether both hold.
    // Two choices of two, which a loop over many truths makes without a branch.
    pub fn and(self, other: Truth) -> Truth
        ensures { result ≡ least self other }
    {
        match self {
            Truth::True => other,
            _ => match other {
                Truth::False => Truth::False,
                _ => self,
            },
        }
    }

    /// The greater of two: whether one of them holds.
    pub fn or(self, other: Truth) -> Truth
        ensures { result ≡ greatest self other }
    {
        match self {
            Truth::False => other,
            _ => match other {
                Truth::True => Truth::True,
                _ => self,
            },
        }
    }

    /// False and true exchanged.
    pub fn not(self) -> Truth
        ensures { result ≡ mirror self }
    {
        match self {
            Truth::False => Truth::True,
            Truth::Unknown => Truth::Unknown,
            Truth::True => Truth::False,
        }
    }
}
