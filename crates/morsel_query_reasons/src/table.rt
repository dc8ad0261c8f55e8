//! The columns of a query and how its files are written, as the words or the query's text have them.
//!
//! Whoever asks has seen that the query is one, so what is not in form here is no reason to be told.

use crate::dialect::CsvForm;
use crate::scans::{PlacedScan, left_of, right_of};
use crate::unsaid::Unsaid;
use morsel_meaning::ColType;
use serde_json::Value;
use std::alloc::Global;

/// How many parts of a filter are looked at.
const MOST_PARTS: usize = 1_048_576;

/// A column's name and type.
#[derive(Clone, Copy, Debug)]
pub struct ColumnWords<'t> {
    pub name: &'t str,
    pub kind: ColType,
}

/// A file of a query, with its columns.
#[derive(Debug, Drop)]
pub struct CsvFile<'t> {
    pub file: &'t str,
    /// Where its scan stands in a query.
    pub scan: &'t str,
    pub dialect: CsvForm<'t>,
    pub columns: Vec<ColumnWords<'t>>,
    /// The columns that are kept, and those of which the filter speaks; none where all are kept.
    pub used: Option<Vec<&'t str>>,
}

impl<'t> CsvFile<'t> {
    /// Whether the query uses the column of this name.
    pub fn uses(&self, name: &str) -> bool {
        match &self.used {
            Some(used) => contains(used.as_slice(), name),
            None => true,
        }
    }

    /// The name of the column of this number.
    pub fn name_of(&self, number: usize) -> Option<&'t str> {
        match self.columns.as_slice().get(number) {
            Some(column) => Some(column.name),
            None => None,
        }
    }
}

/// Whether a name is one of these.
pub fn contains(names: &[&str], name: &str) -> bool {
    for known in names {
        if *known == name {
            return true;
        }
    }
    false
}

/// The type that a word names.
pub fn kind_of(word: &str) -> Option<ColType> {
    match word {
        "int" => Some(ColType::Int),
        "bool" => Some(ColType::Bool),
        "text" => Some(ColType::Text),
        _ => None,
    }
}

/// The file of `scan`, with the columns of its SCHEMA.
pub fn scanned<'t>(alloc: Global, file: &'t str, schema: &'t str) -> Result<CsvFile<'t>, Unsaid> {
    Ok(CsvFile {
        file,
        scan: "left",
        dialect: CsvForm::standard(),
        columns: columns_of_schema(alloc, schema)?,
        used: None,
    })
}

/// The columns of `name:type` joined by commas.
pub fn columns_of_schema(alloc: Global, schema: &str) -> Result<Vec<ColumnWords<'_>>, Unsaid> {
    let mut columns = Vec::new(alloc);
    for part in schema.split(',') {
        let Some(column) = column_of_part(part) else {
            return Err(Unsaid);
        };
        columns.push(column)?;
    }
    Ok(columns)
}

/// The column of `name:type`.
fn column_of_part(part: &str) -> Option<ColumnWords<'_>> {
    let (name, word) = part.split_once(':')?;
    Some(ColumnWords {
        name,
        kind: kind_of(word)?,
    })
}

/// The file of this number of a query, with its columns. Those of the left scan come first.
pub fn queried(alloc: Global, query: &Value, file: u32) -> Result<CsvFile<'_>, Unsaid> {
    let Some((side, file)) = side_with_file(query, file) else {
        return Err(Unsaid);
    };
    let columns = columns_of(alloc, side.scan)?;
    with_used(alloc, side, file, columns)
}

/// The scan that has the file of this number of a query, and the file's name.
fn side_with_file(query: &Value, file: u32) -> Option<(PlacedScan<'_>, &str)> {
    let number = usize::try_from(file).ok()?;
    let left = left_of(query)?;
    let files = items_at(left.scan, "files")?;
    if let Some(found) = files.get(number) {
        return Some((left, found.as_str()?));
    }
    let right = right_of(query)?;
    let found = items_at(right.scan, "files")?.get(number.checked_sub(files.len())?)?;
    Some((right, found.as_str()?))
}

/// The table of these columns, and of those that are used.
fn with_used<'t>(
    alloc: Global,
    side: PlacedScan<'t>,
    file: &'t str,
    columns: Vec<ColumnWords<'t>>,
) -> Result<CsvFile<'t>, Unsaid> {
    let used = used_names(alloc, side.scan)?;
    Ok(CsvFile {
        file,
        scan: side.path,
        dialect: dialect_of(side.scan),
        columns,
        used,
    })
}

/// The columns of a scan.
pub fn columns_of(alloc: Global, scan: &Value) -> Result<Vec<ColumnWords<'_>>, Unsaid> {
    let Some(items) = items_at(scan, "schema") else {
        return Err(Unsaid);
    };
    let mut columns = Vec::new(alloc);
    for item in items {
        let Some(column) = column_of(item) else {
            return Err(Unsaid);
        };
        columns.push(column)?;
    }
    Ok(columns)
}

/// The items of the list at a key.
pub fn items_at<'t>(tree: &'t Value, key: &str) -> Option<&'t [Value]> {
    match tree.get(key)?.as_array() {
        Some(items) => Some(items),
        None => None,
    }
}

/// The column of `[name, type]`.
fn column_of(item: &Value) -> Option<ColumnWords<'_>> {
    let pair = item.as_array()?;
    Some(ColumnWords {
        name: pair.get(0)?.as_str()?,
        kind: kind_of(pair.get(1)?.as_str()?)?,
    })
}

/// How the files of a scan are written.
fn dialect_of(scan: &Value) -> CsvForm<'_> {
    let standard = CsvForm::standard();
    let Some(csv) = scan.get("csv") else {
        return standard;
    };
    CsvForm {
        separator: byte_at(csv, "separator").unwrap_or(standard.separator),
        quote: quote_at(csv),
        eol: byte_at(csv, "eol").unwrap_or(standard.eol),
        comment: text_at(csv, "comment"),
        has_header: truth_at(csv, "has_header").unwrap_or(standard.has_header),
        null_text: text_at(csv, "null").unwrap_or(standard.null_text),
    }
}

/// The text at a key.
pub fn text_at<'t>(tree: &'t Value, key: &str) -> Option<&'t str> {
    tree.get(key)?.as_str()
}

/// The truth value at a key.
fn truth_at(tree: &Value, key: &str) -> Option<bool> {
    tree.get(key)?.as_bool()
}

/// The first byte of the text at a key.
fn byte_at(tree: &Value, key: &str) -> Option<u8> {
    let text = tree.get(key)?.as_str()?;
    text.as_bytes().first().copied()
}

/// The quote, which may be null.
fn quote_at(csv: &Value) -> Option<u8> {
    match csv.get("quote") {
        Some(found) => {
            let text = found.as_str()?;
            text.as_bytes().first().copied()
        }
        None => CsvForm::standard().quote,
    }
}

/// The names of the columns that a scan uses; none where it keeps all.
fn used_names(alloc: Global, scan: &Value) -> Result<Option<Vec<&str>>, Unsaid> {
    let Some(kept) = items_at(scan, "columns") else {
        return Ok(None);
    };
    if kept.is_empty() {
        return Ok(None);
    }
    let mut names = texts_of(alloc, kept)?;
    if let Some(filter) = scan.get("filter") {
        push_compared(alloc, filter, &mut names)?;
    }
    Ok(Some(names))
}

/// The names of which the filter of a scan speaks.
pub fn compared_names(alloc: Global, scan: &Value) -> Result<Vec<&str>, Unsaid> {
    let mut names = Vec::new(alloc);
    if let Some(filter) = scan.get("filter") {
        push_compared(alloc, filter, &mut names)?;
    }
    Ok(names)
}

/// The texts of a list.
fn texts_of<'t>(alloc: Global, items: &'t [Value]) -> Result<Vec<&'t str>, Unsaid> {
    let mut texts = Vec::new(alloc);
    for item in items {
        if let Some(text) = item.as_str() {
            texts.push(text)?;
        }
    }
    Ok(texts)
}

/// Puts the names last of which a filter speaks.
fn push_compared<'t>(
    alloc: Global,
    filter: &'t Value,
    names: &mut Vec<&'t str>,
) -> Result<(), Unsaid> {
    let mut parts = Vec::new(alloc);
    parts.push(filter)?;
    for _ in 0..MOST_PARTS {
        let Some(part) = parts.pop() else {
            return Ok(());
        };
        push_part(part, &mut parts, names)?;
    }
    Ok(())
}

/// Puts the names of one part of a filter last, and the parts within it.
fn push_part<'t>(
    part: &'t Value,
    parts: &mut Vec<&'t Value>,
    names: &mut Vec<&'t str>,
) -> Result<(), Unsaid> {
    if let Some(text) = part.get("col") {
        parts.push(text)?;
    }
    if let Some(name) = part.as_str() {
        names.push(name)?;
    }
    // The first item is the word of the predicate.
    if let Some([_, items @ ..]) = list_of(part) {
        for item in items {
            parts.push(item)?;
        }
    }
    Ok(())
}

/// The items of a list.
fn list_of(tree: &Value) -> Option<&[Value]> {
    match tree.as_array() {
        Some(items) => Some(items),
        None => None,
    }
}
