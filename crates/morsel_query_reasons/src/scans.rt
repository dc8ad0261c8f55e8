//! The scans of a query, and the keys of its join.

use crate::table::items_at;
use serde_json::Value;

/// A scan of a query, and where it stands there.
#[derive(Clone, Copy, Debug)]
pub struct PlacedScan<'t> {
    pub path: &'static str,
    pub scan: &'t Value,
}

/// The left scan of a query.
pub fn left_of(query: &Value) -> Option<PlacedScan<'_>> {
    let scan = query.get("left")?;
    Some(PlacedScan { path: "left", scan })
}

/// The right scan of a query's join.
pub fn right_of(query: &Value) -> Option<PlacedScan<'_>> {
    let scan = query.get("join")?.get("right")?;
    Some(PlacedScan {
        path: "join.right",
        scan,
    })
}

/// The pairs of keys of a query's join; none where there is no join.
pub fn pairs_of(query: &Value) -> &[Value] {
    match query.get("join") {
        Some(join) => match items_at(join, "on") {
            Some(pairs) => pairs,
            None => &[],
        },
        None => &[],
    }
}

/// The name of a side in a pair of keys: the left one, or the right one.
pub fn name_on(pair: &Value, side: usize) -> Option<&str> {
    pair.get(side)?.as_str()
}
