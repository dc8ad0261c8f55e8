//! The flaws of a query in which no file has a part.
ghost use Rattle.std.specs.Prelude.{◌≡◌, ◌↔◌, ◌∷◌, [], Some, None, IfSome, IsNone, IsTrue, IsFalse};
ghost use Rattle.morsel_frame.specs.Names.{stands_in};
ghost use Rattle.morsel_query.specs.QueryFlaws.{AreColumns, AreGroupKeys, AreJoinKeys, AreNoColumns, AreSound, AreSoundGroupKeys, IsFlaw, SoundHasNoFlaw, has_repeats, keys_of_group};

use morsel_group::GroupSpec;
use morsel_meaning::{Name, Why};

/// How many sources a scan may name.
const MOST_SOURCES: usize = 65_536;

/// How many columns a schema may have.
const MOST_COLUMNS: usize = 65_535;

/// A flaw of a query of one side, with these sources, so many columns where it gives them, and a sink of this name; none where
/// it has no flaw.
///
/// There are 1 to 65,536 sources and 1 to 65,535 columns, and the sink's name is not the name of a source.
pub fn flaw_of_side(sources: &[Name], columns: Option<usize>, sink: &str) -> Option<Why>
    ensures some { IfSome result (IsFlaw (record { sources = sources.now; columns = columns } ∷ []) None None sink.now) }
    ensures none { IsNone result → AreSound (record { sources = sources.now; columns = columns } ∷ []) None None sink.now }
{
    if sources.is_empty() {
        return Some(Why::NoSource);
    }
    if sources.len() > MOST_SOURCES {
        return Some(Why::ManySources);
    }
    if !are_columns(columns) {
        return Some(Why::NoColumn);
    }
    if is_among(sink, sources) {
        return Some(Why::SinkIsSource);
    }
    None
}

/// A flaw of the keys of a join; none where they have no flaw.
///
/// There are as many right keys as left ones, at least one, and no side names a key twice.
pub fn flaw_of_keys(left: &[Name], right: &[Name]) -> Option<Why>
    ensures some { IfSome result (IsFlaw [] (Some (record { left = left.now; right = right.now })) None []) }
    ensures none { IsNone result → AreJoinKeys (record { left = left.now; right = right.now }) }
{
    if left.len() != right.len() {
        return Some(Why::UnequalKeys);
    }
    if left.is_empty() {
        return Some(Why::NoKeys);
    }
    if has_repeats(left) || has_repeats(right) {
        return Some(Why::RepeatedKey);
    }
    None
}

/// A flaw of a group-by, where there is one; none where it has no flaw.
///
/// There is at least one key, and none is named twice.
pub fn flaw_of_group(group: &Option<GroupSpec>) -> Option<Why>
    ensures some { IfSome result (IsFlaw [] None (keys_of_group group.now) []) }
    ensures none { IsNone result → AreSoundGroupKeys (keys_of_group group.now) }
{
    match group {
        Some(spec) => flaw_of_group_keys(&spec.keys),
        None => None,
    }
}

/// A flaw of the keys of a group-by.
fn flaw_of_group_keys(names: &[Name]) -> Option<Why>
    ensures some { IfSome result (IsFlaw [] None (Some names.now) []) }
    ensures none { IsNone result → AreGroupKeys names.now }
{
    if names.is_empty() {
        return Some(Why::NoKeys);
    }
    if has_repeats(names) {
        return Some(Why::RepeatedKey);
    }
    None
}

/// Whether one of these names stands among those that follow it.
fn has_repeats(names: &[Name]) -> bool
    ensures { result ≡ has_repeats names.now }
{
    for at in 0..names.len() {
        if is_among(names[at].as_str(), &names[at + 1..]) {
            return true;
        }
    }
    false
}

/// Whether these are some columns, and not too many, where they are given.
fn are_columns(columns: Option<usize>) -> bool
    ensures yes { IsTrue result ↔ AreColumns columns }
    ensures no { IsFalse result ↔ AreNoColumns columns }
{
    match columns {
        Some(columns) => 0 < columns && columns <= MOST_COLUMNS,
        None => true,
    }
}

/// Whether a text is one of these names.
fn is_among(text: &str, names: &[Name]) -> bool
    ensures { result ≡ stands_in text.now names.now }
{
    names.iter().any(|name| name.as_str() == text)
}

/// No query has a flaw and none: the two sides of `flaw_of_side` exclude each other.
#[tactic(auto, using(crate::proofs::SoundLemmas::sound_has_no_flaw))]
pub fn a_sound_query_has_no_flaw()
    ensures { SoundHasNoFlaw }
{}
