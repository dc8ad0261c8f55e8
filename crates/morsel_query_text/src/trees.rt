//! What a JSON tree has at a key.
ghost use Rattle.std.specs.Prelude.{◌≡◌, map, option_map};
ghost use Rattle.morsel_frame.specs.Names.{stands_in};
ghost use Rattle.serde_json.specs.Find.{get, as_str, as_bool};
ghost use Rattle.serde_json.specs.View.{view, members_view};
ghost use Rattle.morsel_query_text.specs.Trees.{are_among, has_only, at_key, text_or_null, number};

use serde_json::{Map, Value};

/// Whether a tree is an object without other keys than these.
pub fn has_only_keys(tree: &Value, keys: &[&str]) -> bool
    ensures { result ≡ has_only (map (λ key. key.now) keys.now) (view tree.now) }
{
    match tree.as_object() {
        Some(members) => are_among(members, keys),
        None => false,
    }
}

/// Whether each member has one of these keys.
fn are_among(members: &Map<String, Value>, keys: &[&str]) -> bool
    ensures { result ≡ are_among (map (λ key. key.now) keys.now) (members_view members.now.entries) }
{
    for (key, _) in members.iter() {
        if !is_among(key.as_str(), keys) {
            return false;
        }
    }
    true
}

/// Whether a text is one of these.
fn is_among(text: &str, keys: &[&str]) -> bool
    ensures { result ≡ stands_in text.now (map (λ key. key.now) keys.now) }
{
    for key in keys {
        if *key == text {
            return true;
        }
    }
    false
}

/// The text at a key; the default where the key is absent, if there is one.
pub fn text_at<'t>(tree: &'t Value, key: &str, default: Option<&'t str>) -> Option<&'t str>
    ensures { option_map (λ text. text.now) result ≡ at_key key.now as_str (option_map (λ text. text.now) default.entry) (view tree.now) }
{
    match tree.get(key) {
        Some(found) => found.as_str(),
        None => default,
    }
}

/// The text at a key, or none where it is null; the default where the key is absent.
pub fn text_or_null_at<'t>(
    tree: &'t Value,
    key: &str,
    default: Option<&'t str>,
) -> Option<Option<&'t str>>
    ensures { option_map (λ told. option_map (λ text. text.now) told) result ≡ at_key key.now text_or_null (Some (option_map (λ text. text.now) default.entry)) (view tree.now) }
{
    match tree.get(key) {
        Some(found) => text_or_null_of(found),
        None => Some(default),
    }
}

/// A text, or none where it is null.
pub fn text_or_null_of(tree: &Value) -> Option<Option<&str>>
    ensures { option_map (λ told. option_map (λ text. text.now) told) result ≡ text_or_null (view tree.now) }
{
    if tree.is_null() {
        return Some(None);
    }
    match tree.as_str() {
        Some(text) => Some(Some(text)),
        None => None,
    }
}

/// The truth value at a key; the default where the key is absent.
pub fn truth_at(tree: &Value, key: &str, default: bool) -> Option<bool>
    ensures { result ≡ at_key key.now as_bool (Some default) (view tree.now) }
{
    match tree.get(key) {
        Some(found) => found.as_bool(),
        None => Some(default),
    }
}

/// The number at a key, without a sign; the default where the key is absent.
pub fn number_at(tree: &Value, key: &str, default: u64) -> Option<u64>
    ensures { result ≡ at_key key.now number (Some default) (view tree.now) }
{
    match tree.get(key) {
        Some(found) => found.as_u64(),
        None => Some(default),
    }
}
