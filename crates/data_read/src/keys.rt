//! The keys of a JSON object.
ghost use Rattle.std.specs.Prelude.{◌≡◌, option_map, map};
ghost use Rattle.std.specs.List.{list_any};
ghost use Rattle.std.specs.Str.{bytes_eq};
ghost use Rattle.serde_json.specs.View.{members_view};
ghost use Rattle.data_read.specs.Keys as spec;

use serde_json::{Map, Value as Json};

fn is_among(known: &[&str], key: &str) -> bool
    ensures { result ≡ list_any (bytes_eq key.now) (map (λ other. other.now) known.now) }
{
    for other in known {
        if key == *other {
            return true;
        }
    }
    false
}

/// The first key in byte order that isn't one of these.
#[tactic(auto, using(crate::proofs::KeysLemmas::unknown_of_keys))]
pub(crate) fn unknown_key<'a>(object: &'a Map<String, Json>, known: &[&str]) -> Option<&'a str>
    ensures { option_map (λ key. key.now) result ≡ spec.unknown_key (map (λ key. key.now) known.now) (members_view object.now.entries) }
{
    for key in object.keys() {
        if !is_among(known, key.as_str()) {
            return Some(key.as_str());
        }
    }
    None
}

/// Whether there is no key but these.
pub(crate) fn has_only(object: &Map<String, Json>, known: &[&str]) -> bool
    ensures { result ≡ spec.has_only (map (λ key. key.now) known.now) (members_view object.now.entries) }
{
    unknown_key(object, known).is_none()
}
