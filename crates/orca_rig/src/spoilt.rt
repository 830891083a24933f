//! The names of the files that no append adds to any more.

ghost use Rattle.std.specs.Prelude.{◌≡◌, ◌<◌, ◌||◌, ℕ, List, string_bytes, vec_len, vec_capacity};
ghost use Rattle.std.specs.List.{list_any};
ghost use Rattle.std.specs.Str.{bytes_eq};
ghost use Rattle.orca_rig.specs.Saved.{is_spoilt, names_of, spoilt_after};

use crate::OutsideFault;

/// Whether a name is among these.
pub(crate) fn has_name(names: &[String], name: &str) -> bool
    ensures { result ≡ list_any (bytes_eq name.now) (names_of names.now) }
{
    names.iter().any(|other| name == other.as_str())
}

/// Whether a name is among those of the spoilt files.
pub fn is_spoilt(spoilt: &[String], name: &str) -> bool
    ensures { result ≡ is_spoilt (names_of spoilt.now) name.now }
{
    has_name(spoilt, name)
}

/// Keeps the name of a file whose save, begin, append or claim has failed. There is room for it.
pub fn keep_spoilt<T>(
    spoilt: &mut Vec<String>,
    name: String,
    done: Result<T, OutsideFault>,
) -> Result<T, OutsideFault>
    requires { vec_len spoilt.old < vec_capacity spoilt.old }
    ensures same { result ≡ done }
    ensures spoilt { (file : List ℕ) → is_spoilt (names_of spoilt.new.items) file
        ≡ spoilt_after done (string_bytes name) file (is_spoilt (names_of spoilt.old.items) file) }
{
    if let Err(OutsideFault::Failed) = &done {
        put_name(spoilt, name);
    }
    done
}

/// Puts a name to the others, unless it is one of them. There is room for it.
#[tactic(auto, using(crate::proofs::SpoiltLemmas::name_put, crate::proofs::SpoiltLemmas::name_there))]
pub fn put_name(names: &mut Vec<String>, name: String)
    requires { vec_len names.old < vec_capacity names.old }
    ensures { (file : List ℕ) → is_spoilt (names_of names.new.items) file
        ≡ (bytes_eq file (string_bytes name) || is_spoilt (names_of names.old.items) file) }
{
    if !is_spoilt(names, name.as_str()) {
        names.push_reserved(name);
    }
}
