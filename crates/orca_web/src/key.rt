//! The key that whoever connects has to show.

ghost use Rattle.std.specs.Prelude.{◌≡◌, ◌↔◌, IsSome, IsTrue, IfSome};
ghost use Rattle.std.specs.List.{list_all};
ghost use Rattle.orca_web.specs.Greetings.{is_key, is_key_letter, greeting_bytes};

use crate::limits::{MAX_KEY_LETTERS, MIN_KEY_LETTERS};
use crate::rest::Rest;
use bytes::BufMut;
use std::marker::Model;

/// A key. A browser shows it in the address, and a terminal in its greeting.
#[derive(Drop)]
pub struct Key {
    letters: Rest,
    /// The greeting of a terminal that has the key.
    greeting: Rest,
}

impl Model for Key {
    ghost use Rattle.std.specs.Prelude.{◌≡◌, ℕ, List};
    ghost use Rattle.orca_web.specs.Greetings.{greeting_bytes};

    ghost Value = { List ℕ };

    ghost view = { λ k. k.letters };

    ghost invariant = { λ k. k.greeting ≡ greeting_bytes k.letters };
}

impl Key {
    /// The key of these letters, if they are one: 12 to 64 of `A-Z a-z 0-9 - _`, those of base64url
    /// (RFC 4648, section 5).
    pub fn of(letters: &[u8]) -> Option<Key>
        ensures valid { IsSome result ↔ IsTrue (is_key letters.now) }
        ensures key { IfSome result (λ key. key ≡ letters.now) }
    {
        if !is_key(letters) {
            return None;
        }
        let mut greeting = Rest::none();
        greeting.put_slice(b"\x1b_").ok()?;
        greeting.put_slice(letters).ok()?;
        greeting.put_slice(b"\x1b\\").ok()?;
        Some(Key {
            letters: Rest::of(letters),
            greeting,
        })
    }

    /// Its letters.
    pub fn letters(&self) -> &[u8]
        ensures { result.now ≡ self.now }
    {
        self.letters.as_slice()
    }

    /// The greeting of a terminal that has the key: `ESC _ KEY ESC \`, an application program
    /// command (ECMA-48, 8.3.2).
    pub fn greeting(&self) -> &[u8]
        ensures { result.now ≡ greeting_bytes self.now }
    {
        self.greeting.as_slice()
    }
}

/// Whether letters are a key.
fn is_key(letters: &[u8]) -> bool
    ensures { result ≡ is_key letters.now }
{
    MIN_KEY_LETTERS <= letters.len() && letters.len() <= MAX_KEY_LETTERS && are_key_letters(letters)
}

/// Whether a key may have these letters.
fn are_key_letters(letters: &[u8]) -> bool
    ensures { result ≡ list_all is_key_letter letters.now }
{
    letters.iter().all(|letter| is_key_letter(*letter))
}

/// Whether a key may have this letter.
fn is_key_letter(letter: u8) -> bool
    ensures { result ≡ is_key_letter letter }
{
    letter.is_ascii_alphanumeric() || letter == b'-' || letter == b'_'
}
