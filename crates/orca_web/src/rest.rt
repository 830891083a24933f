//! A few bytes that are still to be sent.

ghost use Rattle.std.specs.Prelude.{◌≡◌, ◌≤◌, ◌-◌, ◌++◌, [], length, drop, OnOk, OnErr};
ghost use Rattle.orca_web.specs.declared.limits.TheConstants.{REST_BYTES};
ghost use Rattle.bytes.specs.Filled.{MakesSpare, UsesSpare};

use crate::limits::REST_BYTES;
use bytes::BufMut;
use std::alloc::AllocError;
use std::marker::Model;

/// Bytes that are still to be sent.
#[derive(Drop)]
pub struct Rest {
    bytes: [u8; REST_BYTES],
    end: usize,
}

impl Model for Rest {
    ghost use Rattle.std.specs.Prelude.{ℕ, List, ◌≤◌, take, length};

    ghost Value = { List ℕ };

    ghost view = { λ r. take r.end r.bytes };

    ghost invariant = { λ r. r.end ≤ length r.bytes };
}

impl Rest {
    /// No bytes.
    pub fn none() -> Rest
        ensures { result ≡ [] }
    {
        Rest {
            bytes: [0; REST_BYTES],
            end: 0,
        }
    }

    /// These bytes.
    pub(crate) fn of(from: &[u8]) -> Rest
        requires { length from.now ≤ REST_BYTES }
        ensures { result ≡ from.now }
    {
        let mut bytes = [0; REST_BYTES];
        let end = from.len();
        bytes[..end].copy_from_slice(from);
        Rest { bytes, end }
    }

    /// The bytes.
    pub fn as_slice(&self) -> &[u8]
        ensures bytes { result.now ≡ self.now }
        ensures few { length result.now ≤ REST_BYTES }
    {
        &self.bytes[..self.end]
    }

    /// The first of them were sent.
    pub fn sent(&mut self, count: usize)
        requires { count ≤ length self.old }
        ensures { self.new ≡ drop count self.old }
    {
        *self = Rest::of(&self.as_slice()[count..]);
    }

    /// How many more there is room for.
    fn room(&self) -> usize
        ensures { result ≡ REST_BYTES - length self.now }
    {
        REST_BYTES - self.end
    }
}

impl BufMut for Rest {
    ghost use Rattle.orca_web.specs.declared.limits.TheConstants.{REST_BYTES};

    ghost written = { λ r. r };

    ghost spare = { λ r. REST_BYTES - length r };

    fn reserve(&mut self, additional: usize) -> Result<(), AllocError> {
        if additional <= self.room() {
            Ok(())
        } else {
            Err(AllocError)
        }
    }

    fn put_slice(&mut self, src: &[u8]) -> Result<(), AllocError> {
        if src.len() > self.room() {
            return Err(AllocError);
        }
        let end = self.end + src.len();
        self.bytes[self.end..end].copy_from_slice(src);
        self.end = end;
        Ok(())
    }

    fn remaining_mut(&self) -> usize {
        self.room()
    }
}
