ghost use Rattle.std.specs.Prelude.{◌≡◌, List, [], ◌∷◌, ◌++◌};
ghost use Rattle.std.specs.Borrow.{ftrue};
ghost use Rattle.orca_trace.specs.Calls.{Call, call_of};

use crate::Kind;
use std::marker::Model;

/// All calls so far, in order, each with its answer.
#[derive(Drop)]
pub struct Trace {
    pub ghost calls: { List Call },
}

impl Model for Trace {
    // It owns nothing.
    ghost also_owns = { λ _. ftrue };
}

impl Trace {
    /// No call yet.
    pub fn new() -> Trace
        ensures { result.calls ≡ [] }
    {
        Trace {}
    }

    /// One call more: its kind, with its name and its bytes, or none of either.
    pub fn note(&mut self, _kind: &Kind, _name: &[u8], _bytes: &[u8])
        ensures { self.new.calls
            ≡ self.old.calls ++ call_of _kind.now _name.now _bytes.now ∷ [] }
    {}
}
