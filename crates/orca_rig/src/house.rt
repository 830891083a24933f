use crate::{Files, Inbox, Outs};
use std::sync::ledger::Ledger;

/// The types of all that stands outside of a run, and of its counter of steps. It has no values.
pub trait House {
    /// The files.
    type Files: Files;
    /// The ports.
    type Outs: Outs;
    /// The inbox.
    type Inbox: Inbox;
    /// The counter of steps.
    type Ledger: Ledger;
}
