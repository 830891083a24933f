//! The calls of a desk, and what it keeps of them to tell what they came to.

ghost use Rattle.std.specs.List.{list_any};
ghost use Rattle.std.specs.Prelude.{◌≡◌, ◌++◌, ◌∷◌, []};
ghost use Rattle.orca_course.specs.Answered.{is_file_fault, is_port_fault, losses_in, losses_of, no_outcomes, outcomes_by, ports_with};
ghost use Rattle.orca_trace.specs.Calls.{call_of};

use crate::Losses;
use orca_base::Port;
use orca_rig::OutsideFault;
use orca_trace::{Kind, Trace};
use std::marker::Model;

/// The ports of messages of which something holds.
#[derive(Clone, Copy)]
pub(crate) struct Ports {
    pub(crate) midi: bool,
    pub(crate) udp: bool,
    pub(crate) osc: bool,
}

impl Ports {
    /// It holds of a port, or not.
    fn set(&mut self, port: Port, holds: bool)
        ensures { self.new ≡ ports_with port holds self.old }
    {
        match port {
            Port::Midi => self.midi = holds,
            Port::Udp => self.udp = holds,
            Port::Osc => self.osc = holds,
            Port::Text | Port::Fault | Port::View => {}
        }
    }
}

/// What is kept of calls.
#[derive(Clone, Copy)]
pub(crate) struct Outcomes {
    /// The ports whose last attach has failed.
    pub(crate) unattached: Ports,
    /// The ports whose last send has failed.
    pub(crate) unsent: Ports,
    /// A begin or an append has failed.
    pub(crate) journal: bool,
    /// The last save has failed.
    pub(crate) unsaved: bool,
    /// A call of the files has failed.
    pub(crate) unstored: bool,
    /// A call of a port has failed.
    pub(crate) failed: bool,
}

impl Outcomes {
    /// Nothing was called.
    fn start() -> Outcomes
        ensures { result ≡ no_outcomes }
    {
        let none = Ports {
            midi: false,
            udp: false,
            osc: false,
        };
        Outcomes {
            unattached: none,
            unsent: none,
            journal: false,
            unsaved: false,
            unstored: false,
            failed: false,
        }
    }

    /// A call more. One that was refused memory counts for nothing.
    #[tactic(auto, unfolding(crate::specs::Answered::outcomes_by))]
    fn note(&mut self, kind: &Kind, _name: &[u8], _bytes: &[u8])
        ensures { self.new ≡ outcomes_by self.old (call_of kind.now _name.now _bytes.now) }
    {
        match *kind {
            Kind::Attach(port, Ok(())) => self.unattached.set(port, false),
            Kind::Attach(port, Err(OutsideFault::Failed)) => {
                self.unattached.set(port, true);
                self.failed = true;
            }
            Kind::Give(port, Ok(())) => self.unsent.set(port, false),
            Kind::Give(port, Err(OutsideFault::Failed)) => {
                self.unsent.set(port, true);
                self.failed = true;
            }
            Kind::Save(Ok(())) => self.unsaved = false,
            Kind::Load(Err(OutsideFault::Failed)) => self.unstored = true,
            Kind::Save(Err(OutsideFault::Failed)) => {
                self.unsaved = true;
                self.unstored = true;
            }
            Kind::Begin(Err(OutsideFault::Failed)) => {
                self.journal = true;
                self.unstored = true;
            }
            Kind::Append(Err(OutsideFault::Failed)) => {
                self.journal = true;
                self.unstored = true;
            }
            Kind::Claim(Err(OutsideFault::Failed)) => self.unstored = true,
            Kind::Remove(Err(OutsideFault::Failed)) => self.unstored = true,
            Kind::Attach(..)
            | Kind::Give(..)
            | Kind::Load(_)
            | Kind::Save(_)
            | Kind::Begin(_)
            | Kind::Append(_)
            | Kind::Claim(_)
            | Kind::Remove(_)
            | Kind::Tell(..)
            | Kind::Listen(..)
            | Kind::Await(..) => {}
        }
    }

    /// What the calls came to.
    fn losses(&self) -> Losses
        ensures { result ≡ losses_in self.now }
    {
        Losses {
            midi: self.unattached.midi || self.unsent.midi,
            udp: self.unattached.udp || self.unsent.udp,
            osc: self.unattached.osc || self.unsent.osc,
            journal: self.journal,
            unsaved: self.unsaved,
            unstored: self.unstored,
        }
    }
}

/// The calls so far. A contract sees them as a list.
#[derive(Drop)]
pub(crate) struct Notes {
    trace: Trace,
    outcomes: Outcomes,
}

impl Model for Notes {
    ghost use Rattle.std.specs.Prelude.{◌≡◌, List};
    ghost use Rattle.orca_course.specs.Answered.{outcomes_of};
    ghost use Rattle.orca_trace.specs.Calls.{Call};

    ghost Value = { List Call };

    ghost view = { λ n. n.trace.calls };

    ghost invariant = { λ n. n.outcomes ≡ outcomes_of n.trace.calls };
}

impl Notes {
    /// No call yet.
    #[tactic(auto, unfolding(crate::specs::Answered::outcomes_of))]
    pub(crate) fn new() -> Notes
        ensures { result ≡ [] }
    {
        Notes {
            trace: Trace::new(),
            outcomes: Outcomes::start(),
        }
    }

    /// One call more: its kind, with its name and its bytes, or none of either.
    #[tactic(auto, using(crate::proofs::AnsweredLemmas::outcomes_more))]
    pub(crate) fn note(&mut self, kind: &Kind, name: &[u8], bytes: &[u8])
        ensures { self.new ≡ self.old ++ call_of kind.now name.now bytes.now ∷ [] }
    {
        self.trace.note(kind, name, bytes);
        self.outcomes.note(kind, name, bytes);
    }

    /// Whether a port has failed at one of them.
    #[tactic(auto, using(crate::proofs::AnsweredLemmas::port_faults))]
    pub(crate) fn has_failed(&self) -> bool
        ensures { result ≡ list_any is_port_fault self.now }
    {
        self.outcomes.failed
    }

    /// Whether the files have.
    #[tactic(auto, using(crate::proofs::AnsweredLemmas::file_faults))]
    pub(crate) fn file_failed(&self) -> bool
        ensures { result ≡ list_any is_file_fault self.now }
    {
        self.outcomes.unstored
    }

    /// What they came to.
    pub(crate) fn losses(&self) -> Losses
        ensures { result ≡ losses_of self.now }
    {
        self.outcomes.losses()
    }
}
