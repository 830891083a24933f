ghost use Rattle.std.specs.Prelude.{◌≡◌};
ghost use Rattle.orca_reports.specs.Rescues.{done_tells, rescue_at_start};

use orca_base::{Reply, Rule};
use orca_concert::{News, Report};
use orca_course::{Desk, NoMemory, Stop};
use orca_edit::Machine;
use orca_rig::House;
use std::marker::Model;

/// The report of `recover`. Nothing is printed, handed out or saved, and the commands are counted. A
/// command that the history has no room for ends the run where it has to fit, and else it is passed
/// over, as the performance did.
#[derive(Drop)]
pub struct RecoveryReport {
    // Whether each command has to fit.
    strict: bool,
    // How many were done. The count stands still at its last value.
    done: u64,
}

impl Model for RecoveryReport {
    ghost use Rattle.orca_reports.specs.Rescues.{Rescue};

    ghost Value = { Rescue };

    ghost view = { λ r. record { strict = r.strict; done = r.done } };
}

impl RecoveryReport {
    /// The report of a run in which each command has to fit into the history, or not.
    pub fn new(strict: bool) -> RecoveryReport
        ensures { result ≡ rescue_at_start strict }
    {
        RecoveryReport { strict, done: 0 }
    }

    /// How many commands were done before the history was full.
    pub fn done(&self) -> u64
        ensures { result ≡ self.now.done }
    {
        self.done
    }

    /// Counts a command, unless the run ends since it has no room.
    fn heard(&mut self, answer: Result<Reply, Rule>) -> Option<Stop>
        ensures ending { result ≡ (done_tells answer self.old).ending }
        ensures kept { self.new ≡ (done_tells answer self.old).state }
    {
        match answer {
            Err(Rule::HistoryFull) => {
                if self.strict {
                    return Some(Stop::Full);
                }
            }
            Ok(_) | Err(_) => {}
        }
        self.done = self.done.saturating_add(1);
        None
    }
}

impl Report for RecoveryReport {
    ghost use Rattle.orca_reports.specs.Rescues.{Rescue, recovery_manner};

    ghost Kept = { Rescue };

    ghost kept = { λ r. r };

    ghost manner = { recovery_manner };

    fn hands(&self) -> bool {
        false
    }

    #[tactic(auto, using(orca_course::proofs::WorldLemmas::called_still, crate::proofs::DoneLemmas::unsaid))]
    fn tell<M: Machine, H: House>(
        &mut self,
        _: &mut Desk<H>,
        _: &M,
        news: News<'_>,
    ) -> Result<Option<Stop>, NoMemory> {
        match news {
            News::Done { answer, .. } => Ok(self.heard(answer)),
            News::Stands(_) | News::Closed(_) | News::Last => Ok(None),
        }
    }
}
