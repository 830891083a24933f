use crate::going::goes;
use crate::replay::write_state;
use orca_concert::{News, Report, say};
use orca_course::{Desk, NoMemory, Stop};
use orca_edit::Machine;
use orca_rig::House;
use std::alloc::Global;

/// The report of `follow` and `lead`: at last the grid and where the run stands. It prints nothing
/// of a command, also of a refused one, and a full history does not end the run.
#[derive(Drop)]
pub struct StateReport {
    /// Room for what is printed.
    line: Vec<u8>,
}

impl StateReport {
    /// The report of a run.
    pub fn new(alloc: Global) -> StateReport {
        StateReport {
            line: Vec::new(alloc),
        }
    }
}

impl Report for StateReport {
    ghost use Rattle.orca_reports.specs.Manners.{state_manner};

    ghost Kept = { Unit {0} };

    ghost kept = { λ _. tt };

    ghost manner = { state_manner };

    fn hands(&self) -> bool {
        true
    }

    #[tactic(auto, using(orca_course::proofs::WorldLemmas::called_still, crate::proofs::DoneLemmas::unsaid, crate::proofs::DoneLemmas::said))]
    fn tell<M: Machine, H: House>(
        &mut self,
        desk: &mut Desk<H>,
        machine: &M,
        news: News<'_>,
    ) -> Result<Option<Stop>, NoMemory> {
        match news {
            News::Stands(_) => {
                write_state(&mut self.line, machine)?;
                goes(say(desk, self.line.as_slice()))
            }
            News::Done { .. } | News::Closed(_) | News::Last => Ok(None),
        }
    }
}
