ghost use Rattle.std.specs.Prelude.{◌≡◌, OnOk};
ghost use Rattle.orca_grid.specs.GridText.{text_of};

use crate::going::goes;
use orca_base::{Look, Memory, Rule};
use orca_concert::{News, Report, say};
use orca_course::{Desk, NoMemory, Stop};
use orca_edit::Machine;
use orca_grid::Grid;
use orca_rig::House;
use std::alloc::Global;

/// The report of `run`: the grid at last. A full history ends the run.
#[derive(Drop)]
pub struct RunReport {
    /// Room for what is printed.
    line: Vec<u8>,
}

impl RunReport {
    /// The report of a run.
    pub fn new(alloc: Global) -> RunReport {
        RunReport {
            line: Vec::new(alloc),
        }
    }
}

impl Report for RunReport {
    ghost use Rattle.orca_reports.specs.Manners.{run_manner};

    ghost Kept = { Unit {0} };

    ghost kept = { λ _. tt };

    ghost manner = { run_manner };

    fn hands(&self) -> bool {
        true
    }

    #[tactic(auto, using(orca_course::proofs::WorldLemmas::called_still, crate::proofs::DoneLemmas::unsaid, crate::proofs::DoneLemmas::said))]
    fn tell<M: Machine, H: House>(
        &mut self,
        desk: &mut Desk<H>,
        machine: &M,
        news: News<'_>,
    ) -> Result<Option<Stop>, NoMemory> {
        match news {
            News::Done { answer, .. } => match answer {
                Err(Rule::HistoryFull) => Ok(Some(Stop::Full)),
                Ok(_) | Err(_) => Ok(None),
            },
            News::Stands(_) => {
                machine.is_shown();
                write_grid(&mut self.line, machine)?;
                goes(say(desk, self.line.as_slice()))
            }
            News::Closed(_) | News::Last => Ok(None),
        }
    }
}

/// Makes `line` the text of a grid.
pub(crate) fn write_grid<T: Look>(line: &mut Vec<u8>, look: &T) -> Result<(), Memory>
    ensures { OnOk result (line.new.items ≡ text_of (T.sheet look.now)) }
{
    line.clear();
    Grid::print(look, line)
}
