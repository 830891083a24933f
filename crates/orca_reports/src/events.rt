use crate::going::goes;
use orca_base::{Reply, Rule};
use orca_concert::{News, Report, print_messages};
use orca_course::{Desk, NoMemory, Stop};
use orca_edit::Machine;
use orca_rig::House;
use orca_send::Label;
use std::alloc::Global;

/// The report of `events`: a line for each message of a frame, and for each message of the close. A
/// full history ends the run.
#[derive(Drop)]
pub struct EventsReport {
    /// Room for what is printed.
    line: Vec<u8>,
}

impl EventsReport {
    /// The report of a run.
    pub fn new(alloc: Global) -> EventsReport {
        EventsReport {
            line: Vec::new(alloc),
        }
    }
}

impl Report for EventsReport {
    ghost use Rattle.orca_reports.specs.Manners.{events_manner};

    ghost Kept = { Unit {0} };

    ghost kept = { λ _. tt };

    ghost manner = { events_manner };

    fn hands(&self) -> bool {
        true
    }

    #[tactic(auto, using(orca_course::proofs::WorldLemmas::called_still, crate::proofs::DoneLemmas::printed))]
    fn tell<M: Machine, H: House>(
        &mut self,
        desk: &mut Desk<H>,
        _: &M,
        news: News<'_>,
    ) -> Result<Option<Stop>, NoMemory> {
        match news {
            News::Done {
                answer,
                messages,
                ..
            } => match answer {
                Ok(Reply::Framed { tick }) => {
                    goes(print_messages(desk, &mut self.line, Label::Tick(tick), messages))
                }
                Err(Rule::HistoryFull) => Ok(Some(Stop::Full)),
                Ok(_) | Err(_) => Ok(None),
            },
            News::Closed(messages) => {
                goes(print_messages(desk, &mut self.line, Label::End, messages))
            }
            News::Stands(_) | News::Last => Ok(None),
        }
    }
}
