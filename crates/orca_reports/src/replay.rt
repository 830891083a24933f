ghost use Rattle.std.specs.Prelude.{◌≡◌, ◌++◌, OnOk};
ghost use Rattle.orca_reports.specs.Manners.{state_at};
ghost use Rattle.orca_reports.specs.Texts.{kept_word, refusal_text, state_text};

use crate::figures::push_figure;
use crate::going::goes;
use crate::run::write_grid;
use orca_base::{Memory, Rule};
use orca_concert::{News, Report, say};
use orca_course::{Desk, NoMemory, Stop};
use orca_edit::Machine;
use orca_rig::House;
use std::alloc::Global;

/// The report of `replay`: a line for each refused command, and at last the grid and where the run
/// stands. A full history does not end the run.
#[derive(Drop)]
pub struct ReplayReport {
    /// Room for what is printed.
    line: Vec<u8>,
}

impl ReplayReport {
    /// The report of a run.
    pub fn new(alloc: Global) -> ReplayReport {
        ReplayReport {
            line: Vec::new(alloc),
        }
    }
}

impl Report for ReplayReport {
    ghost use Rattle.orca_reports.specs.Manners.{replay_manner};

    ghost Kept = { Unit {0} };

    ghost kept = { λ _. tt };

    ghost manner = { replay_manner };

    fn hands(&self) -> bool {
        true
    }

    #[tactic(auto, using(orca_course::proofs::WorldLemmas::called_still, crate::proofs::DoneLemmas::unsaid, crate::proofs::DoneLemmas::said))]
    fn tell<M: Machine, H: House>(
        &mut self,
        desk: &mut Desk<H>,
        machine: &M,
        news: News<'_>,
    ) -> Result<Option<Stop>, NoMemory> {
        match news {
            News::Done { line, answer, .. } => match answer {
                Ok(_) => Ok(None),
                Err(rule) => {
                    write_refusal(&mut self.line, line, rule)?;
                    goes(say(desk, self.line.as_slice()))
                }
            },
            News::Stands(_) => {
                write_state(&mut self.line, machine)?;
                goes(say(desk, self.line.as_slice()))
            }
            News::Closed(_) | News::Last => Ok(None),
        }
    }
}

/// Makes `line` the line of a refused command, by its line in the script and the rule.
#[tactic(auto, unfolding(crate::specs::Texts::refusal_text))]
pub(crate) fn write_refusal(line: &mut Vec<u8>, number: u32, rule: Rule) -> Result<(), Memory>
    ensures { OnOk result (line.new.items ≡ refusal_text number rule) }
{
    line.clear();
    push_figure(line, "refused", u64::from(number))?;
    line.push(b' ')?;
    line.extend_from_slice(rule.name().as_bytes())?;
    push_kept(line, rule)?;
    line.push(b'\n')?;
    Ok(())
}

/// Appends how many entries the history has, where the rule speaks of them.
fn push_kept(line: &mut Vec<u8>, rule: Rule) -> Result<(), Memory>
    ensures { OnOk result (line.new.items ≡ line.old.items ++ kept_word rule) }
{
    match rule {
        Rule::NoSuchMoment { kept } => push_figure(line, " kept", u64::from(kept)),
        _ => Ok(()),
    }
}

/// Makes `line` the grid, and then the line of where the session stands.
pub(crate) fn write_state<M: Machine>(line: &mut Vec<u8>, machine: &M) -> Result<(), Memory>
    ensures { OnOk result (line.new.items ≡ state_at (M.machine machine.now)) }
{
    machine.is_shown();
    write_grid(line, machine)?;
    let sounding = machine.notes().len() as u64;
    push_state(line, machine.tick(), machine.moments(), sounding)
}

/// Appends the line of where a session stands.
#[tactic(auto, unfolding(crate::specs::Texts::state_text))]
pub(crate) fn push_state(
    line: &mut Vec<u8>,
    tick: u32,
    moments: u32,
    sounding: u64,
) -> Result<(), Memory>
    ensures { OnOk result (line.new.items ≡ line.old.items ++ state_text tick moments sounding) }
{
    push_figure(line, "tick", u64::from(tick))?;
    push_figure(line, " moments", u64::from(moments))?;
    push_figure(line, " sounding", sounding)?;
    line.push(b'\n')?;
    Ok(())
}
