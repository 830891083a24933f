ghost use Rattle.std.specs.Prelude.{◌≡◌, ◌++◌, OnOk};
ghost use Rattle.orca_course.specs.Standings.{standing};
ghost use Rattle.orca_reports.specs.Sums.{sum_after, sum_of};
ghost use Rattle.orca_reports.specs.Manners.{figures_at};
ghost use Rattle.orca_reports.specs.Texts.{figure_line, figures_text, size_line};

use crate::figures::push_figure;
use crate::going::goes;
use orca_base::{Dims, Glyph, Look, Memory};
use orca_concert::{News, Report, say};
use orca_course::{Desk, NoMemory, Stop, Tally};
use orca_edit::Machine;
use orca_rig::House;
use orca_send::push_decimal;
use std::alloc::Global;

/// The report of `make`: five lines at last. A full history does not end the run.
#[derive(Drop)]
pub struct MakeReport {
    /// Room for what is printed.
    line: Vec<u8>,
}

impl MakeReport {
    /// The report of a run.
    pub fn new(alloc: Global) -> MakeReport {
        MakeReport {
            line: Vec::new(alloc),
        }
    }
}

impl Report for MakeReport {
    ghost use Rattle.orca_reports.specs.Manners.{make_manner};

    ghost Kept = { Unit {0} };

    ghost kept = { λ _. tt };

    ghost manner = { make_manner };

    fn hands(&self) -> bool {
        true
    }

    #[tactic(auto, using(orca_course::proofs::WorldLemmas::called_still, crate::proofs::DoneLemmas::unsaid, crate::proofs::DoneLemmas::said))]
    fn tell<M: Machine, H: House>(
        &mut self,
        desk: &mut Desk<H>,
        machine: &M,
        news: News<'_>,
    ) -> Result<Option<Stop>, NoMemory> {
        match news {
            News::Stands(tally) => {
                write_five_lines(&mut self.line, machine, tally)?;
                goes(say(desk, self.line.as_slice()))
            }
            News::Done { .. } | News::Closed(_) | News::Last => Ok(None),
        }
    }
}

/// What the five lines tell.
#[derive(Drop)]
pub(crate) struct Figures {
    /// The size of the grid.
    pub(crate) dims: Dims,
    /// The length of the history.
    pub(crate) moments: u32,
    /// The tick of the next frame.
    pub(crate) tick: u32,
    /// The count of the messages.
    pub(crate) messages: u64,
    /// The sum of the glyphs.
    pub(crate) sum: u32,
}

/// Makes `line` the five lines of a machine and a tally.
fn write_five_lines<M: Machine>(line: &mut Vec<u8>, machine: &M, tally: Tally) -> Result<(), Memory>
    ensures { OnOk result (line.new.items ≡ figures_at
        (standing (M.machine machine.now) (M.kept machine.now) tally)) }
{
    machine.is_shown();
    let figures = Figures {
        dims: machine.dims(),
        moments: machine.moments(),
        tick: machine.tick(),
        messages: tally.messages,
        sum: sum_of(machine),
    };
    write_figures(line, &figures)
}

/// Makes `line` the five lines of these figures.
#[tactic(auto, unfolding(crate::specs::Texts::figures_text))]
pub(crate) fn write_figures(line: &mut Vec<u8>, figures: &Figures) -> Result<(), Memory>
    ensures { let f = figures.now in OnOk result
        (line.new.items ≡ figures_text f.dims f.moments f.tick f.messages f.sum) }
{
    line.clear();
    push_size(line, figures.dims)?;
    push_figure_line(line, "moments", u64::from(figures.moments))?;
    push_figure_line(line, "tick", u64::from(figures.tick))?;
    push_figure_line(line, "messages", figures.messages)?;
    push_figure_line(line, "sum", u64::from(figures.sum))
}

/// Appends the line of a size.
fn push_size(line: &mut Vec<u8>, dims: Dims) -> Result<(), Memory>
    ensures { OnOk result (line.new.items ≡ line.old.items ++ size_line dims) }
{
    push_figure(line, "grid", u64::from(dims.h))?;
    line.push(b'x')?;
    push_decimal(line, u64::from(dims.w))?;
    line.push(b'\n')?;
    Ok(())
}

/// Appends the line of a word and a number.
fn push_figure_line(line: &mut Vec<u8>, word: &str, n: u64) -> Result<(), Memory>
    ensures { OnOk result (line.new.items ≡ line.old.items ++ figure_line word.now n) }
{
    push_figure(line, word, n)?;
    line.push(b'\n')?;
    Ok(())
}

/// The sum of a grid's glyphs, in reading order.
#[tactic(auto, unfolding(crate::specs::Sums::sum_of))]
pub(crate) fn sum_of<T: Look>(look: &T) -> u32
    ensures { result ≡ sum_of (T.sheet look.now) }
{
    let dims = look.dims();
    let mut sum = 0;
    for index in 0..dims.cells() {
        sum = sum_after(sum, look.glyph_at(dims.place(index)));
    }
    sum
}

/// The sum with a glyph more: 31 times as much and the byte of the glyph, modulo 2^32.
fn sum_after(sum: u32, glyph: Glyph) -> u32
    ensures { result ≡ sum_after sum glyph }
{
    sum.wrapping_mul(31).wrapping_add(u32::from(glyph.byte()))
}
