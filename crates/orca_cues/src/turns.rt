//! What is done with a made grid, turn by turn.

ghost use Rattle.std.specs.Prelude.{◌≡◌, ◌-◌, ◌%◌, ◌<◌, ◌==◌};
ghost use Rattle.orca_cues.specs.Made.{made_cues};
ghost use Rattle.orca_cues.specs.TurnsLeft.{order_of, words_after, part_after};

use crate::maker::{generator, glyph_of};
use crate::{Cue, Maker, Order, Source};
use orca_base::{Command, Dims};
use rand_core::utils::NextWord;
use rand_pcg::Pcg32;
use std::marker::Model;

/// A write comes in the last of so many turns.
const WRITE_TURNS: u32 = 16;

/// An undo comes in the last of so many turns.
const UNDO_TURNS: u32 = 64;

/// A rewind comes in the last of so many turns.
const REWIND_TURNS: u32 = 1_024;

/// What comes next in a turn.
#[derive(Clone, Copy)]
enum Part {
    /// The frame.
    Frame,
    /// The write.
    Write,
    /// The undo.
    Undo,
    /// The rewind to half of the moments of the history.
    Rewind,
}

/// What is left of what a maker does with its grid. In each turn it plays a frame. In the last of
/// 16 turns it then writes a glyph, in the last of 64 it then undoes that, and in the last of 1,024
/// it then goes back to half of the moments of the history. It draws the words of a write when it
/// is asked for it, and takes no memory.
#[derive(Drop)]
pub struct Turns {
    maker: Maker,
    frames: u32,
    words: Pcg32,
    turn: u32,
    part: Part,
}

impl Model for Turns {
    ghost use Rattle.std.specs.Prelude.{List};
    ghost use Rattle.orca_cues.specs.declared.source.Cue.{Cue};
    ghost use Rattle.orca_cues.specs.TurnsLeft.{turns_left, IsTurn};

    ghost Value = { List Cue };

    ghost view = { λ t. turns_left t.part t.maker.seed t.maker.dims t.turn t.frames };

    ghost invariant = { λ t. IsTurn t.part t.maker.seed t.maker.dims t.turn t.frames t.words };
}

impl Turns {
    /// The turns of a maker, one for each of so many frames.
    pub fn of(maker: Maker, frames: u32) -> Turns
        ensures { result ≡ made_cues maker.seed maker.dims frames }
    {
        let mut words = generator(maker.seed);
        // The first words are those of the grid.
        words.advance(maker.dims.cells() as u64);
        Turns {
            maker,
            frames,
            words,
            turn: 0,
            part: Part::Frame,
        }
    }
}

impl Source for Turns {
    ghost left = { λ cues. cues };

    fn next(&mut self) -> Option<Cue> {
        if self.turn == self.frames {
            return None;
        }
        let order = order_of(self.part, self.maker.dims, &mut self.words);
        match part_after(self.part, self.turn) {
            Some(part) => self.part = part,
            None => {
                self.turn += 1;
                self.part = Part::Frame;
            }
        }
        Some(Cue {
            line: 0,
            times: 1,
            order,
        })
    }
}

/// The order of a part. A write takes three words: for its row, its column and its glyph.
fn order_of(part: Part, dims: Dims, words: &mut Pcg32) -> Order
    ensures order { result ≡ order_of part dims words.old }
    ensures words { words.new ≡ words_after part words.old }
{
    match part {
        Part::Frame => Order::Do(Command::Frame),
        Part::Write => Order::Do(Command::Write {
            y: words.next_word() % u32::from(dims.h),
            x: words.next_word() % u32::from(dims.w),
            glyph: glyph_of(words.next_word()),
        }),
        Part::Undo => Order::Do(Command::Undo),
        Part::Rewind => Order::RewindHalf,
    }
}

/// What follows a part in the same turn.
fn part_after(part: Part, turn: u32) -> Option<Part>
    ensures { result ≡ part_after part turn }
{
    match part {
        Part::Frame if is_last(turn, WRITE_TURNS) => Some(Part::Write),
        Part::Write if is_last(turn, UNDO_TURNS) => Some(Part::Undo),
        Part::Undo if is_last(turn, REWIND_TURNS) => Some(Part::Rewind),
        _ => None,
    }
}

/// Whether a turn is the last of so many. Turns are counted from 0.
fn is_last(turn: u32, of: u32) -> bool
    requires { 0 < of }
    ensures { result ≡ (turn % of == of - 1) }
{
    turn % of == of - 1
}
