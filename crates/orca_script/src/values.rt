//! What the words of a line give.

ghost use Rattle.std.specs.Prelude.{◌≡◌, ◌<◌, [], ◌∷◌, ◌++◌, length, slice_index};
ghost use Rattle.orca_script.specs.LineValues.{none, adding_number, with_glyph, rect_of, command_named};

use crate::forms::Verb;
use crate::limits::MAX_LINE_VALUES;
use orca_base::{Command, Glyph, Rect};
use std::marker::Model;

/// The numbers of a line, in order, and its glyph, where it has one. A contract sees them so.
#[derive(Drop)]
pub(crate) struct Values {
    numbers: [u32; MAX_LINE_VALUES],
    count: usize,
    glyph: Glyph,
}

impl Model for Values {
    ghost use Rattle.std.specs.Prelude.{take, ◌≤◌};
    ghost use Rattle.orca_script.specs.LineValues.{LineValues};
    ghost use Rattle.orca_script.specs.declared.limits.TheConstants.{MAX_LINE_VALUES};

    ghost Value = { LineValues };

    ghost view = { λ v. record { numbers = take v.count v.numbers; glyph = v.glyph } };

    ghost invariant = { λ v. v.count ≤ MAX_LINE_VALUES };
}

impl Values {
    /// None yet.
    pub(crate) fn none() -> Values
        ensures { result ≡ none }
    {
        Values {
            numbers: [0; MAX_LINE_VALUES],
            count: 0,
            glyph: Glyph::EMPTY,
        }
    }

    /// Adds a number after the others, where one more fits.
    pub(crate) fn add_number(&mut self, number: u32)
        requires { length self.old.numbers < MAX_LINE_VALUES }
        ensures { self.new ≡ adding_number self.old number }
    {
        self.numbers[self.count] = number;
        self.count += 1;
    }

    /// Sets the glyph.
    pub(crate) fn set_glyph(&mut self, glyph: Glyph)
        ensures { self.new ≡ with_glyph self.old glyph }
    {
        self.glyph = glyph;
    }

    /// The number at a place, and 0 after the last.
    pub(crate) fn number(&self, place: usize) -> u32
        ensures { result ≡ slice_index self.now.numbers place }
    {
        if place < self.count {
            self.numbers[place]
        } else {
            0
        }
    }
}

impl Values {
    /// The block of the first four numbers.
    fn rect(&self) -> Rect
        ensures { result ≡ rect_of self.now }
    {
        Rect {
            y: self.number(0),
            x: self.number(1),
            h: self.number(2),
            w: self.number(3),
        }
    }

    /// The command of this name.
    #[tactic(auto, unfolding(crate::specs::LineValues::command_named))]
    pub(crate) fn command(&self, verb: Verb) -> Command
        ensures { result ≡ command_named verb self.now }
    {
        match verb {
            Verb::Frame => Command::Frame,
            Verb::Write => Command::Write {
                y: self.number(0),
                x: self.number(1),
                glyph: self.glyph,
            },
            Verb::Fill => Command::Fill {
                rect: self.rect(),
                glyph: self.glyph,
            },
            Verb::Erase => Command::Erase { rect: self.rect() },
            Verb::Copy => Command::Copy { rect: self.rect() },
            Verb::Cut => Command::Cut { rect: self.rect() },
            Verb::Clip => Command::Clip {
                y: self.number(0),
                x: self.number(1),
                glyph: self.glyph,
            },
            Verb::Paste => Command::Paste {
                y: self.number(0),
                x: self.number(1),
            },
            Verb::Move => Command::Move {
                rect: self.rect(),
                to_y: self.number(4),
                to_x: self.number(5),
            },
            Verb::Resize => Command::Resize {
                h: self.number(0),
                w: self.number(1),
            },
            Verb::Reset => Command::Reset,
            Verb::Undo => Command::Undo,
            Verb::Rewind => Command::Rewind {
                moment: self.number(0),
            },
            Verb::Redo => Command::Redo,
            Verb::Retract => Command::Retract {
                moment: self.number(0),
            },
            Verb::Hush => Command::Hush,
        }
    }
}
