ghost use Rattle.std.specs.Prelude.{◌≡◌, ◌+◌, false};
ghost use Rattle.orca_base.specs.Glyphs.{note_number};
ghost use Rattle.orca_op.specs.EventRules.{port, note_with, midi_key, velocity_of};

use orca_base::limits::{DEFAULT_VELOCITY, MAX_CHANNEL, MAX_DATA, MAX_OCTAVE};
use orca_base::{Event, Glyph, Place, Steps};
use orca_op::{Bench, value_or};
use std::sync::ledger::Ledger;

/// The glyphs at the ports of a note.
#[derive(Clone, Copy)]
pub(crate) struct NotePorts {
    pub channel: Glyph,
    pub octave: Glyph,
    pub note: Glyph,
    pub velocity: Glyph,
    pub length: Glyph,
    /// Whether the note first ends every note of its channel.
    pub mono: bool,
}

impl NotePorts {
    /// The glyphs at the right of a place, of a note that lets the others of its channel sound.
    pub(crate) fn read<B: Bench, L: Ledger>(bench: &B, at: Place, steps: &mut Steps<L>) -> NotePorts
        ensures channel { result.channel ≡ port (B.slate bench.now).scan at 1 }
        ensures octave { result.octave ≡ port (B.slate bench.now).scan at 2 }
        ensures note { result.note ≡ port (B.slate bench.now).scan at 3 }
        ensures velocity { result.velocity ≡ port (B.slate bench.now).scan at 4 }
        ensures length { result.length ≡ port (B.slate bench.now).scan at 5 }
        ensures mono { result.mono ≡ false }
        ensures steps { steps.new ≡ steps.old + 5 }
    {
        NotePorts {
            channel: bench.peek(at.right(1), steps),
            octave: bench.peek(at.right(2), steps),
            note: bench.peek(at.right(3), steps),
            velocity: bench.peek(at.right(4), steps),
            length: bench.peek(at.right(5), steps),
            mono: false,
        }
    }

    /// The note; none without an octave, where the note is no letter, and where the velocity has value 0
    /// without being missing.
    pub(crate) fn event(&self) -> Option<Event>
        ensures { result ≡ note_with self.now.mono self.now.channel self.now.octave
            self.now.velocity self.now.length (note_number self.now.note) }
    {
        let number = self.note.note_number()?;
        let silent = self.velocity != Glyph::EMPTY && self.velocity.value() == 0;
        if self.octave == Glyph::EMPTY || silent {
            return None;
        }
        Some(Event::Note {
            channel: self.channel.value().min(MAX_CHANNEL),
            key: key_of(self.octave, number),
            velocity: velocity_of(self.velocity),
            length: value_or(self.length, 1),
            mono: self.mono,
        })
    }
}

/// The MIDI key of a note number in an octave, 127 at most.
fn key_of(octave: Glyph, number: u8) -> u8
    ensures { result ≡ midi_key octave number }
{
    let key = 12 * u16::from(octave.value().min(MAX_OCTAVE)) + u16::from(number);
    key.min(u16::from(MAX_DATA)) as u8
}

/// The velocity of a glyph: the default where it is missing, and otherwise 8 times its value, less 1,
/// 127 at most.
fn velocity_of(glyph: Glyph) -> u8
    ensures { result ≡ velocity_of glyph }
{
    if glyph == Glyph::EMPTY {
        return DEFAULT_VELOCITY;
    }
    let velocity = (8 * u16::from(glyph.value())).saturating_sub(1);
    velocity.min(u16::from(MAX_DATA)) as u8
}
