ghost use Rattle.orca_op.specs.declared.kind.Kind.TheVariants.{Midi as midi_kind};
ghost use Rattle.ops_io.specs.EventLaws.{lawful-midi};

use crate::note_ports::NotePorts;
use crate::ports;
use crate::sending::send;
use orca_base::{Glyph, Now, Place, Steps};
use orca_op::{Bench, Operator};
use std::sync::ledger::Ledger;

/// `:`: sends a MIDI note.
///
/// The ports at its right are `channel`, `octave`, `note`, `velocity` and `length`. They are inputs, bang or
/// not. Beside a bang it sends the note: on channel 15 at most and in octave 9 at most, with the loudest
/// velocity where none is given, and for 1 frame at least. It sends none without an octave or a letter, and
/// none with a velocity of value 0.
///
/// ```text
/// D4......    D4......
/// .:03Cf2.    *:03Cf2.    channel 0, key 36, velocity 119, for 2 frames
/// ```
pub struct Midi;

impl Operator for Midi {
    ghost kind = { midi_kind };

    ghost laws = { lawful-midi };

    #[tactic(auto, using(orca_op::proofs::LawFacts::added_up), unfolding(orca_op::specs::EventRules::note_of))]
    fn act<B: Bench, L: Ledger>(
        &self,
        bench: &mut B,
        at: Place,
        _glyph: Glyph,
        _now: Now,
        steps: &mut Steps<L>,
    ) {
        if !bench.beside_bang(at, steps) {
            ports::inputs(bench, at, 1, 5, steps);
            return;
        }
        let note = NotePorts::read(bench, at, steps);
        ports::inputs(bench, at, 1, 5, steps);
        send(bench, at, note.event(), steps);
    }
}
