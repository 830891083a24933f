ghost use Rattle.orca_op.specs.declared.kind.Kind.TheVariants.{Mono as mono_kind};
ghost use Rattle.ops_io.specs.EventLaws.{lawful-mono};

use crate::note_ports::NotePorts;
use crate::ports;
use crate::sending::send;
use orca_base::{Glyph, Now, Place, Steps};
use orca_op::{Bench, Operator};
use std::sync::ledger::Ledger;

/// `%`: sends a monophonic MIDI note.
///
/// Its ports are those of a MIDI note, and so is the note that it sends beside a bang, which first ends every
/// note of its channel.
///
/// ```text
/// D1....      D1....
/// .%03E.      *%03E.      channel 0, key 40, velocity 127, for 1 frame, alone on its channel
/// ```
pub struct Mono;

impl Operator for Mono {
    ghost kind = { mono_kind };

    ghost laws = { lawful-mono };

    #[tactic(auto, using(orca_op::proofs::LawFacts::added_up), unfolding(orca_op::specs::EventRules::note_of))]
    fn act<B: Bench, L: Ledger>(
        &self,
        bench: &mut B,
        at: Place,
        _glyph: Glyph,
        _now: Now,
        steps: &mut Steps<L>,
    ) {
        if !bench.beside_bang(at, steps) {
            ports::inputs(bench, at, 1, 5, steps);
            return;
        }
        let note = NotePorts {
            mono: true,
            ..NotePorts::read(bench, at, steps)
        };
        ports::inputs(bench, at, 1, 5, steps);
        send(bench, at, note.event(), steps);
    }
}
