ghost use Rattle.std.specs.Prelude.{◌≡◌};
ghost use Rattle.orca_op.specs.declared.kind.Kind.TheVariants.{PitchBend as pitch_bend_kind};
ghost use Rattle.orca_op.specs.EventRules.{bend_with};
ghost use Rattle.ops_io.specs.EventLaws.{lawful-pitch_bend};

use crate::ports;
use crate::scaled::scaled;
use crate::sending::send;
use orca_base::limits::MAX_CHANNEL;
use orca_base::{Event, Glyph, Now, Place, Steps};
use orca_op::{Bench, Operator};
use std::sync::ledger::Ledger;

/// `?`: sends a MIDI pitch bend.
///
/// The ports at its right are `channel`, `msb` and `lsb`, the most and the least significant bits. They are
/// inputs, bang or not. Beside a bang it sends the bend, each half spread from 0 to 127. It sends none without
/// a channel, and none on a channel above 15.
///
/// ```text
/// D1...       D1...
/// .?0z0       *?0z0       channel 0, low bits 0, high bits 127
/// ```
pub struct PitchBend;

impl Operator for PitchBend {
    ghost kind = { pitch_bend_kind };

    ghost laws = { lawful-pitch_bend };

    #[tactic(auto, using(orca_op::proofs::LawFacts::added_up), unfolding(orca_op::specs::EventRules::bend_of))]
    fn act<B: Bench, L: Ledger>(
        &self,
        bench: &mut B,
        at: Place,
        _glyph: Glyph,
        _now: Now,
        steps: &mut Steps<L>,
    ) {
        if !bench.beside_bang(at, steps) {
            ports::inputs(bench, at, 1, 3, steps);
            return;
        }
        let channel = bench.peek(at.right(1), steps);
        let msb = bench.peek(at.right(2), steps);
        let lsb = bench.peek(at.right(3), steps);
        ports::inputs(bench, at, 1, 3, steps);
        send(bench, at, bend_event(channel, msb, lsb), steps);
    }
}

/// The pitch bend; none without a channel, and none on a channel above the last.
fn bend_event(channel: Glyph, msb: Glyph, lsb: Glyph) -> Option<Event>
    ensures { result ≡ bend_with channel msb lsb }
{
    if channel == Glyph::EMPTY || channel.value() > MAX_CHANNEL {
        return None;
    }
    Some(Event::Bend {
        channel: channel.value(),
        lsb: scaled(lsb),
        msb: scaled(msb),
    })
}
