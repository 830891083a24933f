ghost use Rattle.std.specs.Prelude.{◌≡◌};
ghost use Rattle.orca_op.specs.declared.kind.Kind.TheVariants.{ControlChange as control_change_kind};
ghost use Rattle.orca_op.specs.EventRules.{control_with};
ghost use Rattle.ops_io.specs.EventLaws.{lawful-control_change};

use crate::ports;
use crate::scaled::scaled;
use crate::sending::send;
use orca_base::limits::MAX_CHANNEL;
use orca_base::{Event, Glyph, Now, Place, Steps};
use orca_op::{Bench, Operator};
use std::sync::ledger::Ledger;

/// `!`: sends a MIDI control change.
///
/// The ports at its right are `channel`, `control` and `value`. They are inputs, bang or not. Beside a bang it
/// sends the value, spread from 0 to 127. It sends none without a channel or a control, and none on a channel
/// above 15.
///
/// ```text
/// D1...       D1...
/// .!07z       *!07z       channel 0, control 7, value 127
/// ```
pub struct ControlChange;

impl Operator for ControlChange {
    ghost kind = { control_change_kind };

    ghost laws = { lawful-control_change };

    #[tactic(auto, using(orca_op::proofs::LawFacts::added_up), unfolding(orca_op::specs::EventRules::control_of))]
    fn act<B: Bench, L: Ledger>(
        &self,
        bench: &mut B,
        at: Place,
        _glyph: Glyph,
        _now: Now,
        steps: &mut Steps<L>,
    ) {
        if !bench.beside_bang(at, steps) {
            ports::inputs(bench, at, 1, 3, steps);
            return;
        }
        let channel = bench.peek(at.right(1), steps);
        let control = bench.peek(at.right(2), steps);
        let value = bench.peek(at.right(3), steps);
        ports::inputs(bench, at, 1, 3, steps);
        send(bench, at, control_event(channel, control, value), steps);
    }
}

/// The control change; none without a channel or a control, and none on a channel above the last.
fn control_event(channel: Glyph, control: Glyph, value: Glyph) -> Option<Event>
    ensures { result ≡ control_with channel control value }
{
    if channel == Glyph::EMPTY || control == Glyph::EMPTY || channel.value() > MAX_CHANNEL {
        return None;
    }
    Some(Event::Control {
        channel: channel.value(),
        control: control.value(),
        value: scaled(value),
    })
}
