ghost use Rattle.std.specs.Prelude.{◌≡◌, ◌+◌, ◌<◌, length, map};
ghost use Rattle.orca_base.specs.declared.limits.TheConstants.{BASE};
ghost use Rattle.orca_base.specs.Glyphs.{value};
ghost use Rattle.orca_op.specs.declared.kind.Kind.TheVariants.{OscMessage as osc_message_kind};
ghost use Rattle.orca_op.specs.EventRules.{osc_with, ports};
ghost use Rattle.ops_io.specs.EventLaws.{lawful-osc_message};

use crate::ports;
use crate::sending::send;
use orca_base::{Event, Glyph, Now, Place, Short, Steps};
use orca_op::{Bench, Operator};
use std::sync::ledger::Ledger;

/// `=`: sends an OSC message.
///
/// The ports at its right are `path`, `length`, and `length` values after them. They are inputs, bang or not.
/// Beside a bang it sends the values to the address of the path, which is a letter or a digit; any other path
/// sends none.
///
/// ```text
/// D1......    D1......
/// .=a212..    *=a212..    the address `/a`, and the integers 1 and 2
/// ```
pub struct OscMessage;

impl Operator for OscMessage {
    ghost kind = { osc_message_kind };

    ghost laws = { lawful-osc_message };

    #[tactic(auto, using(orca_op::proofs::LawFacts::added_up), unfolding(orca_op::specs::EventRules::osc_of, orca_op::specs::Deeds::after))]
    fn act<B: Bench, L: Ledger>(
        &self,
        bench: &mut B,
        at: Place,
        _glyph: Glyph,
        _now: Now,
        steps: &mut Steps<L>,
    ) {
        let path = bench.peek(at.right(1), steps);
        let length = bench.peek(at.right(2), steps).value();
        let bang = bench.beside_bang(at, steps);
        let values = if bang {
            read_values(bench, at, length, steps)
        } else {
            Short::empty()
        };
        bench.param(at.right(1), steps);
        bench.param(at.right(2), steps);
        ports::inputs(bench, at, 3, length, steps);
        if bang {
            send(bench, at, osc_event(path, values), steps);
        }
    }
}

/// The values of `count` ports, the first being port 3.
fn read_values<B: Bench, L: Ledger>(bench: &B, at: Place, count: u8, steps: &mut Steps<L>) -> Short
    requires { count < BASE }
    ensures values { result ≡ map value (ports (B.slate bench.now).scan at 3 count) }
    ensures steps { steps.new ≡ steps.old + count }
{
    let mut values = Short::empty();
    for i in 0..count {
        let glyph = bench.peek(at.right(u16::from(i) + 3), steps);
        values.push(glyph.value());
    }
    values
}

/// The OSC message; none where the path is no letter and no digit.
fn osc_event(path: Glyph, values: Short) -> Option<Event>
    ensures { result ≡ osc_with path values }
{
    if matches!(path.byte(), b'0'..=b'9' | b'A'..=b'Z' | b'a'..=b'z') {
        Some(Event::Osc { path, values })
    } else {
        None
    }
}
