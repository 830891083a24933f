ghost use Rattle.std.specs.Prelude.{◌≡◌, ◌+◌, ◌≤◌, length};
ghost use Rattle.orca_base.specs.declared.limits.TheConstants.{MAX_TEXT};
ghost use Rattle.orca_op.specs.declared.kind.Kind.TheVariants.{UdpText as udp_text_kind};
ghost use Rattle.orca_op.specs.EventRules.{text_at, text_event};
ghost use Rattle.ops_io.specs.EventLaws.{lawful-udp_text};

use crate::ports;
use crate::sending::send;
use orca_base::limits::MAX_TEXT;
use orca_base::{Event, Glyph, Now, Place, Short, Steps};
use orca_op::{Bench, Operator};
use std::sync::ledger::Ledger;

/// `;`: sends a datagram of plain text.
///
/// The text is what stands at its right before the first empty place, 16 glyphs at most. It is locked, bang or
/// not. Beside a bang it is sent, where it has a glyph at all.
///
/// ```text
/// D1....      D1....
/// .;hi..      *;hi..      the bytes of `hi`
/// ```
pub struct UdpText;

impl Operator for UdpText {
    ghost kind = { udp_text_kind };

    ghost laws = { lawful-udp_text };

    #[tactic(auto, using(orca_op::proofs::LawFacts::added_up))]
    fn act<B: Bench, L: Ledger>(
        &self,
        bench: &mut B,
        at: Place,
        _glyph: Glyph,
        _now: Now,
        steps: &mut Steps<L>,
    ) {
        let text = read_text(bench, at, steps);
        let length = text.as_slice().len() as u8;
        let bang = bench.beside_bang(at, steps);
        ports::lock(bench, at, length, steps);
        if bang {
            send(bench, at, text_event(text), steps);
        }
    }
}

/// The glyphs before the first empty port, and no more than fit into a text.
fn read_text<B: Bench, L: Ledger>(bench: &B, at: Place, steps: &mut Steps<L>) -> Short
    ensures text { result ≡ text_at (B.slate bench.now).scan at }
    ensures short { length result ≤ MAX_TEXT }
    ensures steps { steps.new ≤ steps.old + MAX_TEXT }
    ensures later { steps.old ≤ steps.new }
{
    let mut text = Short::empty();
    for i in 0..MAX_TEXT {
        let glyph = bench.peek(at.right(u16::from(i) + 1), steps);
        if glyph == Glyph::EMPTY {
            return text;
        }
        text.push(glyph.byte());
    }
    text
}

/// The text as an event; none where it is empty.
fn text_event(text: Short) -> Option<Event>
    ensures { result ≡ text_event text }
{
    if text.as_slice().is_empty() {
        None
    } else {
        Some(Event::Udp { text })
    }
}
