ghost use Rattle.std.specs.Prelude.{◌≡◌, ◌+◌, ◌<◌, ℕ, pos, slice_index};
ghost use Rattle.orca_base.specs.Grids.{off};
ghost use Rattle.orca_op.specs.State.{peek};

use orca_base::limits::BASE;
use orca_base::{Glyph, Place, Steps};
use orca_op::{Bench, Span};
use std::sync::ledger::Ledger;

/// How many glyphs fit: more than any value of a glyph.
pub(crate) const ROOM: usize = BASE as usize;

/// The glyphs of a span.
pub(crate) fn read<B: Bench, L: Ledger>(
    bench: &B,
    at: Place,
    span: Span,
    steps: &mut Steps<L>,
) -> [Glyph; ROOM]
    requires { span.length < BASE }
    ensures glyphs { (i : ℕ) → i < span.length → slice_index result i
        ≡ peek (B.slate bench.now).scan (off at (pos span.y) (pos (i + span.x))) }
    ensures steps { steps.new ≡ steps.old + span.length }
{
    let mut glyphs = [Glyph::EMPTY; ROOM];
    for i in 0..span.length {
        let spot = at.off(i32::from(span.y), i32::from(i) + i32::from(span.x));
        glyphs[usize::from(i)] = bench.peek(spot, steps);
    }
    glyphs
}
