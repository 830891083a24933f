ghost use Rattle.orca_op.specs.declared.kind.Kind.TheVariants.{IfEqual as if_equal_kind};
ghost use Rattle.ops_math.specs.ValueLaws.{lawful-if_equal};

use crate::ports;
use orca_base::{Glyph, Now, Place, Steps};
use orca_op::{Bench, Operator};
use std::sync::ledger::Ledger;

/// `F`: bangs if its inputs are equal.
///
/// The ports are `a` at its left and `b` at its right. They are equal where they are the same glyph: the two
/// cases of a letter are not, and two empty places are:
///
/// ```text
/// 3F3.3F4.bFB..F.    3F3.3F4.bFB..F.
/// ...............    .*...........*.
/// ```
pub struct IfEqual;

impl Operator for IfEqual {
    ghost kind = { if_equal_kind };

    ghost laws = { lawful-if_equal };

    fn act<B: Bench, L: Ledger>(
        &self,
        bench: &mut B,
        at: Place,
        _glyph: Glyph,
        _now: Now,
        steps: &mut Steps<L>,
    ) {
        let a = bench.peek(at.left(1), steps);
        let b = bench.peek(at.right(1), steps);
        let output = if a == b { Glyph::BANG } else { Glyph::EMPTY };
        ports::mark(bench, at, steps);
        bench.write(at.below(), output, steps);
    }
}
