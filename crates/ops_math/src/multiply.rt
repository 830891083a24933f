ghost use Rattle.orca_op.specs.declared.kind.Kind.TheVariants.{Multiply as multiply_kind};
ghost use Rattle.ops_math.specs.ValueLaws.{lawful-multiply};

use crate::ports;
use orca_base::limits::BASE;
use orca_base::{Glyph, Now, Place, Steps};
use orca_op::{Bench, Operator};
use std::sync::ledger::Ledger;

/// `M`: outputs the product of its inputs.
///
/// The ports are `a` at its left and `b` at its right. The product is modulo 36:
///
/// ```text
/// 3M4.5MB    3M4.5MB
/// .......    .c...J.
/// ```
pub struct Multiply;

impl Operator for Multiply {
    ghost kind = { multiply_kind };

    ghost laws = { lawful-multiply };

    fn act<B: Bench, L: Ledger>(
        &self,
        bench: &mut B,
        at: Place,
        _glyph: Glyph,
        _now: Now,
        steps: &mut Steps<L>,
    ) {
        let a = bench.peek(at.left(1), steps);
        let b = bench.peek(at.right(1), steps);
        let product = u16::from(a.value()) * u16::from(b.value()) % u16::from(BASE);
        ports::mark(bench, at, steps);
        bench.write(at.below(), Glyph::cased(product as u8, b), steps);
    }
}
