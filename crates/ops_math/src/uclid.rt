ghost use Rattle.orca_op.specs.declared.kind.Kind.TheVariants.{Uclid as uclid_kind};
ghost use Rattle.ops_math.specs.ValueLaws.{lawful-uclid};

use crate::ports;
use orca_base::{Glyph, Now, Place, Steps};
use orca_op::{Bench, Operator, rate_of, value_or};
use std::sync::ledger::Ledger;

/// `U`: bangs on a Euclidean rhythm.
///
/// The ports are `step` at its left (1 where it is `.` or `*`) and `max` at its right (8 where its value is 0).
/// It spreads `step` bangs evenly over `max` frames; with a step of `0` it never bangs. In frame 0:
///
/// ```text
/// 3U8.0U8    3U8.0U8
/// .......    .*.....
/// ```
pub struct Uclid;

impl Operator for Uclid {
    ghost kind = { uclid_kind };

    ghost laws = { lawful-uclid };

    fn act<B: Bench, L: Ledger>(
        &self,
        bench: &mut B,
        at: Place,
        _glyph: Glyph,
        now: Now,
        steps: &mut Steps<L>,
    ) {
        let step = bench.peek(at.left(1), steps);
        let max = bench.peek(at.right(1), steps);
        let n = u64::from(rate_of(step));
        let m = u64::from(value_or(max, 8));
        let bucket = n * (u64::from(now.tick) + m - 1) % m + n;
        let output = if bucket >= m {
            Glyph::BANG
        } else {
            Glyph::EMPTY
        };
        ports::mark(bench, at, steps);
        bench.write(at.below(), output, steps);
    }
}
