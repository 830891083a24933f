ghost use Rattle.orca_op.specs.declared.kind.Kind.TheVariants.{Random as random_kind};
ghost use Rattle.std.specs.Prelude.{◌≡◌, ◌<◌, ◌≤◌};
ghost use Rattle.orca_base.specs.Grids.{IsInside};
ghost use Rattle.orca_op.specs.ValueRules.{random_between, word_in};
ghost use Rattle.ops_math.specs.ValueLaws.{lawful-random};

use crate::ports;
use orca_base::limits::BASE;
use orca_base::{Dims, Glyph, Now, Place, Steps};
use orca_op::{Bench, Operator, value_or};
use rand_core::utils::NextWord;
use rand_pcg::Pcg32;
use std::sync::ledger::Ledger;

/// `R`: outputs a random value between its inputs.
///
/// The ports are `min` at its left and `max` at its right (36 where its value is 0). The value lies from the
/// smaller of the two to just below the larger, and is that of both where they are equal. It is the same for
/// the same seed, frame, place and width of the grid. In frame 0 with the seed 1:
///
/// ```text
/// 1R6    1R6
/// ...    .3.
/// ```
pub struct Random;

impl Operator for Random {
    ghost kind = { random_kind };

    ghost laws = { lawful-random };

    fn act<B: Bench, L: Ledger>(
        &self,
        bench: &mut B,
        at: Place,
        _glyph: Glyph,
        now: Now,
        steps: &mut Steps<L>,
    ) {
        let min = bench.peek(at.left(1), steps);
        let max = bench.peek(at.right(1), steps);
        let word = word_at(bench.dims(), at, now);
        let value = random_between(min.value(), value_or(max, BASE), word);
        ports::mark(bench, at, steps);
        bench.write(at.below(), Glyph::cased(value, max), steps);
    }
}

/// The random word of a place in a frame: the first of the generator of that seed, frame and place.
#[tactic(auto, unfolding(orca_op::specs::ValueRules::word_in))]
fn word_at(dims: Dims, at: Place, now: Now) -> u32
    requires { IsInside dims at }
    ensures { result ≡ word_in dims at now }
{
    let state = (u64::from(now.seed) << 32) | u64::from(now.tick);
    let stream = u64::from(at.y) * u64::from(dims.w) + u64::from(at.x);
    Pcg32::new(state, stream).next_word()
}

/// A value from the smaller bound to below the larger; the bound where they are equal.
#[tactic(auto, unfolding(orca_op::specs::ValueRules::random_between))]
fn random_between(a: u8, b: u8, word: u32) -> u8
    requires { (a < BASE) × (b ≤ BASE) }
    ensures value { result ≡ random_between a b word }
    ensures range { result < BASE }
{
    if a == b {
        return a;
    }
    let span = a.abs_diff(b);
    a.min(b) + (word % u32::from(span)) as u8
}
