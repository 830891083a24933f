ghost use Rattle.std.specs.Prelude.{◌≡◌, ◌+◌, ◌≤◌};
ghost use Rattle.orca_op.specs.declared.kind.Kind.TheVariants.{Comment as comment_kind};
ghost use Rattle.orca_op.specs.MotionRules.{comment_length};
ghost use Rattle.orca_base.specs.Grids.{IsInside};
ghost use Rattle.ops_motion.specs.MotionLaws.{lawful-comment};

use orca_base::limits::COMMENT_REACH;
use orca_base::{Glyph, Now, Place, Steps};
use orca_op::{Bench, Operator, Span};
use std::sync::ledger::Ledger;

/// `#`: halts a line.
///
/// What stands at its right is not evaluated, up to and with the next `#`.
///
/// ```text
/// #E#E..   #E#.E.
/// #E....   #E....
/// ```
pub struct Comment;

impl Operator for Comment {
    ghost kind = { comment_kind };

    ghost laws = { lawful-comment };

    fn act<B: Bench, L: Ledger>(
        &self,
        bench: &mut B,
        at: Place,
        _glyph: Glyph,
        _now: Now,
        steps: &mut Steps<L>,
    ) {
        let length = comment_length(bench, at, steps);
        let line = Span {
            y: 0,
            x: 1,
            length: length as u8,
        };
        bench.lock_span(at, line, steps);
    }
}

/// How many places at its right a comment locks: up to and with the next `#`, and no more than its reach.
#[tactic(auto, unfolding(orca_op::specs::MotionRules::comment_length))]
fn comment_length<B: Bench, L: Ledger>(bench: &B, at: Place, steps: &mut Steps<L>) -> u16
    requires { IsInside (B.slate bench.now).scan.dims at }
    ensures length { result ≡ comment_length (B.slate bench.now).scan at }
    ensures range { result ≤ COMMENT_REACH }
    ensures steps { steps.new ≤ steps.old + COMMENT_REACH }
    ensures later { steps.old ≤ steps.new }
{
    match bench.find_right(at, b'#', COMMENT_REACH as u8, steps) {
        Some(column) => column,
        None => COMMENT_REACH,
    }
}
