ghost use Rattle.std.specs.Prelude.{◌≡◌, ◌+◌, ◌*◌, ◌<◌, ◌≤◌, ◌||◌, false, if◌then◌else◌, IfSome, IsTrue, unwrap_or};
ghost use Rattle.std.specs.Option.{is_some};
ghost use Rattle.orca_base.specs.declared.limits.TheConstants.{MAX_VISIT_STEPS};
ghost use Rattle.orca_base.specs.Grids.{IsSheet};
ghost use Rattle.orca_op.specs.Live.{is_live};
ghost use Rattle.orca_op.specs.Rules.{rule};
ghost use Rattle.orca_op.specs.Scan.{busy_of};
ghost use Rattle.orca_op.specs.State.{marks_at};
ghost use Rattle.orca_frame.specs.Covering.{IsCovering};
ghost use Rattle.orca_frame.specs.Frames.{IsFramed, slate_after_places, most_steps};

use crate::laws::table_laws;
use crate::visit::{is_still, visit_awake};
use orca_base::{Now, Place, Steps};
use orca_op::{Cursor, Walk};
use std::sync::ledger::Ledger;

/// Works a frame by going from one operator to the next, as the grid stands at each moment. It leaves what a
/// scan of every place leaves, whatever operators write behind the walk, ahead of it and below it. `now` is
/// the tick of the frame and the seed of its random numbers.
///
/// It counts at least a step for each row and one more. It counts at most these, one for each place that the
/// last frame marked or wrote, and [`MAX_VISIT_STEPS`](orca_base::limits::MAX_VISIT_STEPS) for each operator
/// that the scan reaches.
pub fn frame<B: Walk, L: Ledger>(board: &mut B, now: Now, steps: &mut Steps<L>)
    ensures framed { IsFramed (B.slate board.old) (B.slate board.new) now }
    ensures most { steps.new ≤ steps.old + most_steps (B.slate board.old) now }
    ensures least { steps.old + (B.slate board.old).scan.dims.h + 1 ≤ steps.new }

    // The covering law: whatever it works on stood there when the frame began.
    ensures covering { IsCovering rule }
{
    table_laws();
    let dims = board.dims();
    board.begin(steps);
    for row in 0..dims.h {
        walk_row(board, row, now, steps);
    }
}

/// Visits the operators of a row, each where the walk finds it. The grid of the last `begin` is the one that
/// the frame began with.
fn walk_row<B: Walk, L: Ledger>(board: &mut B, row: u16, now: Now, steps: &mut Steps<L>)
    requires sheet { IsSheet (B.slate board.old).began }
    requires row { row < (B.slate board.old).began.dims.h }
    requires reached { let g = (B.slate board.old).began in
        B.slate board.old ≡ slate_after_places (row * g.dims.w) g now }
    ensures reached { let g = (B.slate board.old).began in
        B.slate board.new ≡ slate_after_places ((row + 1) * g.dims.w) g now }
    ensures most { let g = (B.slate board.old).began in
        steps.new + MAX_VISIT_STEPS * busy_of (row * g.dims.w) g now
        ≤ steps.old + 1 + MAX_VISIT_STEPS * busy_of ((row + 1) * g.dims.w) g now }
    ensures least { steps.old + 1 ≤ steps.new }
{
    table_laws();
    let mut cursor = Cursor::start();
    // The first look stands before the loop, so that a row without operators costs little more.
    let mut found = cursor.first(board, row, steps);
    while let Some(x) = pass_still(&mut cursor, found, board, row, now, steps) {
        visit_awake(board, Place { y: row, x }, now, steps);
        found = cursor.next(board, row, steps);
    }
}

/// From an operator on that the walk of a row has found, the first that is neither locked nor asleep;
/// none where there is no more. A visit of those before it does nothing, so they are passed over, in a
/// loop in which nothing is written: most operators of a crowded row are locked. `now` is that of the
/// visits.
#[inline(always)]
fn pass_still<B: Walk, L: Ledger>(
    cursor: &mut Cursor,
    from: Option<u16>,
    board: &B,
    row: u16,
    now: Now,
    steps: &mut Steps<L>,
) -> Option<u16>
    requires row { row < (B.slate board.now).began.dims.h }
    requires reached { let g = (B.slate board.now).began in
        B.slate board.now ≡ slate_after_places (row * g.dims.w + unwrap_or from g.dims.w) g now }
    requires live { IfSome from (λ x. IsTrue (is_live (B.slate board.now).scan row x)) }
    requires behind { IfSome from (λ x. cursor.old ≡ x + 1) }
    ensures reached { let g = (B.slate board.now).began in
        B.slate board.now ≡ slate_after_places (row * g.dims.w + unwrap_or result g.dims.w) g now }
    ensures live { IfSome result (λ x. IsTrue (is_live (B.slate board.now).scan row x)) }
    ensures behind { IfSome result (λ x. cursor.new ≡ x + 1) }
    ensures awake { IfSome result (λ x.
        let marks = marks_at (B.slate board.now).scan (record { y = row; x = x }) in
        (marks.lock || marks.sleep) ≡ false) }
    ensures later { let g = (B.slate board.now).began in
        unwrap_or from g.dims.w ≤ unwrap_or result g.dims.w }
    // One look more than those at the operators that were passed over, where one was found.
    ensures most { let g = (B.slate board.now).began in
        let start = row * g.dims.w in
        steps.new + MAX_VISIT_STEPS * busy_of (start + unwrap_or from g.dims.w) g now
        ≤ steps.old + (if is_some result then 1 else 0)
        + MAX_VISIT_STEPS * busy_of (start + unwrap_or result g.dims.w) g now }
    ensures least { steps.old ≤ steps.new }
{
    let mut found = from;
    while let Some(x) = found {
        if !is_still(board, Place { y: row, x }, steps) {
            return Some(x);
        }
        found = cursor.next(board, row, steps);
    }
    None
}
