ghost use Rattle.std.specs.Prelude.{◌+◌, ◌≤◌};
ghost use Rattle.orca_op.specs.Slate.{residue};
ghost use Rattle.orca_op.specs.Scan.{places};
ghost use Rattle.orca_op.specs.State.{sheet_of};
ghost use Rattle.orca_frame.specs.Frames.{IsFramed, most_plain_steps};

use crate::covering::covering_law;
use crate::laws::table_laws;
use crate::visit::visit;
use orca_base::{Now, Steps};
use orca_op::Bench;
use std::sync::ledger::Ledger;

/// Works a frame by visiting all places in reading order: the slow form, which no run uses, and tests and the
/// stored frames do. `now` is the tick of the frame and the seed of its random numbers.
///
/// Until the next `begin` the bench then holds what the frame left: the glyphs of the grid, the marks, the
/// variables, and the events in the order in which they were emitted, each of which can be played. Each
/// place that a deed wrote is listed, once.
pub fn frame_plain<B: Bench, L: Ledger>(bench: &mut B, now: Now, steps: &mut Steps<L>)
    ensures framed { IsFramed (B.slate bench.old) (B.slate bench.new) now }
    ensures most { steps.new ≤ steps.old + most_plain_steps (B.slate bench.old) now }
    ensures least { steps.old + 1 + residue (B.slate bench.old)
        + places (sheet_of (B.slate bench.old).scan) ≤ steps.new }
{
    // Neither call does anything when the program runs. The first gives the proof the laws of the operator
    // table: how many deeds and events a visit has at most, and that its events can be played. The second
    // is the covering law of the same table, so that this form is worked only where that is proved.
    table_laws();
    covering_law();
    let dims = bench.dims();
    let places = dims.cells();
    bench.begin(steps);
    for i in 0..places {
        visit(bench, dims.place(i), now, steps);
    }
}
