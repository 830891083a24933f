ghost use Rattle.std.specs.Prelude.{◌≡◌, ◌≢◌, ◌==◌, ◌+◌, ◌<◌, ◌≤◌, pos, ◌∷◌, [], IfSome};
ghost use Rattle.orca_base.specs.Glyphs.{empty};
ghost use Rattle.orca_op.specs.First.{first_where};
ghost use Rattle.orca_base.specs.Grids.{IsInside, off, right};
ghost use Rattle.orca_op.specs.State.{peek, marked, state_glyph, marks_at, has_bang, var_at, looks_right};
ghost use Rattle.orca_op.specs.Deeds.{Mark as mark_deed, Write as write_deed, Set as set_deed, Emit as emit_deed, input_at, param_at, output_at, far_at, lock_at, sleep_at, show_at, each_below, span_deeds};
ghost use Rattle.orca_op.specs.Slate.{Slate, IsSlate, HasEventRoom, slate_after, slate_after_all, slate_at_begin, residue};

use crate::Span;
use orca_base::limits::BASE;
use orca_base::{Dims, Event, Glyph, Mark, Marks, Place, Spot, Steps};
use std::sync::ledger::Ledger;

/// Where a frame is worked: the grid with its marks, variables and events. Each call but `dims`
/// counts one step, and `begin` one more for each marked place and for each listed one. A call that
/// stands for several counts theirs. No call takes memory.
///
/// The calls that stand for others have bodies, and a bench that can do them faster has its own.
pub trait Bench {
    /// The state of the scan, the grid at the last `begin`, and the places that were written since.
    ghost slate: { Self → Slate };

    /// The size.
    fn dims(&self) -> Dims
        ensures size { result ≡ (slate self.now).scan.dims }
        ensures slate { IsSlate (slate self.now) };

    /// The glyph of a spot, `.` outside the grid.
    fn peek<L: Ledger>(&self, at: Spot, steps: &mut Steps<L>) -> Glyph
        ensures glyph { result ≡ peek (slate self.now).scan at }
        ensures steps { steps.new ≡ steps.old + 1 };

    /// Writes the glyph. Outside the grid nothing changes.
    fn write<L: Ledger>(&mut self, at: Spot, glyph: Glyph, steps: &mut Steps<L>)
        ensures deed { slate self.new ≡ slate_after (slate self.old) (write_deed at glyph) }
        ensures steps { steps.new ≡ steps.old + 1 };

    /// Adds the marks. Outside the grid nothing changes.
    fn mark<L: Ledger>(&mut self, at: Spot, marks: Marks, steps: &mut Steps<L>)
        ensures deed { slate self.new ≡ slate_after (slate self.old) (mark_deed at marks) }
        ensures steps { steps.new ≡ steps.old + 1 };

    /// The marks of a spot, none outside the grid.
    fn marked<L: Ledger>(&self, at: Spot, steps: &mut Steps<L>) -> Marks
        ensures marks { result ≡ marked (slate self.now).scan at }
        ensures steps { steps.new ≡ steps.old + 1 };

    /// A variable, by its name's value below the base.
    fn var<L: Ledger>(&self, index: u8, steps: &mut Steps<L>) -> Glyph
        requires { index < BASE }
        ensures glyph { result ≡ var_at (slate self.now).scan index }
        ensures steps { steps.new ≡ steps.old + 1 };

    /// Sets a variable, by its name's value below the base.
    fn set_var<L: Ledger>(&mut self, index: u8, glyph: Glyph, steps: &mut Steps<L>)
        requires { index < BASE }
        ensures deed { slate self.new ≡ slate_after (slate self.old) (set_deed index glyph) }
        ensures steps { steps.new ≡ steps.old + 1 };

    /// Adds an event, where fewer are listed than the grid has places.
    fn emit<L: Ledger>(&mut self, event: Event, steps: &mut Steps<L>)
        requires { HasEventRoom (slate self.old) }
        ensures deed { slate self.new ≡ slate_after (slate self.old) (emit_deed event) }
        ensures steps { steps.new ≡ steps.old + 1 };

    /// The glyph of a place of the grid.
    #[tactic(auto, using(crate::proofs::HereFacts::peek_here))]
    fn peek_here<L: Ledger>(&self, at: Place, steps: &mut Steps<L>) -> Glyph
        requires { IsInside (slate self.now).scan.dims at }
        ensures glyph { result ≡ state_glyph (slate self.now).scan at }
        ensures steps { steps.new ≡ steps.old + 1 }
    {
        self.peek(at.here(), steps)
    }

    /// The marks of a place of the grid.
    #[tactic(auto, using(crate::proofs::HereFacts::marked_here))]
    fn marked_here<L: Ledger>(&self, at: Place, steps: &mut Steps<L>) -> Marks
        requires { IsInside (slate self.now).scan.dims at }
        ensures marks { result ≡ marks_at (slate self.now).scan at }
        ensures steps { steps.new ≡ steps.old + 1 }
    {
        self.marked(at.here(), steps)
    }

    /// Whether a bang stands next to a place of the grid: above it, below it, at its left or at its
    /// right. It counts a step for each of the four.
    #[tactic(auto, unfolding(crate::specs::State::has_bang))]
    fn beside_bang<L: Ledger>(&self, at: Place, steps: &mut Steps<L>) -> bool
        requires { IsInside (slate self.now).scan.dims at }
        ensures bang { result ≡ has_bang (slate self.now).scan at }
        ensures steps { steps.new ≡ steps.old + 4 }
    {
        let above = self.peek(at.above(), steps);
        let left = self.peek(at.left(1), steps);
        let right = self.peek(at.right(1), steps);
        let below = self.peek(at.below(), steps);
        above == Glyph::BANG || left == Glyph::BANG || right == Glyph::BANG || below == Glyph::BANG
    }

    /// The first of `reach` columns at the right of a place of the grid that holds the glyph of a
    /// byte; none exactly where none does. Beyond the edge there is only `.`, which is not asked
    /// for. It counts a step for each place that it looks at.
    fn find_right<L: Ledger>(
        &self,
        at: Place,
        byte: u8,
        reach: u8,
        steps: &mut Steps<L>,
    ) -> Option<u16>
        requires inside { IsInside (slate self.now).scan.dims at }
        requires visible { byte ≢ empty }
        ensures first { result
            ≡ first_where (λ i. peek (slate self.now).scan (right at i) == byte) 1 reach }
        ensures range { IfSome result (λ column. (1 ≤ column) × (column ≤ reach)) }
        ensures steps { steps.new ≡ steps.old
            + looks_right (slate self.now).scan.dims at reach result }
    {
        let end = (u16::from(reach) + 1).min(self.dims().w - at.x);
        for column in 1..end {
            if self.peek(at.right(column), steps).byte() == byte {
                return Some(column);
            }
        }
        None
    }

    /// Adds the marks to each place of a span. It counts a step for each.
    #[tactic(auto, unfolding(crate::specs::Deeds::after))]
    fn mark_span<L: Ledger>(&mut self, at: Place, span: Span, marks: Marks, steps: &mut Steps<L>)
        ensures deeds { slate self.new
            ≡ slate_after_all (slate self.old) (span_deeds at span.y span.x span.length marks) }
        ensures room { HasEventRoom (slate self.old) → HasEventRoom (slate self.new) }
        ensures steps { steps.new ≡ steps.old + span.length }
    {
        for i in 0..span.length {
            let spot = at.off(i32::from(span.y), i32::from(i) + i32::from(span.x));
            self.mark(spot, marks, steps);
        }
    }

    /// Begins a frame: nothing is marked or listed, the variables are empty, and there is no event.
    fn begin<L: Ledger>(&mut self, steps: &mut Steps<L>)
        ensures slate { slate self.new ≡ slate_at_begin (slate self.old) }
        ensures steps { steps.new ≡ steps.old + 1 + residue (slate self.old) };

    /// Marks an input: the place is read, and is not evaluated.
    final fn input<L: Ledger>(&mut self, at: Spot, steps: &mut Steps<L>)
        ensures deed { slate self.new ≡ slate_after (slate self.old) (input_at at) }
        ensures steps { steps.new ≡ steps.old + 1 }
    {
        self.mark(at, Marks::none().with(Mark::Input).with(Mark::Lock), steps);
    }

    /// Marks a parameter: the place is read, and is not evaluated.
    final fn param<L: Ledger>(&mut self, at: Spot, steps: &mut Steps<L>)
        ensures deed { slate self.new ≡ slate_after (slate self.old) (param_at at) }
        ensures steps { steps.new ≡ steps.old + 1 }
    {
        self.mark(
            at,
            Marks::none()
                .with(Mark::Input)
                .with(Mark::Param)
                .with(Mark::Lock),
            steps,
        );
    }

    /// Marks an output: the place is written, and is not evaluated.
    final fn output<L: Ledger>(&mut self, at: Spot, steps: &mut Steps<L>)
        ensures deed { slate self.new ≡ slate_after (slate self.old) (output_at at) }
        ensures steps { steps.new ≡ steps.old + 1 }
    {
        self.mark(at, Marks::none().with(Mark::Output).with(Mark::Lock), steps);
    }

    /// Marks a far output: the place is written, and sleeps until the next frame.
    final fn far<L: Ledger>(&mut self, at: Spot, steps: &mut Steps<L>)
        ensures deed { slate self.new ≡ slate_after (slate self.old) (far_at at) }
        ensures steps { steps.new ≡ steps.old + 1 }
    {
        self.mark(
            at,
            Marks::none().with(Mark::Output).with(Mark::Sleep),
            steps,
        );
    }

    /// Locks a place: it is not evaluated.
    final fn lock<L: Ledger>(&mut self, at: Spot, steps: &mut Steps<L>)
        ensures deed { slate self.new ≡ slate_after (slate self.old) (lock_at at) }
        ensures steps { steps.new ≡ steps.old + 1 }
    {
        self.mark(at, Marks::none().with(Mark::Lock), steps);
    }

    /// Marks each place of a span as an input.
    final fn input_span<L: Ledger>(&mut self, at: Place, span: Span, steps: &mut Steps<L>)
        ensures deeds { slate self.new ≡ slate_after_all (slate self.old)
            (each_below span.length (λ i. input_at (off at (pos span.y) (pos (i + span.x))) ∷ [])) }
        ensures room { HasEventRoom (slate self.old) → HasEventRoom (slate self.new) }
        ensures steps { steps.new ≡ steps.old + span.length }
    {
        self.mark_span(
            at,
            span,
            Marks::none().with(Mark::Input).with(Mark::Lock),
            steps,
        );
    }

    /// Marks each place of a span as a far output.
    final fn far_span<L: Ledger>(&mut self, at: Place, span: Span, steps: &mut Steps<L>)
        ensures deeds { slate self.new ≡ slate_after_all (slate self.old)
            (each_below span.length (λ i. far_at (off at (pos span.y) (pos (i + span.x))) ∷ [])) }
        ensures room { HasEventRoom (slate self.old) → HasEventRoom (slate self.new) }
        ensures steps { steps.new ≡ steps.old + span.length }
    {
        self.mark_span(
            at,
            span,
            Marks::none().with(Mark::Sleep).with(Mark::Output),
            steps,
        );
    }

    /// Locks each place of a span.
    final fn lock_span<L: Ledger>(&mut self, at: Place, span: Span, steps: &mut Steps<L>)
        ensures deeds { slate self.new ≡ slate_after_all (slate self.old)
            (each_below span.length (λ i. lock_at (off at (pos span.y) (pos (i + span.x))) ∷ [])) }
        ensures room { HasEventRoom (slate self.old) → HasEventRoom (slate self.new) }
        ensures steps { steps.new ≡ steps.old + span.length }
    {
        self.mark_span(at, span, Marks::none().with(Mark::Lock), steps);
    }

    /// Puts a place to sleep: it is not evaluated before the next frame.
    final fn sleep<L: Ledger>(&mut self, at: Spot, steps: &mut Steps<L>)
        ensures deed { slate self.new ≡ slate_after (slate self.old) (sleep_at at) }
        ensures steps { steps.new ≡ steps.old + 1 }
    {
        self.mark(at, Marks::none().with(Mark::Sleep), steps);
    }

    /// Shows that a place sends.
    final fn show<L: Ledger>(&mut self, at: Spot, steps: &mut Steps<L>)
        ensures deed { slate self.new ≡ slate_after (slate self.old) (show_at at) }
        ensures steps { steps.new ≡ steps.old + 1 }
    {
        self.mark(at, Marks::none().with(Mark::Output), steps);
    }
}
