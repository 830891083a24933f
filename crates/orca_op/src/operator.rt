ghost use Rattle.std.specs.Prelude.{◌≡◌, ℕ, List, ◌+◌, ◌≤◌, Some};
ghost use Rattle.orca_base.specs.declared.limits.TheConstants.{MAX_STEPS};
ghost use Rattle.orca_base.specs.declared.now.Now.{Now};
ghost use Rattle.orca_base.specs.declared.place.Place.{Place};
ghost use Rattle.orca_base.specs.Grids.{IsInside};
ghost use Rattle.orca_op.specs.declared.kind.Kind.{Kind};
ghost use Rattle.orca_op.specs.Kinds.{kind_of};
ghost use Rattle.orca_op.specs.State.{State, state_glyph};
ghost use Rattle.orca_op.specs.Deeds.{Deed};
ghost use Rattle.orca_op.specs.Slate.{Slate, HasEventRoom, slate_after_all};
ghost use Rattle.orca_op.specs.Laws.{IsLawful};
ghost use Rattle.orca_op.specs.Rules.{rule_of};

use crate::Bench;
use orca_base::{Glyph, Now, Place, Steps};
use std::sync::ledger::Ledger;

/// An operator: a rule of deeds that is lawful, and the code that does them.
pub trait Operator {
    /// Which operator it is: it serves the glyphs of this kind, and follows their rule in the
    /// operator table.
    ghost kind: { Kind };

    /// Does the deeds of its rule in the operator table, in order, in at most `MAX_STEPS` steps.
    fn act<B: Bench, L: Ledger>(
        &self,
        bench: &mut B,
        at: Place,
        glyph: Glyph,
        now: Now,
        steps: &mut Steps<L>,
    )
        requires inside { IsInside (B.slate bench.old).scan.dims at }
        requires holds { glyph ≡ state_glyph (B.slate bench.old).scan at }
        requires served { kind_of glyph ≡ Some kind }
        requires room { HasEventRoom (B.slate bench.old) }
        ensures deeds { B.slate bench.new ≡ slate_after_all (B.slate bench.old)
            (rule_of kind glyph (B.slate bench.old).scan at now) }
        ensures steps { steps.new ≤ steps.old + MAX_STEPS }
        ensures later { steps.old ≤ steps.new };

    /// At most `MAX_DEEDS` deeds and one event, glyphs alone are written, each write to another
    /// place comes with Lock or Sleep on it, and each event is in range.
    ghost laws: { IsLawful (rule_of kind) };

    /// The laws of the operator's rule.
    final fn lawful(&self)
        ensures { IsLawful (rule_of kind) }
    {}
}
