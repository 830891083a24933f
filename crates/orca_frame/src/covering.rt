ghost use Rattle.std.specs.Prelude.{ℕ, ◌+◌, List};
ghost use Rattle.orca_base.specs.declared.now.Now.{Now};
ghost use Rattle.orca_base.specs.Grids.{Sheet};
ghost use Rattle.orca_frame.specs.Covering.{IsCovering, KeepsMarks};
ghost use Rattle.orca_op.specs.Deeds.{Deed, after_all};
ghost use Rattle.orca_op.specs.Laws.{IsLawful};
ghost use Rattle.orca_op.specs.Rules.{rule};
ghost use Rattle.orca_op.specs.Scan.{Rules, state_after_places};
ghost use Rattle.orca_op.specs.State.{State};

use crate::laws::table_laws;

/// The covering law: a place that isn't idle when the scan reaches it holds the glyph that it held when
/// the frame began. It holds of the operator table, as of all rules that are lawful, since a write to
/// another place comes with Lock or Sleep on that place, and marks are only added. It does nothing.
pub fn covering_law()
    ensures any { (rules : Rules) → IsLawful rules → IsCovering rules }
    ensures table { IsCovering rule }
    ensures deeds { (s : State) (deeds : List Deed) → KeepsMarks s (after_all s deeds) }
    ensures marks { (rules : Rules) (n more : ℕ) (g : Sheet) (now : Now)
        → KeepsMarks (state_after_places rules n g now)
        (state_after_places rules (n + more) g now) }
{
    table_laws();
}
