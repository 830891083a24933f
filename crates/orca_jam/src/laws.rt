//! Laws of hands that share a session. The function does nothing; its contract is the laws.

ghost use Rattle.orca_jam.specs.Laws.{KeepsOwners, LeaderIsFree, LeaderStaysFree, RetractSpares, UndoSpares};

/// The owners go with the history: one of each entry, and an edit where it has one. So an undo leaves every
/// edit of every other hand, and a Retract every frame too. Where all edits are the first hand's, nothing is
/// denied to it.
pub fn crew_law()
    ensures owners { KeepsOwners }
    ensures spares { UndoSpares }
    ensures retracts { RetractSpares }
    ensures free { LeaderIsFree }
    ensures stays { LeaderStaysFree }
{}
