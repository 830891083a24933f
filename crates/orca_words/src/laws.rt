//! What is proved of the definitions alone.

ghost use Rattle.std.specs.Prelude.{codes};
ghost use Rattle.orca_words.specs.Requests.{Run, Events};
ghost use Rattle.orca_words.specs.PlainWords.{AsksPlainly, AsksToReplay};
ghost use Rattle.orca_words.specs.Recordings.{OwnsJournals};

/// The words that were read before there were options still ask for the same: `run` or `events`, a
/// name that is not empty and does not begin with a dash, and a number below 2^32; and `replay` and
/// two such names.
pub fn plain_words_law()
    ensures run { AsksPlainly (codes "run") Run }
    ensures events { AsksPlainly (codes "events") Events }
    ensures replay { AsksToReplay (codes "replay") }
{}

/// The journal of a performance has no name of another file of it: that of the grid, of one that is
/// saved at the end, of its address, or of its MIDI port.
#[tactic(auto, using(crate::proofs::RecordedWork::owns_journals))]
pub fn own_journal_law()
    ensures { OwnsJournals }
{}
