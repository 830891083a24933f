ghost use Rattle.orca_live.specs.Hands.{EachIsHeard, HandsShare, StartsWithOwners};
ghost use Rattle.orca_live.specs.Journals.{JournalsAreScripts, JournalsPerformance, LeadsBack};
ghost use Rattle.orca_live.specs.Laws.{ItemsDecide, OnlyAppends, ReplaysScript};
ghost use Rattle.orca_live.specs.Paintings.{ShowsPerformance};
ghost use Rattle.orca_live.specs.Solo.{PlaysAlone};
ghost use Rattle.orca_live.specs.Telling.{TellsFailures, TellsSaves};

/// More answers only add acts: what was done before stays done. It does nothing.
#[tactic(auto, using(crate::proofs::AppendingLaw::only_appends))]
pub fn appending_law()
    ensures { OnlyAppends }
{}

/// How bytes were cut into answers changes no command: two lists of answers with the same bytes and
/// due frames, in the same order, give the same commands, and leave the session and the commands
/// that are kept the same. It does nothing.
#[tactic(auto, using(crate::proofs::CuttingLaw::items_decide))]
pub fn cutting_law()
    ensures { ItemsDecide }
{}

/// The commands that are kept are those that were given, and their script, done again, leads to the
/// same session. It does nothing.
#[tactic(auto, using(crate::proofs::ScriptLaw::replays_script))]
pub fn script_law()
    ensures { ReplaysScript }
{}

/// A terminal of each hand, of the size that it told last, whatever it showed, that is sent all its paintings
/// since then shows each of its pictures, if it can show their cells: each is a printable byte with a style.
/// It does nothing.
#[tactic(auto, using(crate::proofs::PaintingLaw::shows_performance))]
pub fn painting_law()
    ensures { ShowsPerformance }
{}

/// Whenever the inbox is asked, the journal has the text of the seed and exactly the commands so
/// far; wherever a performance stops, it has a beginning of that; and at the end it has the text of
/// all of them. It does nothing.
#[tactic(auto, using(crate::proofs::JournalLaw::journals_performance, crate::proofs::ScriptLaw::leads_back))]
pub fn journal_law()
    ensures keeps { JournalsPerformance }
    // This text is a script, and its commands, done again, lead to the session as it stood then.
    ensures reads { JournalsAreScripts }
    ensures leads_back { LeadsBack }
{}

/// Each of several hands is heard: wherever a performance stands, its session is the one after its
/// commands, in the order in which they came, the keys of each hand are those of its own bytes and
/// of the frames that are due while it reads no pasted text, and they alone have moved its editor.
/// It does nothing.
#[tactic(auto, using(crate::proofs::HearingLaw::each_is_heard, crate::proofs::NamingLaw::hands_share))]
pub fn hands_law()
    ensures heard { EachIsHeard }
    // Those that share a session begin with an owner of each entry, and keep whose each is: what
    // came of the bytes of a hand is this hand's. So an undo that one of them is granted leaves
    // every edit of the others.
    ensures starts { StartsWithOwners }
    ensures shared { HandsShare }
{}

/// A hand that shares its session with nobody, so that each edit is its own, plays without the key
/// of Redo as one that plays alone: it does the same acts, and ends the same way. It does nothing.
#[tactic(auto, using(crate::proofs::SoloLaw::plays_alone))]
pub fn solo_law()
    ensures { PlaysAlone }
{}

/// A hand is told that the grid was saved only where it was saved under the name of the key, no save that it
/// is told of has failed, and the hand struck no key of its own since. Where the last save has failed, the
/// first hand is not told that all is well. It does nothing.
#[tactic(auto, using(crate::proofs::TellingLaw::tells_saves, crate::proofs::TellingLaw::tells_failures))]
pub fn telling_law()
    ensures saves { TellsSaves }
    ensures failures { TellsFailures }
{}
