//! What keys came to, in words.

ghost use Rattle.std.specs.Prelude.{◌≡◌, ◌≤◌, length, All};
ghost use Rattle.orca_base.specs.declared.limits.TheConstants.{RULE_NAME_BYTES};
ghost use Rattle.orca_term.specs.Came.{came_to, came_word, hand_rule_name, is_warning, unless_unsaved};
ghost use Rattle.orca_term.specs.Picture.{IsPrintableByte};

use orca_base::Rule;

/// A rule by which a key is denied to a hand of a session that hands share.
#[derive(Clone, Copy, Debug, PartialEq, Eq)]
pub enum HandRule {
    /// The key belongs to the first hand.
    LeaderOnly,
    /// The key would take back the edit of another hand.
    NotYours,
}

impl HandRule {
    /// The name of the rule, as it is printed.
    pub fn name(self) -> &'static str
        ensures name { result.now ≡ hand_rule_name self }
        ensures printable { All IsPrintableByte result.now }
        ensures short { length result.now ≤ RULE_NAME_BYTES }
    {
        match self {
            HandRule::LeaderOnly => "LeaderOnly",
            HandRule::NotYours => "NotYours",
        }
    }
}

/// What a key came to.
#[derive(Clone, Copy, Debug, PartialEq, Eq)]
pub enum Came {
    /// What it asked for was done, if it asked for anything.
    Well,
    /// A rule refused the command that it asked for.
    Refused(Rule),
    /// It was denied to its hand.
    Denied(HandRule),
    /// It saved the grid, unless that failed.
    Kept,
}

impl Came {
    /// What a command came to, by the rule that refused it, if one did.
    pub fn of(refusal: Option<Rule>) -> Came
        ensures { result ≡ came_to refusal }
    {
        match refusal {
            None => Came::Well,
            Some(rule) => Came::Refused(rule),
        }
    }

    /// The word for it, where the last save failed or did not.
    pub(crate) fn word(self, unsaved: bool) -> &'static [u8]
        ensures word { result.now ≡ came_word unsaved self }
        ensures printable { All IsPrintableByte result.now }
        ensures short { length result.now ≤ RULE_NAME_BYTES }
    {
        match self {
            Came::Well => unless_unsaved(unsaved, b"ok"),
            Came::Refused(rule) => rule.name().as_bytes(),
            Came::Denied(rule) => rule.name().as_bytes(),
            Came::Kept => unless_unsaved(unsaved, b"saved"),
        }
    }

    /// Whether the word warns.
    pub(crate) fn is_warning(self, unsaved: bool) -> bool
        ensures { result ≡ is_warning unsaved self }
    {
        match self {
            Came::Well => unsaved,
            Came::Kept => unsaved,
            _ => true,
        }
    }
}

/// A word, unless the last save failed.
fn unless_unsaved(unsaved: bool, word: &'static [u8]) -> &'static [u8]
    requires printable { All IsPrintableByte word.now }
    requires short { length word.now ≤ RULE_NAME_BYTES }
    ensures word { result.now ≡ unless_unsaved unsaved word.now }
    ensures printable { All IsPrintableByte result.now }
    ensures short { length result.now ≤ RULE_NAME_BYTES }
{
    if unsaved { b"unsaved" } else { word }
}
