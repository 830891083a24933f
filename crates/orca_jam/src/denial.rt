//! Why a hand may not do what its key asks for.

ghost use Rattle.std.specs.Prelude.{◌≡◌, ◌+◌, ◌≤◌, ◌++◌, length};
ghost use Rattle.std.specs.Fmt.{decimal};
ghost use Rattle.orca_jam.specs.Denials.{denial_line, rule_of_denial, whose};

use crate::limits::LINE_BYTES;
use itoa::Buffer;
use orca_base::Inline;
use orca_base::limits::MAX_DIGITS;
use orca_term::HandRule;

/// The line of a denied key.
pub type DenialLine = Inline<LINE_BYTES>;

/// Why a key is denied to a hand.
#[derive(Clone, Copy, Debug, PartialEq, Eq)]
pub enum Denial {
    /// The key belongs to the first hand.
    LeaderOnly,
    /// The key would take back the last edit, which is another hand's.
    NotYours {
        /// The hand whose edit it is.
        hand: u8,
    },
}

impl Denial {
    /// The line that tells it of a key of this hand.
    pub fn line(self, hand: u8) -> DenialLine
        ensures { result ≡ denial_line hand self }
    {
        let mut line = DenialLine::empty();
        line.extend(b"hand ");
        push_number(&mut line, hand);
        line.extend(b" refused ");
        line.extend(self.rule().name().as_bytes());
        self.push_whose(&mut line);
        line.push(b'\n');
        line
    }

    /// The rule by which the key is denied.
    pub fn rule(self) -> HandRule
        ensures { result ≡ rule_of_denial self }
    {
        match self {
            Denial::LeaderOnly => HandRule::LeaderOnly,
            Denial::NotYours { .. } => HandRule::NotYours,
        }
    }

    /// Appends the hand whose edit it is, if it is one's.
    fn push_whose(self, line: &mut DenialLine)
        requires room { length line.old + MAX_DIGITS + 1 ≤ LINE_BYTES }
        ensures text { line.new ≡ line.old ++ whose self }
        ensures short { length line.new ≤ length line.old + MAX_DIGITS + 1 }
    {
        match self {
            Denial::LeaderOnly => {}
            Denial::NotYours { hand } => {
                line.push(b' ');
                push_number(line, hand);
            }
        }
    }
}

/// Appends the number of a hand.
#[tactic(auto, using(crate::proofs::Digits::decimal_short))]
fn push_number(line: &mut DenialLine, hand: u8)
    requires room { length line.old + MAX_DIGITS ≤ LINE_BYTES }
    ensures text { line.new ≡ line.old ++ decimal hand }
    ensures short { length line.new ≤ length line.old + MAX_DIGITS }
{
    line.extend(Buffer::new().format(hand).as_bytes());
}
