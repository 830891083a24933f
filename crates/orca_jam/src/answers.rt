//! What becomes of a key.

ghost use Rattle.std.specs.Prelude.{◌≡◌};
ghost use Rattle.orca_jam.specs.Jamming.{failed_of, fault_of_denial, wish_reply};

use crate::Denial;
use orca_base::{Command, Fault, Reply, Rule};
use orca_term::{ScreenSize, Wish};

/// What became of a key.
#[derive(Clone, Copy, Debug, PartialEq, Eq)]
pub enum JamReply {
    /// The editor may have changed, and nothing else.
    Moved,
    /// The machine did a command.
    Acted {
        /// The command.
        command: Command,
        /// Its reply.
        reply: Reply,
    },
    /// The editor has changed its pause.
    Toggle,
    /// The grid is to be saved.
    Save,
    /// The performance is to end.
    Quit,
    /// So many beats a minute less are asked for.
    Slower(u16),
    /// So many beats a minute more are asked for.
    Faster(u16),
    /// All rows are to be painted, on a screen of this size, if it has another one.
    Redraw(Option<ScreenSize>),
}

/// Why nothing became of a key: the first reason that stands. After each all is as before.
#[derive(Clone, Copy, Debug, PartialEq, Eq)]
pub enum JamFault {
    /// The key belongs to the first hand.
    LeaderOnly,
    /// The key would take back the last edit, which is another hand's.
    NotYours {
        /// The hand whose edit it is.
        hand: u8,
    },
    /// The machine refuses the command.
    Refused {
        /// The command.
        command: Command,
        /// The rule that stands against it.
        rule: Rule,
    },
    /// Memory was refused.
    Memory,
}

/// What a denied key is told.
pub(crate) fn denied(denial: Denial) -> JamFault
    ensures { result ≡ fault_of_denial denial }
{
    match denial {
        Denial::LeaderOnly => JamFault::LeaderOnly,
        Denial::NotYours { hand } => JamFault::NotYours { hand },
    }
}

/// What becomes of a wish that is no command.
pub(crate) fn moved(wish: &Wish) -> JamReply
    ensures { result ≡ wish_reply wish.now }
{
    match wish {
        Wish::Nothing | Wish::Do(_) => JamReply::Moved,
        Wish::Toggle => JamReply::Toggle,
        Wish::Save => JamReply::Save,
        Wish::Quit => JamReply::Quit,
        Wish::Slower(beats) => JamReply::Slower(*beats),
        Wish::Faster(beats) => JamReply::Faster(*beats),
        Wish::Redraw(size) => JamReply::Redraw(*size),
    }
}

/// Why nothing became of a command.
pub(crate) fn failed(command: Command, fault: Fault) -> JamFault
    ensures { result ≡ failed_of command fault }
{
    match fault {
        Fault::Refused(rule) => JamFault::Refused { command, rule },
        Fault::Memory => JamFault::Memory,
    }
}
