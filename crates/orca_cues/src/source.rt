ghost use Rattle.std.specs.Prelude.{List};
ghost use Rattle.orca_cues.specs.Cues.{Pops};
ghost use Rattle.orca_cues.specs.declared.source.Cue.{Cue};

use orca_base::Command;

/// A command, or what becomes one once the session is seen.
#[derive(Clone, Copy, Debug, PartialEq, Eq)]
pub enum Order {
    /// This command.
    Do(Command),
    /// A rewind to half of the moments of the history.
    RewindHalf,
}

/// An order, how often it is done, and the line of a script that it stands on.
#[derive(Clone, Copy, Debug, PartialEq, Eq)]
pub struct Cue {
    /// The line, counted from 1; 0 where there is no script.
    pub line: u32,
    /// How often it is done.
    pub times: u32,
    /// What is done.
    pub order: Order,
}

/// Gives cues, one by one.
pub trait Source {
    /// The cues that are left. The code need not hold them.
    ghost left: { Self → List Cue };

    /// The next cue; none exactly where none is left.
    fn next(&mut self) -> Option<Cue>
        ensures { Pops (left self.old) result (left self.new) };
}
