use orca_course::Stop;

/// Why the rest of a cue is not done.
#[derive(Clone, Copy, Debug, PartialEq, Eq)]
pub(crate) enum Halt {
    /// A command was refused, which drops it.
    Dropped,
    /// The run ends.
    Ended(Stop),
}
