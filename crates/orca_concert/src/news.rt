use orca_base::{Message, Reply, Rule};
use orca_course::Tally;

/// What a report is told of a run.
#[derive(Drop)]
pub enum News<'a> {
    /// A command was done: the line that it stands on, counted from 1, or 0 where there is no
    /// script; what was done, or the rule that refused it; and its messages.
    Done {
        line: u32,
        answer: Result<Reply, Rule>,
        messages: &'a [Message],
    },
    /// All commands were done.
    Stands(Tally),
    /// The notes that sounded at the end were ended by these messages.
    Closed(&'a [Message]),
    /// Nothing more comes, and nothing has ended the run early.
    Last,
}
