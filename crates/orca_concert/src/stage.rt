ghost use Rattle.std.specs.Prelude.{◌≡◌, IfOk};
ghost use Rattle.orca_course.specs.Standings.{tally_at_start};
ghost use Rattle.orca_concert.specs.Concerts.{answer_of, command_course};
ghost use Rattle.orca_concert.specs.Stages.{StageDid};

use crate::sending::hand_messages;
use crate::{News, Report};
use orca_base::{Command, Fault, Memory, Reply, Rule};
use orca_course::{Desk, NoMemory, Stop, Tally};
use orca_edit::Machine;
use orca_notes::Messages;
use orca_rig::House;
use std::alloc::Global;

/// A session, the messages of its last command, what is counted of a run, and its report.
#[derive(Drop)]
pub struct Stage<M, R> {
    /// The session.
    pub machine: M,
    /// The messages of the last command.
    pub messages: Messages,
    /// What is counted.
    pub tally: Tally,
    /// What is printed, kept and saved.
    pub report: R,
}

impl<M: Machine, R: Report> Stage<M, R> {
    /// A run of this session, before its first command. [`Memory`] if the room for the messages of
    /// a command is refused.
    pub fn start(alloc: Global, machine: M, report: R) -> Result<Stage<M, R>, Memory>
        ensures machine { IfOk result (λ stage. stage.machine ≡ machine) }
        ensures tally { IfOk result (λ stage. stage.tally ≡ tally_at_start) }
        ensures report { IfOk result (λ stage. stage.report ≡ report) }
    {
        Ok(Stage {
            machine,
            messages: Messages::start(alloc)?,
            tally: Tally::start(),
            report,
        })
    }

    /// Does a command: the session acts, its messages are handed out, and the report is told. The
    /// command stands on this line of a script; 0 where there is none.
    pub fn do_command<H: House>(
        &mut self,
        desk: &mut Desk<H>,
        line: u32,
        command: &Command,
    ) -> Result<Option<Stop>, NoMemory>
        ensures { StageDid M.Machine.own R.Report.own (command_course R.manner line command.now)
            self.old desk.old result self.new desk.new }
    {
        self.messages.clear();
        let acted = desk.act(&mut self.machine, command, &mut self.messages);
        let answer = answer_of(acted)?;
        let messages = self.messages.as_slice();
        hand_messages(desk, self.report.hands(), messages)?;
        self.tally.count(answer, messages);
        let news = News::Done {
            line,
            answer,
            messages,
        };
        self.report.tell(desk, &self.machine, news)
    }
}

/// The answer to a command, if memory was not refused.
fn answer_of(acted: Result<Reply, Fault>) -> Result<Result<Reply, Rule>, NoMemory>
    ensures { result ≡ answer_of acted }
{
    match acted {
        Ok(reply) => Ok(Ok(reply)),
        Err(Fault::Refused(rule)) => Ok(Err(rule)),
        Err(Fault::Memory) => Err(NoMemory::Elsewhere),
    }
}
