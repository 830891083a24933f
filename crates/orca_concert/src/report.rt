ghost use Rattle.std.specs.Prelude.{◌≡◌, All, Bool, Option};
ghost use Rattle.orca_base.specs.Ranges.{CarriesFewValues, HasDataInRange};
ghost use Rattle.orca_course.specs.Doing.{Does, nowhere};
ghost use Rattle.orca_course.specs.Standings.{Standing};
ghost use Rattle.orca_concert.specs.Manners.{Manner, aside_course, messages_in};
ghost use Rattle.orca_concert.specs.Telling.{news_at};

use crate::News;
use orca_course::{Desk, NoMemory, Stop};
use orca_edit::Machine;
use orca_rig::House;

/// What is printed, kept and saved of a run, which may end it.
pub trait Report: Drop {
    /// What it keeps, to those that define it.
    ghost Kept: { Type 0 };

    /// What it keeps.
    ghost kept: { Self → Self.Kept };

    /// What it does.
    ghost manner: { Manner Self.Kept };

    /// Whether the messages of commands are handed out.
    fn hands(&self) -> bool
        ensures { result ≡ manner.hands };

    /// It is told this of a run that stands so, and does what there is to do.
    fn tell<M: Machine, H: House>(
        &mut self,
        desk: &mut Desk<H>,
        machine: &M,
        news: News<'_>,
    ) -> Result<Option<Stop>, NoMemory>
        requires in_range { All HasDataInRange
            (messages_in (news_at M.Machine.own machine.now news)) }
        requires few_values { All CarriesFewValues
            (messages_in (news_at M.Machine.own machine.now news)) }
        ensures { (at : Option Standing) (hands : Bool) → Does (nowhere at hands)
            (aside_course (manner.tells (news_at M.Machine.own machine.now news.entry)
            (kept self.old)))
            (kept self.old) desk.old result (kept self.new) desk.new };
}
