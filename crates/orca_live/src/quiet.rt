ghost use Rattle.std.specs.Prelude.{◌≡◌, ℕ, IfOk};
ghost use Rattle.orca_concert.specs.Manners.News.{Done};
ghost use Rattle.orca_live.specs.Quiet.{sent_by};
ghost use Rattle.orca_term.specs.Traffic.{nothing_sent};

use orca_base::{Memory, Message, Reply, Rule};
use orca_concert::{News, Report};
use orca_course::{Desk, NoMemory, Stop};
use orca_edit::Machine;
use orca_rig::House;
use orca_term::Traffic;
use std::alloc::Global;

/// A report that prints and saves nothing: what a performance shows is painted. It keeps what the last frame
/// sent.
#[derive(Drop)]
pub struct Quiet {
    /// What the last frame sent.
    pub(crate) sent: Traffic,
}

impl Quiet {
    /// Nothing was sent so far. It takes the room for all that it keeps; [`Memory`] if that is refused.
    pub fn start(alloc: Global) -> Result<Quiet, Memory>
        ensures { IfOk result (λ quiet. quiet.sent ≡ nothing_sent) }
    {
        Ok(Quiet {
            sent: Traffic::start(alloc)?,
        })
    }

    /// A command was done: what a frame sent is kept.
    fn follow(&mut self, answer: Result<Reply, Rule>, messages: &[Message])
        ensures { (line : ℕ) → self.new.sent
            ≡ sent_by (Done line answer messages.now) self.old.sent }
    {
        if let Ok(Reply::Framed { tick }) = answer {
            self.sent.follow(tick, messages);
        }
    }
}

impl Report for Quiet {
    ghost use Rattle.orca_live.specs.Quiet.{quiet_manner};
    ghost use Rattle.orca_term.specs.Traffic.{FrameSent};

    ghost Kept = { FrameSent };

    ghost kept = { λ quiet. quiet.sent };

    ghost manner = { quiet_manner };

    fn hands(&self) -> bool {
        true
    }

    fn tell<M: Machine, H: House>(
        &mut self,
        _: &mut Desk<H>,
        _: &M,
        news: News<'_>,
    ) -> Result<Option<Stop>, NoMemory> {
        if let News::Done {
            answer,
            messages,
            ..
        } = news
        {
            self.follow(answer, messages);
        }
        Ok(None)
    }
}
