ghost use Rattle.std.specs.Prelude.{◌≡◌, ℕ};
ghost use Rattle.orca_course.specs.Doing.{Does};
ghost use Rattle.orca_course.specs.Performers.{IsDeaf, KeepsSeats, Part};
ghost use Rattle.orca_course.specs.Worlds.{AreSeated, owing};

use crate::{Desk, Item, NoMemory, Stop};
use orca_rig::House;

/// What is done with items: the bytes of the answers of an inbox, its due moments, and the ends.
pub trait Performer: Drop {
    /// What it is to those that define it.
    ghost State: { Type 0 };

    /// Its state.
    ghost state: { Self → Self.State };

    /// How much its session has to clear. It pays for steps that are still to come.
    ghost residue: { Self → ℕ };

    /// What it does in a state.
    ghost part: { Part Self.State };

    /// The moment that the next poll waits for.
    fn until(&self) -> Option<u64>
        ensures { result ≡ part.until (state self.now) };

    /// Does what an item brings.
    fn take<H: House>(&mut self, desk: &mut Desk<H>, item: Item) -> Result<Option<Stop>, NoMemory>
        // The hands are there that it may tell.
        requires { AreSeated (part.seats (state self.old)) desk.old }
        ensures { Does part.stance (part.takes item (state self.old))
            (state self.old) (owing (residue self.old) desk.old) result
            (state self.new) (owing (residue self.new) desk.new) };

    /// It does not ask the inbox.
    ghost deaf: { IsDeaf part };

    /// It may tell as many hands wherever an item leads.
    ghost steady: { KeepsSeats part };

    /// It does not ask the inbox.
    final fn is_deaf(&self)
        ensures { IsDeaf part }
    {}

    /// It may tell as many hands wherever an item leads.
    final fn is_steady(&self)
        ensures { KeepsSeats part }
    {}
}
