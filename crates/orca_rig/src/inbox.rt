ghost use Rattle.std.specs.Prelude.{◌≡◌, ◌≢◌, ◌≤◌, ◌<◌, ◌+◌, ◌⊎◌, min, ℕ, Bool, true, false, Option, Some, IfOk, OnOk, OnErr, IsErrOf};
ghost use Rattle.std.specs.Option.{option_map};
ghost use Rattle.orca_rig.specs.Outside.{Rose, last_count, wants_after};
ghost use Rattle.orca_rig.specs.Arrived.{Log, after_listen, after_poll, after_tell, arrived, moment_after, is_ending, MayAnswer};
ghost use Rattle.orca_base.specs.declared.limits.TheConstants.{MAX_HANDS};

use crate::{Outs, OutsideFault};
use orca_base::Memory;
use orca_base::limits::ARRIVAL_BYTES;

/// What a poll answers. Moments are in microseconds.
#[derive(Clone, Copy, Debug, PartialEq, Eq)]
pub enum Answer {
    /// Bytes came: the first `count` of the buffer, from the hand of this number, at this moment.
    /// `count` is 1 to [`ARRIVAL_BYTES`].
    Bytes { hand: u8, count: u8, at: u64 },
    /// The moment to wait for has come; this is the moment now.
    Due { at: u64 },
    /// Nothing more will come.
    End,
    /// The inbox failed, and counted it.
    Failed,
}

/// Where the bytes of the players come in, and the clock; and where what they are to see goes out.
pub trait Inbox: Drop {
    /// The name and the number of hands that [`listen_hands`](Inbox::listen_hands) was given, the
    /// moment that it answered, the polls, and what was told to the hands; where all that is told.
    /// A `listen_hands` that answered [`OutsideFault::Memory`] and a `tell` that answered
    /// [`Memory`] are not kept.
    ghost log: { Self → Option Log };

    /// The last moment that it answered.
    ghost last: { Self → ℕ };

    /// Whether [`listen_hands`](Inbox::listen_hands) was called.
    ghost listened: { Self → Bool };

    /// How many hands there are, after a [`listen_hands`](Inbox::listen_hands) that went well.
    ghost hand_count: { Self → ℕ };

    /// Whether a poll has answered [`Answer::End`] or [`Answer::Failed`].
    ghost ended: { Self → Bool };

    /// How often the inbox has failed.
    ghost faults: { Self → ℕ };

    /// How often memory was refused to a call.
    ghost wants: { Self → ℕ };

    /// Waits for so many players at that name, and answers the moment of the start, in
    /// microseconds. The first who comes is hand 0, and the next is hand 1. There are 1 to
    /// [`MAX_HANDS`](orca_base::limits::MAX_HANDS) of them.
    fn listen_hands(&mut self, name: &str, hands: u8) -> Result<u64, OutsideFault>
        // Nobody listened before.
        requires fresh { listened self.old ≡ false }
        requires some { 1 ≤ hands }
        requires few { hands ≤ MAX_HANDS }
        ensures log { log self.new
            ≡ option_map (after_listen result name.now hands) (log self.old) }
        ensures moment { IfOk result (λ at. last self.new ≡ at) }
        ensures later { last self.old ≤ last self.new }
        ensures unanswered { OnErr result (last self.new ≡ last self.old) }
        ensures hand_count { OnOk result (hand_count self.new ≡ hands) }
        ensures listened { listened self.new ≡ true }
        ensures ended { ended self.new ≡ ended self.old }

        ensures count { faults self.old ≤ faults self.new }
        ensures failed { IsErrOf result OutsideFault.Failed
            → Rose (faults self.old) (faults self.new) }
        ensures steady { OnOk result (faults self.new ≡ faults self.old) }
        ensures steady_memory { IsErrOf result OutsideFault.Memory
            → faults self.new ≡ faults self.old }
        ensures wants { wants self.new ≡ wants_after result (wants self.old) };

    /// Waits for what comes next: bytes, which it puts at the front of `bytes`, or the moment
    /// `until`, where there is one. It takes no memory. What stands in `bytes` after those that
    /// came has no meaning.
    fn poll<O: Outs>(
        &mut self,
        outs: &O,
        until: Option<u64>,
        bytes: &mut [u8; ARRIVAL_BYTES],
    ) -> Answer
        // Neither End nor Failed was answered before.
        requires { ended self.old ≡ false }
        ensures answer { MayAnswer until (last self.old) result }
        ensures log { log self.new ≡ option_map (after_poll (record {
          until = until;
          sent = O.sent outs.now;
          answer = result;
          bytes = arrived result bytes.new;
        })) (log self.old) }
        ensures last { last self.new ≡ moment_after result (last self.old) }
        ensures listened { listened self.new ≡ listened self.old }
        ensures hand_count { hand_count self.new ≡ hand_count self.old }
        ensures ended { ended self.new ≡ is_ending result }

        ensures count { faults self.old ≤ faults self.new }
        ensures failed { result ≡ Answer.Failed → Rose (faults self.old) (faults self.new) }
        ensures steady { result ≢ Answer.Failed → faults self.new ≡ faults self.old }
        ensures wants { wants self.new ≡ wants self.old };

    /// Gives the bytes to a hand, to be seen where its keys come from. It never waits. A hand that
    /// reads slowly may get a beginning of them, and one that has left gets nothing: neither is a
    /// failure, and the others are told theirs.
    fn tell(&mut self, hand: u8, bytes: &[u8]) -> Result<(), Memory>
        requires heard { listened self.old ≡ true }
        requires seated { hand < hand_count self.old }
        ensures log { log self.new ≡ option_map
            (after_tell result (record { hand = hand; bytes = bytes.now })) (log self.old) }
        ensures last { last self.new ≡ last self.old }
        ensures listened { listened self.new ≡ listened self.old }
        ensures hand_count { hand_count self.new ≡ hand_count self.old }
        ensures ended { ended self.new ≡ ended self.old }

        ensures steady { faults self.new ≡ faults self.old }
        ensures taken { OnOk result (wants self.new ≡ wants self.old) }
        ensures refused { OnErr result (wants self.new ≡ min (wants self.old + 1) last_count) };
}
