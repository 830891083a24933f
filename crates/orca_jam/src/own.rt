//! What a hand may take back.

ghost use Rattle.std.specs.Prelude.{◌≡◌, false, slice_get};
ghost use Rattle.std.specs.Option.{option_map_or};
ghost use Rattle.orca_jam.specs.Crews.{is_own, own_edit, own_for};
ghost use Rattle.orca_jam.specs.Owners.{is_of_other};

use crate::Crew;
use orca_base::limits::RETRACTED_ENTRIES;
use orca_edit::Machine;
use orca_term::Key;

impl Crew {
    /// What a key of a hand is told of the hand's own edits: the number of the last one that can be taken
    /// back, if it is the key that takes it back.
    pub fn own_for<M: Machine>(&self, key: &Key, hand: u8, machine: &M) -> Option<u32>
        ensures { result ≡ own_for key.now self.now hand (M.machine machine.now).history }
    {
        match *key {
            Key::Retract => self.own_edit(hand, machine),
            _ => None,
        }
    }

    /// The number of the last edit of a hand that can be taken back, among the last entries of the history.
    fn own_edit<M: Machine>(&self, hand: u8, machine: &M) -> Option<u32>
        ensures { result ≡ own_edit self.now hand (M.machine machine.now).history }
    {
        let mut end = machine.moments();
        let mut left = end.min(RETRACTED_ENTRIES);
        while left > 0 {
            left -= 1;
            end -= 1;
            if self.is_own(hand, machine, end) {
                return Some(end);
            }
        }
        None
    }

    /// Whether an entry is an edit that can be taken back, and is not another hand's.
    fn is_own<M: Machine>(&self, hand: u8, machine: &M, moment: u32) -> bool
        ensures { result ≡ is_own self.now hand (M.machine machine.now).history moment }
    {
        machine.is_free_edit(moment) && !self.is_of_other(hand, moment)
    }

    /// Whether an entry is an edit of another hand.
    fn is_of_other(&self, hand: u8, moment: u32) -> bool
        ensures { result
            ≡ option_map_or (is_of_other hand) (slice_get self.now.owners moment) false }
    {
        match self.owner(moment) {
            Some(owner) => owner.edit && owner.hand != hand,
            None => false,
        }
    }
}
