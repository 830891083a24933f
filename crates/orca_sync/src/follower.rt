//! The follower: what the bytes of a clock ask for.

ghost use Rattle.std.specs.Prelude.{◌≡◌, ◌∷◌, ◌++◌, ℕ, List};
ghost use Rattle.orca_sync.specs.Clocks.{stopped, clocked, heed, beat_in, beats_from};
ghost use Rattle.orca_sync.specs.Laws.{OthersDrop, EverySixth, PausesKeepCount};

use crate::counting::counted;
use crate::real_time::{CONTINUE, START, STOP, TIMING_CLOCK};
use std::marker::Model;

/// What a byte of a clock asks for.
#[derive(Clone, Copy, Debug, PartialEq, Eq)]
pub enum Beat {
    /// Nothing.
    Nothing,
    /// A frame is played.
    Frame,
    /// The piece begins anew.
    Restart,
}

/// A follower of a clock. A contract sees whether it runs, and how many clocks of the present frame have
/// come.
#[derive(Clone, Copy, Debug, PartialEq, Eq)]
pub struct Follower {
    runs: bool,
    count: u8,
}

impl Model for Follower {
    ghost use Rattle.std.specs.Prelude.{◌<◌};
    ghost use Rattle.orca_sync.specs.declared.limits.TheConstants.{FRAME_CLOCKS};
    ghost use Rattle.orca_sync.specs.Clocks.{Pulse};

    ghost Value = { Pulse };

    ghost view = { λ follower. record { runs = follower.runs; count = follower.count } };

    ghost invariant = { λ follower. follower.count < FRAME_CLOCKS };

    ghost inverse = { λ pulse. record { runs = pulse.runs; count = pulse.count } };
}

impl Follower {
    /// A follower that no clock has started so far.
    pub fn start() -> Follower
        ensures { result ≡ stopped }
    {
        Follower {
            runs: false,
            count: 0,
        }
    }

    /// Heeds a byte, and gives what it asks for: a start begins anew, a continue goes on, a stop stops, and
    /// while it runs the first of every six clocks plays a frame (MIDI 1.0, system real time messages). All
    /// other bytes are dropped, wherever they stand.
    #[tactic(auto, unfolding(crate::specs::Clocks::heed, crate::specs::Clocks::beats_from), using(crate::proofs::ClockLaws::clock_laws))]
    pub fn byte(&mut self, byte: u8) -> Beat
        ensures beat { result ≡ (heed self.old byte).beat }
        ensures pulse { self.new ≡ (heed self.old byte).pulse }
        ensures beats { (bytes : List ℕ) → beats_from self.old (byte ∷ bytes)
            ≡ beat_in result ++ beats_from self.new bytes }

        // What bytes ask for, however many come.
        ensures others { OthersDrop }
        ensures sixth { EverySixth }
        ensures pauses { PausesKeepCount }
    {
        match byte {
            START => {
                self.runs = true;
                self.count = 0;
                Beat::Restart
            }
            CONTINUE => {
                self.runs = true;
                Beat::Nothing
            }
            STOP => {
                self.runs = false;
                Beat::Nothing
            }
            TIMING_CLOCK => self.clock(),
            _ => Beat::Nothing,
        }
    }

    /// Counts a clock.
    fn clock(&mut self) -> Beat
        ensures beat { result ≡ (clocked self.old).beat }
        ensures pulse { self.new ≡ (clocked self.old).pulse }
    {
        if !self.runs {
            return Beat::Nothing;
        }
        let first = self.count == 0;
        self.count = counted(self.count);
        if first { Beat::Frame } else { Beat::Nothing }
    }
}
