//! The leader: when each clock is due, and which bytes are given.

ghost use Rattle.std.specs.Prelude.{◌≡◌, ◌≤◌, ◌↔◌, true, false, if◌then◌else◌, IsNone};
ghost use Rattle.orca_sync.specs.Clocks.{Pulse, heed, heeded};
ghost use Rattle.orca_sync.specs.Laws.{VoicesAreNoClock};
ghost use Rattle.orca_sync.specs.Leading.{metronome_from, due_of, plays, clocked_at, toggle_byte, toggled_at};
ghost use Rattle.orca_sync.specs.RealTime.{timing_clock, start};
ghost use Rattle.orca_sync.specs.Together.{LeadsFollower};
ghost use Rattle.orca_sync.specs.declared.follower.Beat.TheVariants.{Nothing, Frame, Restart};

use crate::counting::counted;
use crate::limits::BEAT_CLOCKS;
use crate::real_time::{CONTINUE, STOP};
use orca_base::limits::MAX_BPM;
use orca_term::Pacer;
use std::marker::Model;

/// A leader, which gives a clock. It begins with [`START`](crate::real_time::START), and each clock is a
/// [`TIMING_CLOCK`](crate::real_time::TIMING_CLOCK). Moments are in microseconds. A contract sees its
/// metronome: its pace, and the pulse of a follower that heeds all its bytes.
#[derive(Clone, Copy, Debug, PartialEq, Eq)]
pub struct Leader {
    pacer: Pacer,
    runs: bool,
    count: u8,
}

impl Model for Leader {
    ghost use Rattle.std.specs.Prelude.{◌<◌};
    ghost use Rattle.orca_sync.specs.declared.limits.TheConstants.{FRAME_CLOCKS};
    ghost use Rattle.orca_sync.specs.Leading.{Metronome};

    ghost Value = { Metronome };

    ghost view = { λ leader. record {
      pace = leader.pacer;
      pulse = record { runs = leader.runs; count = leader.count };
    } };

    ghost invariant = { λ leader. leader.count < FRAME_CLOCKS };

    ghost inverse = { λ metronome. record {
      pacer = metronome.pace;
      runs = metronome.pulse.runs;
      count = metronome.pulse.count;
    } };
}

impl Leader {
    /// A leader of so many beats a minute, 1 to [`MAX_BPM`], that starts at a moment. The first clock is due
    /// an interval later.
    #[tactic(auto, unfolding(crate::specs::Clocks::heed), using(crate::proofs::LeadLaws::leads_follower))]
    pub fn start(at: u64, bpm: u16) -> Leader
        requires some { 1 ≤ bpm }
        requires few { bpm ≤ MAX_BPM }
        ensures metronome { result ≡ metronome_from bpm at }
        ensures heard { (p : Pulse) → heed p start ≡ heeded Restart result.pulse }

        // What a follower plays that heeds all that is given.
        ensures followed { LeadsFollower }
    {
        Leader {
            pacer: Pacer::every(at, bpm, BEAT_CLOCKS),
            runs: true,
            count: 0,
        }
    }

    /// The moment at which the next clock is due, or none while it is paused.
    pub fn due_at(&self) -> Option<u64>
        ensures due { result ≡ due_of self.now }
        ensures paused { IsNone result ↔ (self.now.pulse.runs ≡ false) }
    {
        if !self.runs {
            return None;
        }
        Some(self.pacer.due_at())
    }

    /// A clock was given at a moment. Says whether a frame follows, of which it is the first clock.
    #[tactic(auto, unfolding(crate::specs::Clocks::heed))]
    pub fn clock(&mut self, at: u64) -> bool
        requires runs { self.old.pulse.runs ≡ true }
        ensures plays { result ≡ plays self.old }
        ensures metronome { self.new ≡ clocked_at at self.old }

        // A follower plays the same frames, and the bytes of their messages don't disturb it.
        ensures heard { heed self.old.pulse timing_clock
            ≡ heeded (if result then Frame else Nothing) self.new.pulse }
        ensures voices { VoicesAreNoClock }
    {
        let first = self.count == 0;
        self.pacer.fired(at);
        self.count = counted(self.count);
        first
    }

    /// Pauses, or goes on at a moment with a new pace. Gives the byte that says so.
    #[tactic(auto, unfolding(crate::specs::Clocks::heed))]
    pub fn toggle(&mut self, at: u64) -> u8
        ensures byte { result ≡ toggle_byte self.old }
        ensures metronome { self.new ≡ toggled_at at self.old }
        ensures heard { heed self.old.pulse result ≡ heeded Nothing self.new.pulse }
    {
        if self.runs {
            self.runs = false;
            return STOP;
        }
        self.runs = true;
        self.pacer = Pacer::every(at, self.pacer.tempo(), BEAT_CLOCKS);
        CONTINUE
    }
}
