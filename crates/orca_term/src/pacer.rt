//! The pacer: when the next frame is due, or the next clock.

ghost use Rattle.std.specs.Prelude.{◌≡◌, ◌≤◌};
ghost use Rattle.orca_term.specs.Pacing.{interval, due_after, pace_from, parts_from, retimed};

use orca_base::limits::{BEAT_FRAMES, MAX_BPM, MINUTE_MICROSECONDS};
use std::marker::Model;

/// When the next part of a beat is due: the next frame, where a beat has [`BEAT_FRAMES`] parts, or the next
/// clock. Moments and intervals are in microseconds. A contract sees the tempo, the number of the parts of
/// a beat, and the moment at which the next part is due.
#[derive(Clone, Copy, Debug, PartialEq, Eq)]
pub struct Pacer {
    bpm: u16,
    parts: u8,
    /// The interval between two parts, worked out once for each tempo.
    interval: u64,
    due: u64,
}

impl Model for Pacer {
    ghost use Rattle.std.specs.Prelude.{◌≡◌, ◌≤◌, ℕ};
    ghost use Rattle.std.proofs.Common.{ap, sym};
    ghost use Rattle.orca_base.specs.declared.limits.TheConstants.{MAX_BPM};
    ghost use Rattle.orca_term.specs.Pacing.{Pace, interval_of};

    ghost Value = { Pace };

    ghost view = { λ pacer. record {
      bpm = pacer.bpm;
      parts = pacer.parts;
      due = pacer.due;
    } };

    ghost invariant = { λ pacer. (1 ≤ pacer.bpm) × (pacer.bpm ≤ MAX_BPM) × (1 ≤ pacer.parts)
        × (pacer.interval
        ≡ interval_of (record { bpm = pacer.bpm; parts = pacer.parts; due = pacer.due })) };

    ghost inverse = { λ pace. record {
      bpm = pace.bpm;
      parts = pace.parts;
      interval = interval_of pace;
      due = pace.due;
    } };

    ghost inverse_ok = { λ pacer h. ap (λ (n : ℕ). record {
      bpm = pacer.bpm;
      parts = pacer.parts;
      interval = n;
      due = pacer.due;
    }) (sym h.3) };
}

impl Pacer {
    /// A pacer of frames, of so many beats a minute, 1 to [`MAX_BPM`], that starts at a moment. The first
    /// frame is due an interval later.
    pub fn start(at: u64, bpm: u16) -> Pacer
        requires some { 1 ≤ bpm }
        requires few { bpm ≤ MAX_BPM }
        ensures { result ≡ pace_from bpm at }
    {
        Pacer::every(at, bpm, BEAT_FRAMES as u8)
    }

    /// A pacer of so many parts of a beat, at least 1, that starts at a moment. The first part is due an
    /// interval later.
    pub fn every(at: u64, bpm: u16, parts: u8) -> Pacer
        requires some { 1 ≤ bpm }
        requires few { bpm ≤ MAX_BPM }
        requires parts { 1 ≤ parts }
        ensures { result ≡ parts_from parts bpm at }
    {
        let interval = interval(bpm, parts);
        Pacer {
            bpm,
            parts,
            interval,
            due: at.saturating_add(interval),
        }
    }

    /// The tempo, in beats a minute.
    pub fn tempo(&self) -> u16
        ensures tempo { result ≡ self.now.bpm }
        ensures some { 1 ≤ result }
        ensures few { result ≤ MAX_BPM }
    {
        self.bpm
    }

    /// Takes another tempo, 1 to [`MAX_BPM`]. The next part is due a new interval after the moment from
    /// which the old interval was counted.
    pub fn retime(&mut self, bpm: u16)
        requires some { 1 ≤ bpm }
        requires few { bpm ≤ MAX_BPM }
        ensures { self.new ≡ retimed bpm self.old }
    {
        let from = self.due.saturating_sub(self.interval);
        let interval = interval(bpm, self.parts);
        self.bpm = bpm;
        self.interval = interval;
        self.due = from.saturating_add(interval);
    }

    /// The moment at which the next part is due.
    pub fn due_at(&self) -> u64
        ensures { result ≡ self.now.due }
    {
        self.due
    }

    /// A part was played at a moment. The next one is due an interval after the moment at which this one
    /// was due, or, where that has passed, an interval after `at`.
    pub fn fired(&mut self, at: u64)
        ensures { self.new ≡ record self.old { due = due_after self.old at } }
    {
        let next = self.due.saturating_add(self.interval);
        self.due = if next > at {
            next
        } else {
            at.saturating_add(self.interval)
        };
    }
}

/// The interval between two parts of a beat.
fn interval(bpm: u16, parts: u8) -> u64
    requires some { 1 ≤ bpm }
    requires parts { 1 ≤ parts }
    ensures { result ≡ interval bpm parts }
{
    MINUTE_MICROSECONDS / (u64::from(parts) * u64::from(bpm))
}
