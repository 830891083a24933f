ghost use Rattle.std.specs.Prelude.{◌≡◌};
ghost use Rattle.orca_cues.specs.Cues.{cues_left, frames_cue};

use crate::{Cue, Order, Source};
use orca_base::Command;

/// So many frames, as one cue.
#[derive(Drop)]
pub struct Frames {
    cue: Option<Cue>,
}

impl Frames {
    /// So many frames.
    pub fn of(times: u32) -> Frames
        ensures { cues_left result.cue ≡ frames_cue times }
    {
        Frames {
            cue: Some(Cue {
                line: 0,
                times,
                order: Order::Do(Command::Frame),
            }),
        }
    }
}

impl Source for Frames {
    ghost left = { λ s. cues_left s.cue };

    fn next(&mut self) -> Option<Cue> {
        self.cue.take()
    }
}
