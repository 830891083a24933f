//! Why a song is not written, and why bytes are no song.

use std::alloc::{AllocError, AllocFailed};
use thiserror::Error;

/// Why an event is not added to a track.
#[derive(Clone, Copy, Debug, PartialEq, Eq, Error)]
pub enum SmfFault {
    /// The track with this event and its end would have more than
    /// [`MAX_TRACK_BYTES`](crate::limits::MAX_TRACK_BYTES).
    #[error("smf too long")]
    TooLong,
    /// Memory was refused.
    #[error("memory was refused")]
    Memory,
}

/// Why bytes are not read as a song.
#[derive(Clone, Copy, Debug, PartialEq, Eq, Error)]
pub enum SmfRefusal {
    /// They are not the one spelling of a song: the file of another producer, or a part of a file.
    #[error("not ours")]
    NotOurs,
    /// Memory was refused.
    #[error("memory was refused")]
    Memory,
}

impl From<AllocError> for SmfFault {
    ghost use Rattle.std.specs.Prelude.{◌≡◌};
    ghost use Rattle.orca_smf.specs.declared.fault.SmfFault.TheVariants.{Memory as OutOfMemory};

    ghost from_gives = { λ _ e. e ≡ OutOfMemory };

    fn from(_: AllocError) -> SmfFault {
        SmfFault::Memory
    }
}

impl<T: Drop> From<AllocFailed<T>> for SmfRefusal {
    ghost use Rattle.std.specs.Prelude.{◌≡◌};
    ghost use Rattle.orca_smf.specs.declared.fault.SmfRefusal.TheVariants.{Memory as OutOfMemory};

    ghost from_gives = { λ _ e. e ≡ OutOfMemory };

    fn from(_: AllocFailed<T>) -> SmfRefusal {
        SmfRefusal::Memory
    }
}
