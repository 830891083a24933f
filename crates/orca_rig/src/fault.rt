//! Why a call on the outside did not succeed, and how its object counts that.

ghost use Rattle.std.specs.Prelude.{◌≡◌, ◌↔◌, ◌≤◌, ◌+◌, min, OnOk, IsErrOf};
ghost use Rattle.std.specs.IoError.{error_kind};
ghost use Rattle.std.specs.declared.io.ErrorKind.TheVariants.{OutOfMemory};
ghost use Rattle.orca_rig.specs.declared.fault.OutsideFault.TheVariants.{Memory};
ghost use Rattle.orca_rig.specs.Outside.{last_count, wants_after};

use std::alloc::{AllocError, AllocFailed};
use std::io;
use std::io::ErrorKind;

/// Why a load, a save, a begin, an append, a claim, a removal, an attach, a send or a
/// `listen_hands` did not succeed.
#[derive(Clone, Copy, Debug, PartialEq, Eq)]
pub enum OutsideFault {
    /// The object failed, and counted it. Some of the bytes of a send may have gone out.
    Failed,
    /// Memory was refused.
    Memory,
}

impl From<AllocError> for OutsideFault {
    ghost from_gives = { λ _ e. e ≡ Memory };

    fn from(_: AllocError) -> OutsideFault {
        OutsideFault::Memory
    }
}

impl<T: Drop> From<AllocFailed<T>> for OutsideFault {
    ghost from_gives = { λ _ e. e ≡ Memory };

    fn from(_: AllocFailed<T>) -> OutsideFault {
        OutsideFault::Memory
    }
}

impl From<io::Error> for OutsideFault {
    ghost from_gives = { λ error fault. (fault ≡ Memory) ↔ (error_kind error ≡ OutOfMemory) };

    fn from(error: io::Error) -> OutsideFault {
        match error.kind() {
            ErrorKind::OutOfMemory => OutsideFault::Memory,
            _ => OutsideFault::Failed,
        }
    }
}

/// How often calls on an object have failed, and how often memory was refused to one. A count stands
/// still at the last value of 64 bits.
#[derive(Clone, Copy, Debug, PartialEq, Eq)]
pub struct Misses {
    pub faults: u64,
    pub wants: u64,
}

impl Misses {
    /// None yet.
    pub fn none() -> Misses
        ensures { result ≡ record { faults = 0; wants = 0 } }
    {
        Misses {
            faults: 0,
            wants: 0,
        }
    }

    /// Counts what a call answered, and gives the answer.
    pub fn count<T>(&mut self, done: Result<T, OutsideFault>) -> Result<T, OutsideFault>
        ensures same { result ≡ done }
        ensures grows { self.old.faults ≤ self.new.faults }
        ensures failed { IsErrOf done OutsideFault.Failed
            → self.new.faults ≡ min (self.old.faults + 1) last_count }
        ensures steady { OnOk done (self.new.faults ≡ self.old.faults) }
        ensures steady_memory { IsErrOf done OutsideFault.Memory
            → self.new.faults ≡ self.old.faults }
        ensures wants { self.new.wants ≡ wants_after done self.old.wants }
    {
        match &done {
            Ok(_) => {}
            Err(OutsideFault::Failed) => self.faults = self.faults.saturating_add(1),
            Err(OutsideFault::Memory) => self.wants = self.wants.saturating_add(1),
        }
        done
    }
}
