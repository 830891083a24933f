ghost use Rattle.std.specs.Prelude.{◌≡◌, ◌≤◌, ◌<◌, ◌^◌, ℕ, List, Option, Some, length, OnOk, IsErrOf};
ghost use Rattle.orca_base.specs.Ports.{Sent};
ghost use Rattle.orca_rig.specs.Outside.{Rose, after_call, wants_after};
ghost use Rattle.orca_rig.specs.Handed.{Attached};

use crate::OutsideFault;
use orca_base::Port;

/// Ports that take bytes.
pub trait Outs: Drop {
    /// All that was given to [`send`](Outs::send), in order, also where it answered
    /// [`OutsideFault::Failed`], and nothing that answered [`OutsideFault::Memory`]; where it is
    /// told.
    ghost handed: { Self → Option (List Sent) };

    /// All ports that were attached and their names, in order, also where [`attach`](Outs::attach)
    /// answered [`OutsideFault::Failed`], and none that answered [`OutsideFault::Memory`]; where
    /// they are told.
    ghost attached: { Self → Option (List Attached) };

    /// What [`sent`](Outs::sent) answers.
    ghost sent: { Self → ℕ };

    /// How often a port has failed.
    ghost faults: { Self → ℕ };

    /// How often memory was refused to a call.
    ghost wants: { Self → ℕ };

    /// Connects a port to the file, device or address of that name.
    fn attach(&mut self, port: Port, name: &str) -> Result<(), OutsideFault>
        ensures attached { attached self.new
            ≡ after_call result (record { port = port; name = name.now }) (attached self.old) }
        ensures handed { handed self.new ≡ handed self.old }

        ensures count { faults self.old ≤ faults self.new }
        ensures failed { IsErrOf result OutsideFault.Failed
            → Rose (faults self.old) (faults self.new) }
        ensures steady { OnOk result (faults self.new ≡ faults self.old) }
        ensures steady_memory { IsErrOf result OutsideFault.Memory
            → faults self.new ≡ faults self.old }
        ensures wants { wants self.new ≡ wants_after result (wants self.old) };

    /// Sends the bytes to the port, as one piece.
    fn send(&mut self, port: Port, bytes: &[u8]) -> Result<(), OutsideFault>
        ensures handed { handed self.new
            ≡ after_call result (record { port = port; bytes = bytes.now }) (handed self.old) }
        ensures attached { attached self.new ≡ attached self.old }

        ensures count { faults self.old ≤ faults self.new }
        ensures failed { IsErrOf result OutsideFault.Failed
            → Rose (faults self.old) (faults self.new) }
        ensures steady { OnOk result (faults self.new ≡ faults self.old) }
        ensures steady_memory { IsErrOf result OutsideFault.Memory
            → faults self.new ≡ faults self.old }
        ensures wants { wants self.new ≡ wants_after result (wants self.old) };

    /// How many pieces were given to [`send`](Outs::send), where that is told and fits. It is there
    /// for an inbox to write down: only [`Inbox::poll`](crate::Inbox::poll) may call it, since the
    /// ports of a running program answer 0.
    fn sent(&self) -> u64
        ensures { result ≡ sent self.now };

    /// Where the pieces are told and their number fits, `sent` is that number.
    ghost sent_is_length: { (outs : Self) (pieces : List Sent) → handed outs ≡ Some pieces
        → length pieces < 2 ^ 64 → sent outs ≡ length pieces };
}
