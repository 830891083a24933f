use orca_base::Port;
use orca_rig::{Answer, Claim, OutsideFault};

/// What was called and what it answered, but for the name and the bytes.
#[derive(Clone, Copy)]
pub enum Kind {
    /// A port was to be attached to a name.
    Attach(Port, Result<(), OutsideFault>),
    /// Bytes were given to a port.
    Give(Port, Result<(), OutsideFault>),
    /// The file of a name was to be loaded; its bytes came if it was.
    Load(Result<(), OutsideFault>),
    /// Bytes were to be saved under a name.
    Save(Result<(), OutsideFault>),
    /// A file of a name was to be begun with bytes.
    Begin(Result<(), OutsideFault>),
    /// Bytes were to be added to the file of a name.
    Append(Result<(), OutsideFault>),
    /// A file of a name was to be claimed with bytes.
    Claim(Result<Claim, OutsideFault>),
    /// The file of a name was to be taken away.
    Remove(Result<(), OutsideFault>),
    /// Bytes were for a hand.
    Tell(u8, Result<(), OutsideFault>),
    /// The inbox listened at a name for so many hands, and answered the moment of the start.
    Listen(u8, Result<u64, OutsideFault>),
    /// The inbox was to wait until a moment, where there is one, and answered; bytes may have come.
    Await(Option<u64>, Answer),
}
