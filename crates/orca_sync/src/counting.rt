//! How the clocks of a frame are counted.

ghost use Rattle.std.specs.Prelude.{◌≡◌, ◌<◌};
ghost use Rattle.orca_sync.specs.Clocks.{counted};

use crate::limits::FRAME_CLOCKS;

/// One clock more of a frame.
pub(crate) fn counted(count: u8) -> u8
    requires { count < FRAME_CLOCKS }
    ensures value { result ≡ counted count }
    ensures few { result < FRAME_CLOCKS }
{
    (count + 1) % FRAME_CLOCKS
}
