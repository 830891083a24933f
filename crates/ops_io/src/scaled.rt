ghost use Rattle.std.specs.Prelude.{◌≡◌, ◌≤◌};
ghost use Rattle.orca_base.specs.declared.limits.TheConstants.{MAX_DATA};
ghost use Rattle.orca_op.specs.EventRules.{scaled};

use orca_base::Glyph;
use orca_base::limits::{BASE, MAX_DATA};

/// The value of a glyph, 0 to 35, spread over the data bytes, 0 to 127, and rounded down.
pub(crate) fn scaled(glyph: Glyph) -> u8
    ensures { result ≡ scaled glyph }
{
    (u16::from(glyph.value()) * u16::from(MAX_DATA) / u16::from(BASE - 1)) as u8
}
