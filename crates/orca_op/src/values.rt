ghost use Rattle.std.specs.Prelude.{◌≡◌, ◌-◌, ◌<◌, ◌≤◌, max};
ghost use Rattle.orca_op.specs.ValueRules.{value_or, rate_of};

use orca_base::Glyph;
use orca_base::limits::BASE;

/// The value of a glyph, or another value where it is 0.
#[tactic(auto, unfolding(crate::specs::ValueRules::value_or))]
pub fn value_or(glyph: Glyph, other: u8) -> u8
    ensures value { result ≡ value_or glyph other }
    ensures range { result ≤ max (BASE - 1) other }
    ensures some { 0 < other → 0 < result }
{
    match glyph.value() {
        0 => other,
        value => value,
    }
}

/// The value of a rate: 1 where the glyph is `.` or `*`.
#[tactic(auto, unfolding(crate::specs::ValueRules::rate_of))]
pub fn rate_of(glyph: Glyph) -> u8
    ensures rate { result ≡ rate_of glyph }
    ensures range { result < BASE }
{
    if glyph == Glyph::EMPTY || glyph == Glyph::BANG {
        1
    } else {
        glyph.value()
    }
}
