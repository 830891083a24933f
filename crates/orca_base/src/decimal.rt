ghost use Rattle.std.specs.Prelude.{◌≡◌};
ghost use Rattle.std.specs.List.{list_all};
ghost use Rattle.orca_base.specs.Glyphs.{is_digit};
ghost use Rattle.orca_base.specs.Numbers.{number_of};

use crate::limits::MAX_DIGITS;

/// The value of 1 to 10 decimal digits, where it is below 2^32; none of any other text. Leading zeros are
/// read.
#[tactic(auto, unfolding(crate::specs::Numbers::number_of))]
pub fn number(text: &str) -> Option<u32>
    ensures { result ≡ number_of text.now }
{
    if text.is_empty() || text.len() > MAX_DIGITS || !is_digits(text.as_bytes()) {
        return None;
    }
    text.parse::<u32>().ok()
}

/// Whether each byte is a decimal digit.
fn is_digits(text: &[u8]) -> bool
    ensures { result ≡ list_all is_digit text.now }
{
    text.iter().all(|byte| byte.is_ascii_digit())
}
