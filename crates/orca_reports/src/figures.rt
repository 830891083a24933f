ghost use Rattle.std.specs.Prelude.{◌≡◌, ◌++◌, OnOk};
ghost use Rattle.orca_reports.specs.Texts.{figure};

use orca_base::Memory;
use orca_send::push_decimal;

/// Appends a word, a space and a number in decimal digits.
pub(crate) fn push_figure(line: &mut Vec<u8>, word: &str, n: u64) -> Result<(), Memory>
    ensures { OnOk result (line.new.items ≡ line.old.items ++ figure word.now n) }
{
    line.extend_from_slice(word.as_bytes())?;
    line.push(b' ')?;
    push_decimal(line, n)
}
