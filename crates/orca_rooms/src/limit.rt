//! What stands before the commands of a room.

ghost use Rattle.std.specs.Prelude.{◌≡◌, ◌+◌, ◌≤◌, IfSome, length};
ghost use Rattle.std.specs.Str.Lines.{lines};
ghost use Rattle.orca_base.specs.Numbers.{number_of};
ghost use Rattle.orca_base.specs.declared.limits.TheConstants.{MAX_FILE_BYTES, MAX_HISTORY};
ghost use Rattle.orca_rooms.specs.Limits.{limit_given, limit_within, room_limit};

use orca_base::limits::{MAX_FILE_BYTES, MAX_HISTORY};
use orca_base::number;
use orca_cues::Room;
use orca_script::Lines;
use std::str::from_utf8;

/// The most entries of the history that the second line of the script of a room names.
pub fn room_limit(script: &[u8]) -> Option<u32>
    ensures limit { result ≡ room_limit script.now }
    ensures within { IfSome result (λ limit. (1 ≤ limit) × (limit ≤ MAX_HISTORY)) }
{
    let mut lines = Lines::of(script);
    match lines.next() {
        None => None,
        Some(_) => match lines.next() {
            None => None,
            Some(line) => limit_given(line),
        },
    }
}

/// The limit that a line names: `# limit L`.
#[tactic(auto, unfolding(crate::specs::Limits::limit_given))]
fn limit_given(line: &[u8]) -> Option<u32>
    ensures limit { result ≡ limit_given line.now }
    ensures within { IfSome result (λ limit. (1 ≤ limit) × (limit ≤ MAX_HISTORY)) }
{
    limit_of(line.strip_prefix(b"# limit ")?)
}

/// The limit of these digits, where it is one that a history may have.
fn limit_of(digits: &[u8]) -> Option<u32>
    ensures limit { result ≡ limit_within (number_of digits.now) }
    ensures within { IfSome result (λ limit. (1 ≤ limit) × (limit ≤ MAX_HISTORY)) }
{
    let limit = number_in(digits)?;
    if limit < 1 || limit > MAX_HISTORY {
        return None;
    }
    Some(limit)
}

/// The number that these bytes are.
fn number_in(digits: &[u8]) -> Option<u32>
    ensures { result ≡ number_of digits.now }
{
    match from_utf8(digits) {
        Ok(text) => number(text),
        Err(_) => None,
    }
}

/// How many lines of a room stand before its script: the rows of the grid, and the empty line. The
/// grid has at most [`MAX_FILE_BYTES`] bytes.
pub fn lines_before(room: &Room<'_>) -> u32
    requires { length room.now.grid.now ≤ MAX_FILE_BYTES }
    ensures lines { result ≡ length (lines room.now.grid.now) + 1 }
    ensures few { result ≤ MAX_FILE_BYTES + 1 }
{
    let mut lines = Lines::of(room.grid);
    let mut count: u32 = 1;
    while let Some(_) = lines.next() {
        count += 1;
    }
    count
}
