//! The keys of a mouse, by the reports that a terminal sends of it.

ghost use Rattle.std.specs.Prelude.{◌≡◌, ◌≤◌, length};
ghost use Rattle.orca_term.specs.Keys.{button_key, found_in, mouse_key, mouse_sequence, wheel};

use crate::limits::RULER_PLACES;
use crate::numbers::numbers_in;
use crate::tables::arrow_key;
use crate::{Key, Side};
use orca_base::limits::SEQUENCE_BYTES;

/// The key of a report: its numbers stand after `<`, and `M` ends it.
#[tactic(auto, unfolding(crate::specs::Keys::mouse_sequence))]
pub(crate) fn mouse_sequence(bytes: &[u8], last: u8) -> Option<Key>
    requires { length bytes.now ≤ SEQUENCE_BYTES }
    ensures { result ≡ mouse_sequence bytes.now last }
{
    let [first, others @ ..] = bytes else {
        return None;
    };
    if *first != b'<' || last != b'M' {
        return None;
    }
    match numbers_in(others) {
        Some(numbers) => mouse_key(numbers.as_slice()),
        None => None,
    }
}

/// The key of a report by its numbers: the button, and the column and the row counted from 1.
fn mouse_key(numbers: &[u16]) -> Option<Key>
    ensures { result ≡ mouse_key numbers.now }
{
    match numbers {
        [button, x, y] => {
            if *x == 0 || *y == 0 {
                return None;
            }
            button_key(*button, *y - 1, *x - 1)
        }
        _ => None,
    }
}

/// The key of a button, of a motion with the first one held, and of the wheel.
fn button_key(button: u16, row: u16, column: u16) -> Option<Key>
    ensures { result ≡ button_key button row column }
{
    match button {
        0 => Some(Key::Press { row, column }),
        32 => Some(Key::Drag { row, column }),
        _ => arrow_key(1, RULER_PLACES, wheel_of(button)),
    }
}

/// The side to which the wheel turns.
fn wheel_of(button: u16) -> Option<Side>
    ensures { result ≡ found_in wheel button }
{
    match button {
        64 => Some(Side::Up),
        65 => Some(Side::Down),
        _ => None,
    }
}
