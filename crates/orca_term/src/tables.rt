//! The tables of the keys: those of single bytes, and those of sequences.

ghost use Rattle.std.specs.Prelude.{◌≡◌, ◌≤◌, [], ◌∷◌, length};
ghost use Rattle.std.specs.Option.{option_and_then};
ghost use Rattle.orca_term.specs.Keys.{key_of, plain_key, further_keys, found_in, key_of_sequence, plain_sequence, arrow_keys, shifted_keys, arrow_sides, edges, numbered_edges, pages, deed_of, arrow_key, ended_key, paged_key, single_key, is_function, function_keys, console_key, console_keys, numbers_in, numbered_keys, key_of_numbers, further_sequence};

use crate::limits::{FAR_BEATS, RULER_PLACES};
use crate::mouse::mouse_sequence;
use crate::numbers::numbers_in;
use crate::{Deed, Key, Side};
use orca_base::Glyph;
use orca_base::limits::{MAX_COLUMNS, SEQUENCE_BYTES};

/// The key of a byte that belongs to no sequence.
#[tactic(auto, unfolding(crate::specs::Keys::key_of))]
pub(crate) fn key_of(full: bool, byte: u8) -> Option<Key>
    ensures { result ≡ key_of full byte }
{
    let further = if full { further_key(byte) } else { None };
    plain_key(byte).or(further)
}

/// The plain key of a byte that belongs to no sequence.
#[tactic(auto, unfolding(crate::specs::Keys::plain_key))]
fn plain_key(byte: u8) -> Option<Key>
    ensures { result ≡ plain_key byte }
{
    if let Some(glyph) = Glyph::of(byte) {
        return Some(Key::Glyph(glyph));
    }
    match byte {
        b' ' => Some(Key::Pause),
        0x08 | 0x7F => Some(Key::Rub),
        0x02 => Some(Key::Back),
        0x03 => Some(Key::Copy),
        0x06 => Some(Key::Step),
        0x11 => Some(Key::Quit),
        0x12 => Some(Key::Reset),
        0x13 => Some(Key::Save),
        0x16 => Some(Key::Paste),
        0x18 => Some(Key::Cut),
        0x19 => Some(Key::Redo),
        0x1A => Some(Key::Undo),
        _ => None,
    }
}

/// The key of a single byte that full keys add.
fn further_key(byte: u8) -> Option<Key>
    ensures { result ≡ found_in further_keys byte }
{
    match byte {
        0x01 => Some(Key::All),
        0x05 => Some(Key::Hush),
        0x07 => Some(Key::Guide),
        0x09 => Some(Key::Append),
        0x0A => Some(Key::Line),
        0x0B => Some(Key::Fill),
        0x0C => Some(Key::Redraw),
        0x0D => Some(Key::Return),
        0x10 => Some(Key::Help),
        0x14 => Some(Key::Traffic),
        0x15 => Some(Key::Retract),
        _ => None,
    }
}

/// The key of a sequence, by the bytes that it collected and the last one.
#[tactic(auto, unfolding(crate::specs::Keys::key_of_sequence))]
pub(crate) fn key_of_sequence(full: bool, bytes: &[u8], last: u8) -> Option<Key>
    requires { length bytes.now ≤ SEQUENCE_BYTES }
    ensures { result ≡ key_of_sequence full bytes.now last }
{
    let further = if full {
        further_sequence(bytes, last)
    } else {
        None
    };
    plain_sequence(bytes, last).or(further)
}

/// The plain key of a sequence.
#[tactic(auto, unfolding(crate::specs::Keys::plain_sequence))]
fn plain_sequence(bytes: &[u8], last: u8) -> Option<Key>
    ensures { result ≡ plain_sequence bytes.now last }
{
    match bytes {
        [] => plain_arrow(last),
        [b'1', b';', b'2'] => shifted_arrow(last),
        _ => None,
    }
}

/// The key of an arrow by itself.
fn plain_arrow(last: u8) -> Option<Key>
    ensures { result ≡ found_in arrow_keys last }
{
    let side = side_of(last)?;
    Some(Key::Arrow {
        deed: Deed::Move,
        side,
        by: 1,
    })
}

/// The key of an arrow that is pressed with Shift.
fn shifted_arrow(last: u8) -> Option<Key>
    ensures { result ≡ found_in shifted_keys last }
{
    let side = side_of(last)?;
    Some(Key::Arrow {
        deed: Deed::Stretch,
        side,
        by: 1,
    })
}

/// The key of a sequence that full keys add.
fn further_sequence(bytes: &[u8], last: u8) -> Option<Key>
    requires { length bytes.now ≤ SEQUENCE_BYTES }
    ensures { result ≡ further_sequence bytes.now last }
{
    numbered_sequence(bytes, last).or(mouse_sequence(bytes, last))
}

/// The key of a sequence by its numbers.
fn numbered_sequence(bytes: &[u8], last: u8) -> Option<Key>
    requires { length bytes.now ≤ SEQUENCE_BYTES }
    ensures { result ≡ option_and_then (λ numbers. key_of_numbers numbers last)
        (numbers_in bytes.now) }
{
    match numbers_in(bytes) {
        Some(numbers) => key_of_numbers(numbers.as_slice(), last),
        None => None,
    }
}

/// The key of a sequence by its numbers and its last byte.
#[tactic(auto, unfolding(crate::specs::Keys::key_of_numbers))]
fn key_of_numbers(numbers: &[u16], last: u8) -> Option<Key>
    ensures { result ≡ key_of_numbers numbers.now last }
{
    match numbers {
        [] => ended_key(last, 1),
        [n] => lone_number(*n, last),
        [n, m] => modified(*n, *m, last),
        [n, rows, columns] => {
            if *n == 8 && last == b't' {
                Some(Key::Screen {
                    rows: *rows,
                    columns: *columns,
                })
            } else {
                None
            }
        }
        _ => None,
    }
}

/// The key of a number.
#[tactic(auto, unfolding(crate::specs::Keys::key_of_numbers))]
fn lone_number(n: u16, last: u8) -> Option<Key>
    ensures { result ≡ key_of_numbers (n ∷ []) last }
{
    if last != b'~' {
        return None;
    }
    numbered_key(n).or(paged_key(n, 1))
}

/// The key of a number and modifiers.
#[tactic(auto, unfolding(crate::specs::Keys::key_of_numbers))]
fn modified(n: u16, m: u16, last: u8) -> Option<Key>
    ensures { result ≡ key_of_numbers (n ∷ m ∷ []) last }
{
    if last == b'~' {
        paged_key(n, m)
    } else if n == 1 {
        ended_key(last, m)
    } else {
        None
    }
}

/// The key that has a number before `~`, beside the arrows.
fn numbered_key(n: u16) -> Option<Key>
    ensures { result ≡ found_in numbered_keys n }
{
    match n {
        2 => Some(Key::Append),
        3 => Some(Key::Erase),
        11 => Some(Key::Help),
        12 => Some(Key::Traffic),
        17 => Some(Key::Slower(FAR_BEATS)),
        18 => Some(Key::Slower(1)),
        19 => Some(Key::Faster(1)),
        20 => Some(Key::Faster(FAR_BEATS)),
        200 => Some(Key::PasteBegin),
        201 => Some(Key::PasteEnd),
        _ => None,
    }
}

/// The arrow that ends in a byte: an arrow, Home or End.
fn ended_key(last: u8, m: u16) -> Option<Key>
    ensures { result ≡ ended_key last m }
{
    let near = arrow_key(m, 1, side_of(last));
    near.or(arrow_key(m, MAX_COLUMNS, edge_of(last)))
}

/// What ESC, `O` and a letter are: F1 to F4, or the arrow, Home or End of `ESC [` and the letter.
pub(crate) fn single_key(letter: u8) -> Option<Option<Key>>
    ensures { result ≡ single_key letter }
{
    if is_function(letter) {
        return Some(function_key(letter));
    }
    let key = ended_key(letter, 1)?;
    Some(Some(key))
}

/// The key of F1 to F4, by its letter; the last two are none.
fn function_key(letter: u8) -> Option<Key>
    ensures { result ≡ found_in function_keys letter }
{
    match letter {
        b'P' => Some(Key::Help),
        b'Q' => Some(Key::Traffic),
        _ => None,
    }
}

/// What ESC, two brackets and a letter are: F1 to F5 of the Linux console, of which the first two are keys.
pub(crate) fn console_key(letter: u8) -> Option<Option<Key>>
    ensures { result ≡ console_key letter }
{
    match letter {
        b'A' => Some(Some(Key::Help)),
        b'B' => Some(Some(Key::Traffic)),
        b'C'..=b'E' => Some(None),
        _ => None,
    }
}

/// Whether a letter is that of F1 to F4.
fn is_function(letter: u8) -> bool
    ensures { result ≡ is_function letter }
{
    matches!(letter, b'P'..=b'S')
}

/// The arrow that has a number: a page, Home or End.
fn paged_key(n: u16, m: u16) -> Option<Key>
    ensures { result ≡ paged_key n m }
{
    let page = arrow_key(m, RULER_PLACES, page_of(n));
    page.or(arrow_key(m, MAX_COLUMNS, numbered_edge_of(n)))
}

/// An arrow to a side, if any, with modifiers: one more than the sum of Shift (1), Alt (2) and Control (4).
pub(crate) fn arrow_key(m: u16, by: u16, side: Option<Side>) -> Option<Key>
    ensures { result ≡ option_and_then (arrow_key m by) side }
{
    let Some(side) = side else {
        return None;
    };
    if m < 1 || m > 8 {
        return None;
    }
    let by = if m >= 5 { by.max(RULER_PLACES) } else { by };
    Some(Key::Arrow {
        deed: deed_of((m - 1) % 4),
        side,
        by,
    })
}

/// What an arrow does, by the sum of Shift (1) and Alt (2).
fn deed_of(n: u16) -> Deed
    ensures { result ≡ deed_of n }
{
    match n {
        0 => Deed::Move,
        1 => Deed::Stretch,
        2 => Deed::Slide,
        _ => Deed::Grow,
    }
}

/// The side of an arrow.
fn side_of(last: u8) -> Option<Side>
    ensures { result ≡ found_in arrow_sides last }
{
    match last {
        b'A' => Some(Side::Up),
        b'B' => Some(Side::Down),
        b'C' => Some(Side::Right),
        b'D' => Some(Side::Left),
        _ => None,
    }
}

/// The side of Home or End, by their last bytes.
fn edge_of(last: u8) -> Option<Side>
    ensures { result ≡ found_in edges last }
{
    match last {
        b'H' => Some(Side::Left),
        b'F' => Some(Side::Right),
        _ => None,
    }
}

/// The side of Home or End, by their numbers.
fn numbered_edge_of(n: u16) -> Option<Side>
    ensures { result ≡ found_in numbered_edges n }
{
    match n {
        1 | 7 => Some(Side::Left),
        4 | 8 => Some(Side::Right),
        _ => None,
    }
}

/// The side of PageUp or PageDown, by their numbers.
fn page_of(n: u16) -> Option<Side>
    ensures { result ≡ found_in pages n }
{
    match n {
        5 => Some(Side::Up),
        6 => Some(Side::Down),
        _ => None,
    }
}
