//! What a terminal reads: whole forms of ECMA-48, and bytes that it shows.

ghost use Rattle.std.specs.Prelude.{◌≡◌, ◌<◌, IsTrue};
ghost use Rattle.orca_base.specs.Glyphs.{is_digit};
ghost use Rattle.orca_term.specs.Forms.{IsNumber, IsReading, StepsOn, more, read_first, read_second, read};

use crate::limits::{FORM_DIGITS, MAX_STYLE};

/// What a terminal reads as one.
#[derive(Clone, Copy, Debug, PartialEq, Eq)]
pub(crate) enum Form {
    /// `ESC [ row ; column H` (cursor position): the cursor goes there. Both are counted from 1.
    GoTo {
        /// The row.
        row: u16,
        /// The column.
        column: u16,
    },
    /// `ESC [ style m` (select graphic rendition): the style of what is shown from here on.
    Style(u8),
    /// A byte that is shown.
    Show(u8),
}

/// A number that has begun.
#[derive(Clone, Copy, Debug, PartialEq, Eq)]
pub(crate) struct Number {
    /// How many digits it has so far.
    pub(crate) digits: u8,
    /// Their value.
    pub(crate) value: u16,
}

/// What of a form was read.
#[derive(Clone, Copy, Debug, PartialEq, Eq)]
pub(crate) enum Reading {
    /// Nothing.
    Ready,
    /// ESC.
    Escaped,
    /// `ESC [` and a number.
    First(Number),
    /// `ESC [`, a row, `;` and a number.
    Second(u16, Number),
}

/// What a byte more makes of it.
#[derive(Clone, Copy, Debug, PartialEq, Eq)]
pub(crate) enum Step {
    /// The form goes on.
    Goes(Reading),
    /// The form is whole.
    Gives(Form),
    /// There is no such form.
    Breaks,
}

/// No digits.
pub(crate) const NO_DIGITS: Number = Number {
    digits: 0,
    value: 0,
};

/// Reads a byte more.
#[tactic(auto, unfolding(crate::specs::Forms::read))]
pub(crate) fn read(reading: Reading, byte: u8) -> Step
    requires { IsReading reading }
    ensures step { result ≡ read reading byte }
    ensures goes_on { StepsOn result }
{
    match reading {
        Reading::Ready => match byte {
            0x1B => Step::Goes(Reading::Escaped),
            0x20..=0x7E => Step::Gives(Form::Show(byte)),
            _ => Step::Breaks,
        },
        Reading::Escaped => match byte {
            b'[' => Step::Goes(Reading::First(NO_DIGITS)),
            _ => Step::Breaks,
        },
        Reading::First(number) => read_first(number, byte),
        Reading::Second(row, number) => read_second(row, number, byte),
    }
}

/// A byte after `ESC [` and a number.
fn read_first(number: Number, byte: u8) -> Step
    requires { IsReading (Reading.First number) }
    ensures step { result ≡ read_first number byte }
    ensures goes_on { StepsOn result }
{
    if byte.is_ascii_digit() && usize::from(number.digits) < FORM_DIGITS {
        return Step::Goes(Reading::First(more(number, byte)));
    }
    match byte {
        b';' if number.value >= 1 => Step::Goes(Reading::Second(number.value, NO_DIGITS)),
        b'm' if number.digits >= 1 && number.value <= u16::from(MAX_STYLE) => {
            Step::Gives(Form::Style(number.value as u8))
        }
        _ => Step::Breaks,
    }
}

/// A byte after `ESC [`, a row, `;` and a number.
fn read_second(row: u16, number: Number, byte: u8) -> Step
    requires { IsReading (Reading.Second row number) }
    ensures step { result ≡ read_second row number byte }
    ensures goes_on { StepsOn result }
{
    if byte.is_ascii_digit() && usize::from(number.digits) < FORM_DIGITS {
        return Step::Goes(Reading::Second(row, more(number, byte)));
    }
    match byte {
        b'H' if number.value >= 1 => Step::Gives(Form::GoTo {
            row,
            column: number.value,
        }),
        _ => Step::Breaks,
    }
}

/// A digit more.
pub(crate) fn more(number: Number, digit: u8) -> Number
    requires number { IsNumber number }
    requires room { number.digits < FORM_DIGITS }
    requires digit { IsTrue (is_digit digit) }
    ensures more { result ≡ more number digit }
    ensures number { IsNumber result }
{
    Number {
        digits: number.digits + 1,
        value: number.value * 10 + u16::from(digit - b'0'),
    }
}
