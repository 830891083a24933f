//! Reading a line along one form, byte by byte.

ghost use Rattle.std.specs.Prelude.{◌≡◌, ◌+◌, ◌≤◌, length, IfErr};
ghost use Rattle.orca_script.specs.LineValues.{none};
ghost use Rattle.orca_script.specs.Readers.{form_of, values_at_end, read_on, read_form as line_by_form, read_number as number_by_form};
ghost use Rattle.orca_script.specs.Reading.{Letters, state, value_start, longer_number, step};

use crate::forms::{Form, Kind, NumberForm};
use crate::limits::MAX_LINE_VALUES;
use crate::values::Values;
use orca_base::limits::MAX_DIGITS;
use orca_base::{Command, Glyph};
use std::marker::Model;

/// What comes next on a line of a form.
#[derive(Clone, Copy)]
pub(crate) enum Next<'a> {
    /// These letters, then a space or the end of the line, and values of these kinds.
    Letters(&'a [u8], &'a [Kind]),
    /// A space has come: more of them, and values of these kinds.
    Blank(&'a [Kind]),
    /// So many digits of a number have come, with this value: more of them, and values of these
    /// kinds.
    Digits(usize, u32, &'a [Kind]),
}

/// How far a line is read along a form.
#[derive(Drop)]
pub(crate) struct Reader<'a> {
    next: Next<'a>,
    values: Values,
}

impl<'a> Model for Reader<'a> {
    ghost use Rattle.std.specs.Prelude.{◌+◌, ◌≤◌, length};
    ghost use Rattle.orca_script.specs.Readers.{values_left};
    ghost use Rattle.orca_script.specs.Reading.{ReadState};
    ghost use Rattle.orca_script.specs.declared.limits.TheConstants.{MAX_LINE_VALUES};

    ghost Value = { ReadState };

    ghost use Rattle.orca_script.specs.Readers.{next_of};

    ghost view = { λ r. record { next = next_of r.next; values = r.values } };

    ghost invariant = { λ r.
        length r.values.numbers + values_left (next_of r.next) ≤ MAX_LINE_VALUES };
}

impl<'a> Reader<'a> {
    /// Nothing is read, and this word and values of these kinds come next.
    fn start(word: &'a [u8], kinds: &'a [Kind]) -> Reader<'a>
        requires { length kinds.now ≤ MAX_LINE_VALUES }
        ensures { result ≡ state (Letters word.now kinds.now) none }
    {
        Reader {
            next: Next::Letters(word, kinds),
            values: Values::none(),
        }
    }

    /// After one more byte; none where the line leaves the form there.
    #[tactic(auto, unfolding(crate::specs::Reading::step))]
    fn after(self, byte: u8) -> Option<Reader<'a>>
        ensures { result ≡ step self.entry.next self.entry.values byte }
    {
        let Reader { next, mut values } = self;
        match next {
            Next::Letters(word, kinds) => {
                let (letter, next) = match word {
                    [] => (b' ', Next::Blank(kinds)),
                    [letter, word @ ..] => (*letter, Next::Letters(word, kinds)),
                };
                (byte == letter).then_some(Reader { next, values })
            }
            Next::Blank(kinds) if byte != b' ' => begin_value(kinds, values, byte),
            Next::Blank(_) => Some(Reader { next, values }),
            Next::Digits(count, value, kinds) if byte != b' ' => {
                let (count, value) = add_digit(count, value, byte)?;
                Some(Reader {
                    next: Next::Digits(count, value, kinds),
                    values,
                })
            }
            Next::Digits(_, value, kinds) => {
                values.add_number(value);
                Some(Reader {
                    next: Next::Blank(kinds),
                    values,
                })
            }
        }
    }

    /// What is values where the line ends; none where the form goes on.
    #[tactic(auto, unfolding(crate::specs::Readers::values_at_end))]
    fn end(self) -> Option<Values>
        ensures { result ≡ values_at_end self.entry.next self.entry.values }
    {
        let Reader { next, mut values } = self;
        match next {
            Next::Letters([], []) | Next::Blank([]) => Some(values),
            Next::Digits(_, value, []) => {
                values.add_number(value);
                Some(values)
            }
            _ => None,
        }
    }
}

/// After the first byte of a value. A glyph has no other.
fn begin_value<'a>(kinds: &'a [Kind], mut values: Values, byte: u8) -> Option<Reader<'a>>
    requires { length values.numbers + length kinds.now ≤ MAX_LINE_VALUES }
    ensures { result ≡ value_start kinds.now values byte }
{
    let (kind, kinds) = kinds.split_first()?;
    let next = match kind {
        Kind::Number => {
            let (count, value) = add_digit(0, 0, byte)?;
            Next::Digits(count, value, kinds)
        }
        Kind::Glyph => {
            values.set_glyph(Glyph::of(byte)?);
            Next::Letters(&[], kinds)
        }
        Kind::Word(fixed) => match fixed.letters() {
            [letter, word @ ..] if byte == *letter => Next::Letters(word, kinds),
            _ => return None,
        },
    };
    Some(Reader { next, values })
}

/// A number of so many digits and this value, with one digit more; none where the byte is no digit, or
/// the number is too long or too large.
fn add_digit(count: usize, value: u32, byte: u8) -> Option<(usize, u32)>
    ensures { result ≡ longer_number count value byte }
{
    if !byte.is_ascii_digit() || count >= MAX_DIGITS {
        return None;
    }
    let value = value.checked_mul(10)?.checked_add(u32::from(byte - b'0'))?;
    Some((count + 1, value))
}

/// The command of a line by a form; else how many bytes of the line go along the form.
pub(crate) fn read_form(form: &Form, line: &[u8]) -> Result<Command, usize>
    requires { length form.now.1.now ≤ MAX_LINE_VALUES }
    ensures read { result ≡ line_by_form (form_of form.now) line.now }
    ensures within { IfErr result (λ count. count ≤ length line.now) }
{
    let (word, kinds, verb) = *form;
    match read_values(word, kinds, line) {
        Ok(values) => Ok(values.command(verb)),
        Err(count) => Err(count),
    }
}

/// The number of a line by a form of one number; else how many bytes of the line go along the form.
pub(crate) fn read_number(form: &NumberForm, line: &[u8]) -> Result<u32, usize>
    requires { length form.now.1.now ≤ MAX_LINE_VALUES }
    ensures read { result ≡ number_by_form form.now.0.now form.now.1.now line.now }
    ensures within { IfErr result (λ count. count ≤ length line.now) }
{
    let (word, kinds) = *form;
    match read_values(word, kinds, line) {
        Ok(values) => Ok(values.number(0)),
        Err(count) => Err(count),
    }
}

/// What the words of a line give by a form of this word and these kinds; else how many bytes of the line
/// go along the form.
#[tactic(auto, unfolding(crate::specs::Readers::read_on))]
fn read_values(word: &[u8], kinds: &[Kind], line: &[u8]) -> Result<Values, usize>
    requires { length kinds.now ≤ MAX_LINE_VALUES }
    ensures read { result ≡ read_on line.now 0 (state (Letters word.now kinds.now) none) }
    ensures within { IfErr result (λ count. count ≤ length line.now) }
{
    let mut reader = Reader::start(word, kinds);
    for (i, byte) in line.iter().enumerate() {
        match reader.after(*byte) {
            Some(next) => reader = next,
            None => return Err(i),
        }
    }
    reader.end().ok_or(line.len())
}
