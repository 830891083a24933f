//! The status line.

ghost use Rattle.std.specs.Prelude.{◌≡◌, ◌==◌, ◌+◌, ◌%◌, ◌≤◌, [], ◌∷◌, ◌++◌, codes, if◌then◌else◌, length, All};
ghost use Rattle.std.specs.Fmt.{decimal};
ghost use Rattle.orca_term.specs.Picture.{IsPrintable, IsPrintableByte, state_word, status_cells, status_front, tempo_word, warned, warning_cells, word_style};
ghost use Rattle.orca_term.specs.declared.limits.TheConstants.{STATUS_CELLS, WARNING_BYTES};
ghost use Rattle.orca_term.specs.Words.{glyph_words};

use crate::limits::{FRONT_BYTES, NAME_BYTES};
use crate::names::operator_name;
use crate::picture::BLANK;
use crate::strip::Strip;
use crate::styles::{BRIGHT_RED, PLAIN};
use crate::{Came, Editor};
use itoa::Buffer;
use orca_base::limits::{BEAT_FRAMES, MAX_DIGITS};
use orca_base::{Glyph, Inline};

/// The text of a status line before the warnings.
type FrontText = Inline<FRONT_BYTES>;

/// The most bytes of how many hands are away.
const AWAY_BYTES: usize = MAX_DIGITS + 5;

/// The most bytes of a glyph and its name.
const WORDS_BYTES: usize = NAME_BYTES + 3;

/// What the status line tells besides the editor.
#[derive(Clone, Copy, Debug, PartialEq, Eq)]
pub struct StatusLine {
    /// The number of the next frame.
    pub tick: u32,
    /// How many entries the history has.
    pub moments: u32,
    /// How many notes sound.
    pub sounding: u32,
    /// The tempo, in beats a minute.
    pub tempo: u16,
    /// Whether the MIDI port is lost.
    pub no_midi: bool,
    /// Whether the UDP port is lost.
    pub no_udp: bool,
    /// Whether the OSC port is lost.
    pub no_osc: bool,
    /// Whether the journal is lost.
    pub no_journal: bool,
    /// How many hands are away.
    pub away: u8,
    /// Whether the last save failed, which is told where else all were well.
    pub unsaved: bool,
    /// Whether the word of the last key is red where it warns.
    pub warns: bool,
    /// What the last key came to.
    pub came: Came,
}

/// The cells of the status line, with this glyph at the cursor.
#[tactic(auto, unfolding(crate::specs::Picture::status_cells))]
pub(crate) fn status_cells(editor: &Editor, glyph: Glyph, line: &StatusLine) -> Strip
    ensures cells { result ≡ status_cells editor.now glyph line.now }
    ensures printable { All IsPrintable result }
{
    let mut strip = Strip::empty();
    strip.push_text(PLAIN, status_front(editor, line).as_slice());
    push_warnings(&mut strip, line);
    strip.push_text(word_style(line), line.came.word(line.unsaved));
    strip.push_text(PLAIN, operator_words(editor, glyph).as_slice());
    strip
}

/// The style of the word that tells what the last key came to.
fn word_style(line: &StatusLine) -> u8
    ensures { result ≡ word_style line.now }
{
    if line.warns && line.came.is_warning(line.unsaved) {
        return BRIGHT_RED;
    }
    PLAIN
}

/// Appends what is lost, and how many hands are away.
fn push_warnings(strip: &mut Strip, line: &StatusLine)
    requires room { length strip.old + WARNING_BYTES ≤ STATUS_CELLS }
    requires printable { All IsPrintable strip.old }
    ensures cells { strip.new ≡ strip.old ++ warning_cells line.now }
    ensures short { length strip.new ≤ length strip.old + WARNING_BYTES }
    ensures printable { All IsPrintable strip.new }
{
    push_warning(strip, line.no_midi, b"no midi");
    push_warning(strip, line.no_udp, b"no udp");
    push_warning(strip, line.no_osc, b"no osc");
    push_warning(strip, line.no_journal, b"no journal");
    push_warning(strip, line.away > 0, away_words(line.away).as_slice());
}

/// Appends a warning where it holds, and a space after it.
fn push_warning(strip: &mut Strip, holds: bool, text: &[u8])
    requires room { length strip.old + length text.now + 1 ≤ STATUS_CELLS }
    requires text { All IsPrintableByte text.now }
    requires printable { All IsPrintable strip.old }
    ensures cells { strip.new ≡ strip.old ++ warned holds text.now }
    ensures short { length strip.new ≤ length strip.old + length text.now + 1 }
    ensures printable { All IsPrintable strip.new }
{
    if !holds {
        return;
    }
    strip.push_text(BRIGHT_RED, text);
    strip.push(BLANK);
}

/// How many hands are away, in words.
fn away_words(away: u8) -> Inline<AWAY_BYTES>
    ensures words { result ≡ decimal away ++ codes " away" }
    ensures printable { All IsPrintableByte result }
{
    let mut words = Inline::empty();
    push_word(&mut words, decimal(u32::from(away)).as_slice());
    push_word(&mut words, b" away");
    words
}

/// A glyph and its name, where the guide shows and the glyph is an operator.
fn operator_words(editor: &Editor, glyph: Glyph) -> Inline<WORDS_BYTES>
    ensures words { result ≡ (if editor.now.guide then glyph_words glyph else []) }
    ensures printable { All IsPrintableByte result }
{
    let mut words = Inline::empty();
    let name = if editor.guide {
        operator_name(glyph)
    } else {
        None
    };
    let Some(name) = name else {
        return words;
    };
    words.extend(&[b' ', glyph.byte(), b' ']);
    words.extend(name.as_bytes());
    words
}

/// The text of the status line before the warnings.
#[tactic(auto, unfolding(crate::specs::Picture::status_front))]
fn status_front(editor: &Editor, line: &StatusLine) -> FrontText
    ensures text { result ≡ status_front editor.now line.now }
    ensures printable { All IsPrintableByte result }
{
    let mut text = FrontText::empty();
    push_number(&mut text, line.tick, b' ');
    push_number(&mut text, line.moments, b' ');
    push_number(&mut text, line.sounding, b' ');
    push_number(&mut text, u32::from(editor.y), b',');
    push_number(&mut text, u32::from(editor.x), b' ');
    push_number(&mut text, u32::from(editor.h), b'x');
    push_number(&mut text, u32::from(editor.w), b' ');
    push_word(&mut text, state_word(editor.paused));
    push_tempo(&mut text, editor, line);
    push_word(&mut text, word_if(editor.append, b" append"));
    push_word(&mut text, word_if(editor.flow.is_some(), b" paste"));
    push_word(&mut text, b" ");
    text
}

/// Appends the tempo and the beat, where the guide shows.
fn push_tempo(text: &mut FrontText, editor: &Editor, line: &StatusLine)
    requires room { length text.old + MAX_DIGITS + 3 ≤ FRONT_BYTES }
    requires printable { All IsPrintableByte text.old }
    ensures text { text.new
        ≡ text.old ++ (if editor.now.guide then codes " " ++ tempo_word line.now else []) }
    ensures short { length text.new ≤ length text.old + MAX_DIGITS + 3 }
    ensures printable { All IsPrintableByte text.new }
{
    if !editor.guide {
        return;
    }
    push_word(text, b" ");
    push_number(text, u32::from(line.tempo), b' ');
    push_word(text, beat_word(line.tick));
}

/// Whether the frame before this one begins a beat.
fn beat_word(tick: u32) -> &'static [u8]
    ensures word { result.now
        ≡ (if tick % BEAT_FRAMES == 1 then codes "*" else codes ".") }
    ensures printable { All IsPrintableByte result.now }
    ensures short { length result.now ≡ 1 }
{
    if u64::from(tick) % BEAT_FRAMES == 1 {
        b"*"
    } else {
        b"."
    }
}

/// A word where it holds, and else none.
fn word_if(holds: bool, word: &'static [u8]) -> &'static [u8]
    requires { All IsPrintableByte word.now }
    ensures word { result.now ≡ (if holds then word.now else []) }
    ensures printable { All IsPrintableByte result.now }
    ensures short { length result.now ≤ length word.now }
{
    if holds { word } else { b"" }
}

/// Appends a number and the byte after it.
#[tactic(auto, using(crate::proofs::Digits::decimal_short))]
fn push_number(text: &mut FrontText, n: u32, after: u8)
    requires room { length text.old + MAX_DIGITS + 1 ≤ FRONT_BYTES }
    requires printable { All IsPrintableByte text.old × IsPrintableByte after }
    ensures text { text.new ≡ text.old ++ decimal n ++ after ∷ [] }
    ensures short { length text.new ≤ length text.old + MAX_DIGITS + 1 }
    ensures printable { All IsPrintableByte text.new }
{
    text.extend(decimal(n).as_slice());
    text.push(after);
}

/// Appends a word.
pub(crate) fn push_word<const ROOM: usize>(text: &mut Inline<ROOM>, word: &[u8])
    requires room { length text.old + length word.now ≤ ROOM }
    requires printable { All IsPrintableByte text.old × All IsPrintableByte word.now }
    ensures text { text.new ≡ text.old ++ word.now }
    ensures printable { All IsPrintableByte text.new }
{
    text.extend(word);
}

/// Whether the performance goes on.
fn state_word(paused: bool) -> &'static [u8]
    ensures word { result.now ≡ state_word paused }
    ensures printable { All IsPrintableByte result.now }
    ensures short { length result.now ≤ 5 }
{
    if paused { b"pause" } else { b"play" }
}

/// A number in decimal digits, without leading zeros.
#[tactic(auto, using(crate::proofs::Digits::decimal_printable))]
pub(crate) fn decimal(n: u32) -> Inline<MAX_DIGITS>
    ensures decimal { result ≡ decimal n }
    ensures printable { All IsPrintableByte result }
{
    let mut digits = Inline::empty();
    digits.extend(Buffer::new().format(n).as_bytes());
    digits
}
