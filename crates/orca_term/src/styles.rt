//! The styles of the picture. They are those of ECMA-48, select graphic rendition.

ghost use Rattle.std.specs.Prelude.{◌≡◌, false, true};
ghost use Rattle.orca_base.specs.MarkSet.{no_marks};
ghost use Rattle.orca_term.specs.Picture.{style_by};

use orca_base::{Glyph, Mark, Marks};

/// No style.
pub(crate) const PLAIN: u8 = 0;

/// Bold.
const BOLD: u8 = 1;

/// Faint.
pub(crate) const FAINT: u8 = 2;

/// Underlined.
const UNDERLINED: u8 = 4;

/// With the colours of letter and ground exchanged.
const REVERSED: u8 = 7;

/// On a magenta ground.
const ON_MAGENTA: u8 = 45;

/// Bright red.
pub(crate) const BRIGHT_RED: u8 = 91;

/// The style of each byte below 128 as a glyph that nothing marks.
static COLOURS: [u8; 128] = [
    // Controls and the space.
    0, 0, 0, 0, 0, 0, 0, 0, 0, 0, 0, 0, 0, 0, 0, 0, 0, 0, 0, 0, 0, 0, 0, 0, 0, 0, 0, 0, 0, 0, 0, 0,
    0,
    // `!` to `/`: `*` is bright red, `#` and `.` are faint.
    35, 0, 2, 0, 35, 0, 0, 0, 0, 91, 0, 0, 0, 2, 0,
    // `0` to `9`.
    0, 0, 0, 0, 0, 0, 0, 0, 0, 0,
    // `:` to `@`.
    35, 35, 0, 35, 0, 35, 0,
    // `A` to `Z`, which work in each frame, are bright blue.
    94, 94, 94, 94, 94, 94, 94, 94, 94, 94, 94, 94, 94, 94, 94, 94, 94, 94, 94, 94, 94, 94, 94, 94,
    94, 94,
    // `[` to the backquote.
    0, 0, 0, 0, 0, 0,
    // `a` to `z` wait for a bang, as the signs do that are magenta.
    35, 35, 35, 35, 35, 35, 35, 35, 35, 35, 35, 35, 35, 35, 35, 35, 35, 35, 35, 35, 35, 35, 35, 35,
    35, 35,
    // `{` to the last control.
    0, 0, 0, 0, 0,
];

/// The style of a place, with colours where the guide shows.
pub(crate) fn style_by(guided: bool, selected: bool, met: bool, marks: Marks, glyph: Glyph) -> u8
    ensures { result ≡ style_by guided selected met marks glyph }
{
    if selected {
        REVERSED
    } else if met {
        ON_MAGENTA
    } else if marks.is_empty() {
        // Most places have no mark, and one test is enough for them.
        glyph_style(guided, glyph)
    } else if marks.has(Mark::Output) {
        output_style(guided, glyph)
    } else if marks.has(Mark::Input) {
        UNDERLINED
    } else if marks.has(Mark::Lock) || marks.has(Mark::Sleep) {
        FAINT
    } else {
        glyph_style(guided, glyph)
    }
}

/// The style of a glyph where neither a cursor nor a mark gives one.
#[tactic(auto, using(crate::proofs::Colours::colour_table))]
fn glyph_style(guided: bool, glyph: Glyph) -> u8
    ensures { result ≡ style_by guided false false no_marks glyph }
{
    if guided {
        COLOURS[usize::from(glyph.byte())]
    } else if glyph == Glyph::EMPTY {
        FAINT
    } else {
        PLAIN
    }
}

/// The style of an output.
fn output_style(guided: bool, glyph: Glyph) -> u8
    ensures { result ≡ style_by guided false false (record no_marks { output = true }) glyph }
{
    if guided && glyph == Glyph::BANG {
        BRIGHT_RED
    } else {
        BOLD
    }
}
