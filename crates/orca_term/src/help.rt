//! The pages of help.

ghost use Rattle.std.specs.Prelude.{◌≡◌, All};
ghost use Rattle.orca_term.specs.Help.{page_line};
ghost use Rattle.orca_term.specs.Picture.{IsPrintableByte};

/// The rows of the page that tells the keys.
pub static KEYS_PAGE: [&[u8]; 23] = [
    b"KEYS          F1 again: the operators; any other key: the piece",
    b"",
    b"a glyph       writes it                arrows       go; with Ctrl by 8",
    b"Backspace     erases the selection     Home End     to the first, last column",
    b"Tab           types on to the right    PgUp PgDn    up, down by 8",
    b"Escape        one place; ends Tab      Shift ..     selects, with each of these",
    b"Ctrl-C X V    copy, cut, paste         Ctrl-A       selects all",
    b"Ctrl-K        fills with this glyph    Alt arrow    slides what is selected",
    b"Delete        erases the selection     Alt Shift ..  a row or column more, fewer",
    b"",
    b"Ctrl-U        takes your last edit back, and the time goes on",
    b"Ctrl-Z        goes back to before the last edit; Ctrl-Y comes back",
    b"Ctrl-B        goes back by 16 moments",
    b"",
    b"space         pauses, plays on         F7 F8        a beat a minute less, more",
    b"Ctrl-F        plays one frame          F6 F9        ten less, more",
    b"Ctrl-E        ends all notes           F2 Ctrl-T    shows what is sent",
    b"Ctrl-R        ends them, from tick 0   Ctrl-G       the guide, or none",
    b"Ctrl-S        saves                    Ctrl-L       paints all anew",
    b"Ctrl-Q        quits                    F1 Ctrl-P    this page",
    b"",
    b"LAST ROW      tick, moments, notes that sound, cursor, selection, play or pause,",
    b"              tempo, what your last key came to, and the operator at the cursor",
];

/// The rows of the page that tells the operators.
pub static OPERATORS_PAGE: [&[u8]; 23] = [
    b"OPERATORS     F1: the piece. Upper case works in each frame, lower beside a bang",
    b"",
    b"A   a A b        their sum             S   S            goes down",
    b"B   a B b        their distance        T   key n T ..   one of n at the right",
    b"C   rate C mod   counts                U   step U max   bangs, spread evenly",
    b"D   rate D mod   bangs                 V   name V v     sets; V name: reads",
    b"E   E            goes right            W   W            goes left",
    b"F   a F b        bangs if equal        X   x y X v      writes v at x, y",
    b"G   x y n G ..   writes n at x, y      Y   Y            left to right",
    b"H   H            locks below           Z   rate Z to    below goes there",
    b"I   step I mod   below counts          *   *            bangs, and goes",
    b"J   J            above to below        #   # .. #       a comment",
    b"K   n K names    their values          :   : 0 4 C v n  MIDI: channel, octave,",
    b"L   a L b        the smaller                            note, velocity, frames",
    b"M   a M b        their product         %   % 0 4 C v n  one note a channel",
    b"N   N            goes up               !   ! 0 c v      control change",
    b"O   x y O        reads at x, y         ?   ? 0 l m      pitch bend",
    b"P   key n P v    one of n below        ;   ; text       UDP",
    b"Q   x y n Q      reads n at x, y       =   = a v ..     OSC: path, values",
    b"R   min R max    a random value",
    b"",
    b"What is not said goes below. x counts to the right, y down. A value is 0 to 9,",
    b"A to Z. An operator locks what it reads and writes; what is locked is a value.",
];

/// A row of a page, counted from 0; below its last row there is nothing.
pub(crate) fn page_line(page: u8, y: u16) -> &'static [u8]
    ensures line { result.now ≡ page_line page y }
    ensures printable { All IsPrintableByte result.now }
{
    if page == 1 {
        keys_line(y)
    } else {
        operators_line(y)
    }
}

/// A row of the keys.
fn keys_line(y: u16) -> &'static [u8]
    ensures { result.now ≡ page_line 1 y }
{
    let y = usize::from(y);
    if y < KEYS_PAGE.len() {
        KEYS_PAGE[y]
    } else {
        b""
    }
}

/// A row of the operators.
fn operators_line(y: u16) -> &'static [u8]
    ensures { result.now ≡ page_line 2 y }
{
    let y = usize::from(y);
    if y < OPERATORS_PAGE.len() {
        OPERATORS_PAGE[y]
    } else {
        b""
    }
}
