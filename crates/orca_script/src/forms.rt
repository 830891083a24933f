//! The forms of a line of the grammar.

ghost use Rattle.std.specs.Prelude.{◌≡◌};
ghost use Rattle.orca_script.specs.LineValues.{letters_of};

/// What a word after the first stands for.
#[derive(Clone, Copy, Debug, PartialEq, Eq)]
pub(crate) enum Kind {
    /// A number.
    Number,
    /// A glyph.
    Glyph,
    /// Nothing: it is this word.
    Word(Fixed),
}

/// A word after the first that stands for nothing.
#[derive(Clone, Copy, Debug, PartialEq, Eq)]
pub(crate) enum Fixed {
    /// The number of the format.
    Two,
    /// What comes before the seed.
    Seed,
}

impl Fixed {
    /// The letters of the word.
    pub(crate) fn letters(self) -> &'static [u8]
        ensures { result.now ≡ letters_of self }
    {
        match self {
            Fixed::Two => b"2",
            Fixed::Seed => b"seed",
        }
    }
}

/// The name of a command: that of its variant of [`Command`](orca_base::Command).
#[derive(Clone, Copy, Debug, PartialEq, Eq)]
pub(crate) enum Verb {
    Frame,
    Write,
    Fill,
    Erase,
    Copy,
    Cut,
    Clip,
    Paste,
    Move,
    Resize,
    Reset,
    Undo,
    Rewind,
    Redo,
    Retract,
    Hush,
}

/// A form of a line: its first word, what each further word stands for, and the command that it asks
/// for.
pub(crate) type Form = (&'static [u8], &'static [Kind], Verb);

/// A form of a line that gives one number: its first word, and what each further word stands for.
pub(crate) type NumberForm = (&'static [u8], &'static [Kind]);

const N: Kind = Kind::Number;

const G: Kind = Kind::Glyph;

/// The grammar: a line that asks for a command is one of these forms. A form has at most
/// [`MAX_LINE_VALUES`](crate::limits::MAX_LINE_VALUES) values, one glyph among them.
pub(crate) static FORMS: [Form; 16] = [
    (b"frame", &[], Verb::Frame),
    (b"write", &[N, N, G], Verb::Write),
    (b"fill", &[N, N, N, N, G], Verb::Fill),
    (b"erase", &[N, N, N, N], Verb::Erase),
    (b"copy", &[N, N, N, N], Verb::Copy),
    (b"cut", &[N, N, N, N], Verb::Cut),
    (b"clip", &[N, N, G], Verb::Clip),
    (b"paste", &[N, N], Verb::Paste),
    (b"move", &[N, N, N, N, N, N], Verb::Move),
    (b"resize", &[N, N], Verb::Resize),
    (b"reset", &[], Verb::Reset),
    (b"undo", &[], Verb::Undo),
    (b"rewind", &[N], Verb::Rewind),
    (b"redo", &[], Verb::Redo),
    (b"retract", &[N], Verb::Retract),
    (b"hush", &[], Verb::Hush),
];

/// The form that format 2 has beside those of the table: so many frames.
pub(crate) static FRAMES: NumberForm = (b"frames", &[N]);

/// The form of the first line of format 2, which gives the seed.
pub(crate) static HEADER: NumberForm = (
    b"!orca",
    &[Kind::Word(Fixed::Two), Kind::Word(Fixed::Seed), N],
);
