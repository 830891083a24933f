ghost use Rattle.std.specs.Prelude.{◌≡◌, ◌↔◌, IsTrue, IsSome};
ghost use Rattle.orca_base.specs.Glyphs.{is_operator};

use orca_base::Glyph;

/// The 34 operators, by the names of the Orca operator reference.
#[derive(Clone, Copy, Debug, PartialEq, Eq)]
pub enum Kind {
    /// `A`
    Add,
    /// `B`
    Subtract,
    /// `C`
    Clock,
    /// `D`
    Delay,
    /// `E`
    East,
    /// `F`
    IfEqual,
    /// `G`
    Generator,
    /// `H`
    Halt,
    /// `I`
    Increment,
    /// `J`
    Jumper,
    /// `K`
    Konkat,
    /// `L`
    Lesser,
    /// `M`
    Multiply,
    /// `N`
    North,
    /// `O`
    ReadAt,
    /// `P`
    Push,
    /// `Q`
    Query,
    /// `R`
    Random,
    /// `S`
    South,
    /// `T`
    Track,
    /// `U`
    Uclid,
    /// `V`
    Variable,
    /// `W`
    West,
    /// `X`
    WriteAt,
    /// `Y`
    Jymper,
    /// `Z`
    Lerp,
    /// `*`
    Bang,
    /// `#`
    Comment,
    /// `:`
    Midi,
    /// `%`
    Mono,
    /// `!`
    ControlChange,
    /// `?`
    PitchBend,
    /// `;`
    UdpText,
    /// `=`
    OscMessage,
}

impl Kind {
    ghost use Rattle.orca_op.specs.Kinds.{kind_of};

    /// The kind of an operator glyph, a letter being of one kind in either case; none of any other
    /// glyph.
    #[tactic(auto, unfolding(crate::specs::Kinds::kind_of, orca_base::specs::Glyphs::is_operator))]
    pub fn of(glyph: Glyph) -> Option<Kind>
        ensures kind { result ≡ kind_of glyph }
        ensures operator { IsSome result ↔ IsTrue (is_operator glyph) }
    {
        match glyph.byte() {
            b'A' | b'a' => Some(Kind::Add),
            b'B' | b'b' => Some(Kind::Subtract),
            b'C' | b'c' => Some(Kind::Clock),
            b'D' | b'd' => Some(Kind::Delay),
            b'E' | b'e' => Some(Kind::East),
            b'F' | b'f' => Some(Kind::IfEqual),
            b'G' | b'g' => Some(Kind::Generator),
            b'H' | b'h' => Some(Kind::Halt),
            b'I' | b'i' => Some(Kind::Increment),
            b'J' | b'j' => Some(Kind::Jumper),
            b'K' | b'k' => Some(Kind::Konkat),
            b'L' | b'l' => Some(Kind::Lesser),
            b'M' | b'm' => Some(Kind::Multiply),
            b'N' | b'n' => Some(Kind::North),
            b'O' | b'o' => Some(Kind::ReadAt),
            b'P' | b'p' => Some(Kind::Push),
            b'Q' | b'q' => Some(Kind::Query),
            b'R' | b'r' => Some(Kind::Random),
            b'S' | b's' => Some(Kind::South),
            b'T' | b't' => Some(Kind::Track),
            b'U' | b'u' => Some(Kind::Uclid),
            b'V' | b'v' => Some(Kind::Variable),
            b'W' | b'w' => Some(Kind::West),
            b'X' | b'x' => Some(Kind::WriteAt),
            b'Y' | b'y' => Some(Kind::Jymper),
            b'Z' | b'z' => Some(Kind::Lerp),
            b'*' => Some(Kind::Bang),
            b'#' => Some(Kind::Comment),
            b':' => Some(Kind::Midi),
            b'%' => Some(Kind::Mono),
            b'!' => Some(Kind::ControlChange),
            b'?' => Some(Kind::PitchBend),
            b';' => Some(Kind::UdpText),
            b'=' => Some(Kind::OscMessage),
            _ => None,
        }
    }
}
