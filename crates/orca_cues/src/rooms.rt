//! The text of a room: a grid, an empty line, and a script.

ghost use Rattle.std.specs.Prelude.{◌≡◌, ◌≤◌, IfSome, length};
ghost use Rattle.std.specs.Option.{option_map};
ghost use Rattle.orca_cues.specs.Rooms.{room_in, room_parts, whole_lines};

/// What stands in a room.
#[derive(Clone, Copy, Drop)]
pub struct Room<'a> {
    /// The text of a grid: what stands before the first empty line.
    pub grid: &'a [u8],
    /// The text of a script: what stands behind that line.
    pub script: &'a [u8],
}

/// The parts of the text of a room, if it has an empty line: a line feed at its start, or right
/// behind another.
pub fn room_parts(text: &[u8]) -> Option<Room<'_>>
    ensures parts { option_map room_in result ≡ room_parts text.now }
    ensures short { IfSome result (λ room. (length room.grid.now ≤ length text.now)
        × (length room.script.now ≤ length text.now)) }
{
    let mut begins = true;
    for (i, byte) in text.iter().enumerate() {
        let ends = *byte == b'\n';
        if begins && ends {
            return Some(Room {
                grid: &text[..i],
                script: &text[i + 1..],
            });
        }
        begins = ends;
    }
    None
}

/// The whole lines of a text: all up to its last line feed. A line that was cut off is none.
pub fn whole_lines(text: &[u8]) -> &[u8]
    ensures lines { result.now ≡ whole_lines text.now }
    ensures short { length result.now ≤ length text.now }
{
    let mut end = text.len();
    while end > 0 && text[end - 1] != b'\n' {
        end -= 1;
    }
    &text[..end]
}
