ghost use Rattle.std.specs.Prelude.{◌≡◌, ◌≢◌, ◌∷◌, ◌++◌, [], ℕ, Some, Ok, List, All};
ghost use Rattle.std.specs.List.{flat_map};
ghost use Rattle.orca_base.specs.Ascii.{line_feed};
ghost use Rattle.orca_base.specs.Grids.{IsSheet, Sheet};
ghost use Rattle.orca_base.specs.declared.command.Command.{Command};
ghost use Rattle.orca_grid.specs.GridText.{text_of};
ghost use Rattle.orca_script.specs.Canonical.{printed, line_of, HasValues};
ghost use Rattle.orca_script.specs.Runs.{lines_behind, printed_script, CommandReadsBack, ScriptReadsBack};
ghost use Rattle.orca_cues.specs.Rooms.{room_parts, whole_lines};
ghost use Rattle.orca_cues.specs.Scripts.{any_script_of, cues_asking, script_of, seed_in, one_a_line};

/// The script of printed commands is exactly these commands, in order, each on its own line, and no
/// line is refused. It is enough that each has numbers of 32 bits and a glyph, or that what is
/// printed of each reads back as it. The script of a seed and commands in format 2 gives the seed, and
/// its lines after the first are exactly those of the commands. It does nothing.
pub fn script_laws()
    ensures printed { (commands : List Command)
        → All (λ command. HasValues (line_of command)) commands
        → script_of (flat_map printed commands) ≡ Ok (one_a_line 1 commands) }
    ensures reads_back { (commands : List Command) → All CommandReadsBack commands
        → script_of (flat_map printed commands) ≡ Ok (one_a_line 1 commands) }
    ensures format_2 { (seed : ℕ) (commands : List Command) → ScriptReadsBack seed commands
        → (any_script_of (printed_script seed commands)
        ≡ Ok (cues_asking 2 (lines_behind 0 commands)))
        × (seed_in (printed_script seed commands) ≡ Some seed) }
{}

/// A grid that was printed before an empty line is the grid of a room, and all that stands behind
/// that line is its script. Each line that a line feed ends is a whole line, and bytes behind the
/// last line feed are none. It does nothing.
#[tactic(auto, using(crate::proofs::RoomLaw::printed_parts, crate::proofs::Parting::whole_line, crate::proofs::Parting::cut_none))]
pub fn room_laws()
    ensures parts { (g : Sheet) (script : List ℕ) → IsSheet g
        → room_parts (text_of g ++ line_feed ∷ script)
        ≡ Some (record { grid = text_of g; script = script }) }
    ensures lines { (line rest : List ℕ)
        → whole_lines (line ++ line_feed ∷ rest) ≡ line ++ line_feed ∷ whole_lines rest }
    ensures cut { (bytes : List ℕ) → All (λ byte. byte ≢ line_feed) bytes
        → whole_lines bytes ≡ [] }
{}
