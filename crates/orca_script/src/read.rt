//! Reading a line.

ghost use Rattle.std.specs.Prelude.{◌≡◌, ◌≤◌, ◌<◌, ◌↔◌, ◌∷◌, [], Some, None, Ok, Err, IfErr, IsTrue, length, map, All};
ghost use Rattle.std.specs.List.{list_all, prefix_len};
ghost use Rattle.orca_base.specs.declared.command.Command.{Command};
ghost use Rattle.orca_script.specs.Grammar.{is_space, line_forms, has_no_command as has_none, line_command, IsRefusedAt};
ghost use Rattle.orca_script.specs.Readers.{form_of, read_by};
ghost use Rattle.orca_script.specs.Reading.{reading};

use crate::ScriptRefusal;
use crate::forms::{FORMS, Form};
use crate::limits::MAX_LINE_VALUES;
use crate::reader::read_form;
use orca_base::Command;
use orca_base::limits::MAX_FILE_BYTES;

/// The command that a line asks for. The line has at most [`MAX_FILE_BYTES`] bytes, and lacks its end.
/// None stands for a line without a command: it is empty, is spaces alone, or begins with `#`. A line
/// outside the grammar gets its [`ScriptRefusal`]. It takes no memory.
///
/// The words of a line stand apart by one or more spaces, and none stands before the first. The first
/// word names the command. The others are its values: a number of 1 to 10 decimal digits that is below
/// 2^32, or a glyph.
#[tactic(auto, unfolding(crate::specs::Reading::reading))]
pub fn read_line(line: &[u8]) -> Result<Option<Command>, ScriptRefusal>
    requires { length line.now ≤ MAX_FILE_BYTES }
    ensures reading { result ≡ reading line.now }
    ensures command { (command : Command) →
        (result ≡ Ok (Some command)) ↔ (line_command line.now ≡ Some command) }
    ensures nothing { (result ≡ Ok None) ↔ IsTrue (has_none line.now) }
    ensures refused { IfErr result (λ refusal. IsRefusedAt line.now refusal.column) }
{
    if has_no_command(line) {
        return Ok(None);
    }
    match read_command(line) {
        Ok(command) => Ok(Some(command)),
        Err(count) => Err(ScriptRefusal {
            column: count as u32 + 1,
        }),
    }
}

/// Whether a line is empty, is spaces alone, or begins with `#`.
pub(crate) fn has_no_command(line: &[u8]) -> bool
    ensures { result ≡ has_none line.now }
{
    is_blank(line) || matches!(line, [b'#', ..])
}

/// Whether each byte of a line is a space.
fn is_blank(line: &[u8]) -> bool
    ensures { result ≡ list_all is_space line.now }
{
    line.iter().all(|byte| *byte == b' ')
}

/// How many spaces stand before the first other byte.
fn leading_spaces(line: &[u8]) -> usize
    ensures spaces { result ≡ prefix_len is_space line.now }
    ensures within { result ≤ length line.now }
{
    line.iter().take_while(|byte| **byte == b' ').count()
}

/// The command that a line asks for; else how many of its bytes are spaces before any other byte, or
/// go along a form, whichever is more.
#[tactic(auto, unfolding(crate::specs::Grammar::line_forms))]
pub(crate) fn read_command(line: &[u8]) -> Result<Command, usize>
    ensures read { result ≡ read_by line_forms line.now (prefix_len is_space line.now) }
    ensures within { IfErr result (λ count. count ≤ length line.now) }
{
    read_forms(&FORMS, line)
}

/// The command of the first of these forms that fits the line; else how many of its bytes are spaces
/// before any other byte, or go along a form, whichever is more.
#[tactic(auto, unfolding(crate::specs::Readers::read_by))]
fn read_forms(table: &[Form], line: &[u8]) -> Result<Command, usize>
    requires { All (λ form. length form.1.now ≤ MAX_LINE_VALUES) table.now }
    ensures read { result
        ≡ read_by (map form_of table.now) line.now (prefix_len is_space line.now) }
    ensures within { IfErr result (λ count. count ≤ length line.now) }
{
    let mut most = leading_spaces(line);
    for form in table {
        match read_form(form, line) {
            Ok(command) => return Ok(command),
            Err(count) => most = most.max(count),
        }
    }
    Err(most)
}
