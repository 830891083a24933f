//! Whose the entries of a history are.

ghost use Rattle.std.specs.Prelude.{◌≡◌, ◌≤◌, ℕ, length, vec_capacity, vec_len};
ghost use Rattle.orca_jam.specs.Owners.{ends_in_hush as ends, is_edit_command as edits, last_editor as editor_of_last, left_owners, owned};

use orca_base::Command;

/// The hand of an entry that no hand asked for.
pub const NOBODY: u8 = 255;

/// Whose an entry of the history is.
#[derive(Clone, Copy, Debug, PartialEq, Eq)]
pub struct Owner {
    /// The hand that asked for it; [`NOBODY`] for the end of a jump or a Retract and for the frames
    /// of the clock.
    pub hand: u8,
    /// Whether the entry is an edit.
    pub edit: bool,
}

/// The hand of the last edit, if there is one.
pub(crate) fn last_editor(owners: &[Owner]) -> Option<u8>
    ensures { result ≡ editor_of_last owners.now }
{
    let mut end = owners.len();
    while end > 0 {
        end -= 1;
        let owner = owners[end];
        if owner.edit {
            return Some(owner.hand);
        }
    }
    None
}

/// Does to the owners what a command of a hand did to the history, which has so many entries then.
#[tactic(auto, unfolding(crate::specs::Owners::owned))]
pub(crate) fn follow(owners: &mut Vec<Owner>, hand: u8, command: &Command, moments: usize)
    requires some { 1 ≤ vec_capacity owners.old }
    requires room { moments ≤ vec_capacity owners.old }
    requires within { vec_len owners.old ≤ vec_capacity owners.old }
    ensures owners { owners.new.items ≡ owned hand command.now moments owners.old.items }
    ensures few { (room : ℕ) → 1 ≤ room → moments ≤ room → length owners.old.items ≤ room
        → length owners.new.items ≤ room }

    ensures room { vec_capacity owners.new ≡ vec_capacity owners.old }
{
    if ends_in_hush(command) {
        leave(owners, command);
        owners.truncate(moments.saturating_sub(1));
        owners.push_reserved(Owner {
            hand: NOBODY,
            edit: false,
        });
    } else if owners.len() < moments {
        let edit = is_edit(command);
        owners.push_reserved(Owner { hand, edit });
    }
}

/// Takes out the owner of the entry that a Retract takes out.
fn leave(owners: &mut Vec<Owner>, command: &Command)
    ensures owners { owners.new.items ≡ left_owners command.now owners.old.items }
    ensures few { vec_len owners.new ≤ vec_len owners.old }
    ensures room { vec_capacity owners.new ≡ vec_capacity owners.old }
{
    if let Command::Retract { moment } = *command {
        let moment = moment as usize;
        if moment < owners.len() {
            let _ = owners.remove(moment);
        }
    }
}

/// Whether a command adds a Hush of nobody's: it goes back in the history, or forward again, or takes an entry
/// out.
fn ends_in_hush(command: &Command) -> bool
    ensures { result ≡ ends command.now }
{
    matches!(
        command,
        Command::Undo | Command::Rewind { .. } | Command::Redo | Command::Retract { .. }
    )
}

/// Whether the entry of a command is an edit.
fn is_edit(command: &Command) -> bool
    ensures { result ≡ edits command.now }
{
    !matches!(command, Command::Frame | Command::Hush)
}
