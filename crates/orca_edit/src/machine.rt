ghost use Rattle.std.specs.Prelude.{◌≡◌, ◌≤◌, ◌+◌, ℕ, List, [], drop, length};
ghost use Rattle.orca_base.specs.declared.limits.TheConstants.{MAX_NOTES};
ghost use Rattle.orca_base.specs.declared.note.Note.{Note};
ghost use Rattle.orca_edit.specs.Folding.{RedoesUndo};
ghost use Rattle.orca_edit.specs.Machines.{Acts, Closes, is_free_edit, preview_of};
ghost use Rattle.orca_edit.specs.Obeying.{MachineState, piece_of};
ghost use Rattle.orca_edit.specs.Prices.{IsSpaced, Kept, charge, kept_after, preview_price};

use orca_base::{Command, Fault, Look, Note, Reply, Steps};
use orca_notes::Messages;
use std::sync::ledger::Ledger;

/// A session as those above it see it: a machine that obeys commands, and that can be looked at.
pub trait Machine: Look + Drop {
    /// The machine that it means: the opened grid, the history, the clip, and the last close.
    ghost machine: { Self → MachineState };

    /// The numbers that it keeps to go back and forward within the prices.
    ghost kept: { Self → Kept };

    /// How much the next call has to clear. It pays for steps that are still to come.
    ghost residue: { Self → ℕ };

    /// Does what a command asks for, and gives the messages of it. It takes no more steps than the
    /// command's bill.
    ///
    /// [`Fault::Refused`] names the first rule that stands against the command. [`Fault::Memory`] if
    /// memory is refused; never for `Undo`, `Rewind`, `Redo` and `Retract`. After either the machine
    /// is as before, and there is no message.
    fn act<L: Ledger>(
        &mut self,
        command: &Command,
        messages: &mut Messages,
        steps: &mut Steps<L>,
    ) -> Result<Reply, Fault>
        requires { messages.old ≡ [] }
        ensures acts { Acts (machine self.old) command.now result (machine self.new) messages.new }
        ensures kept { kept self.new
            ≡ kept_after (machine self.old) (kept self.old) command.now result }
        ensures price { steps.new + residue self.new ≤ steps.old + residue self.old
            + charge result (machine self.old) (kept self.old) command.now }

        // The checkpoints stay few, and no farther apart than the history makes them.
        ensures spaced { IsSpaced (machine self.new) (kept self.new) }

        // The law of a redo: it brings back what an undo took.
        ensures redo { RedoesUndo };

    /// Ends all notes that sound, and gives the messages of it. The history stays.
    fn close(&mut self, messages: &mut Messages)
        requires { messages.old ≡ [] }
        ensures closes { Closes (machine self.old) (machine self.new) messages.new }
        ensures kept { kept self.new ≡ kept self.old }
        ensures residue { residue self.new ≡ residue self.old };

    /// Leaves the marks of a scan of the piece as it stands, to be seen until the next call that
    /// takes the machine by `&mut`. All else is as before. It takes no more steps than the next
    /// frame may cost.
    fn preview_marks<L: Ledger>(&mut self, steps: &mut Steps<L>)
        ensures machine { machine self.new ≡ machine self.old }
        ensures kept { kept self.new ≡ kept self.old }
        ensures marks { Self.marks self.new ≡ preview_of (piece_of (machine self.old)) }
        ensures price { steps.new + residue self.new
            ≤ steps.old + residue self.old + preview_price (piece_of (machine self.old)) };

    /// The tick of the next frame, at most the number of entries.
    fn tick(&self) -> u32
        ensures tick { result ≡ (piece_of (machine self.now)).tick }
        ensures most { result ≤ length (machine self.now).history };

    /// The notes that sound, in the order in which they started.
    fn notes(&self) -> &[Note]
        ensures notes { result.now ≡ (piece_of (machine self.now)).notes }
        ensures few { length result.now ≤ MAX_NOTES };

    /// The number of entries of the history, at most the limit.
    fn moments(&self) -> u32
        ensures moments { result ≡ length (machine self.now).history }
        ensures few { result ≤ (machine self.now).limit };

    /// The most entries that the history may have.
    fn limit(&self) -> u32
        ensures { result ≡ (machine self.now).limit };

    /// Whether an entry of the history is an edit of the grid that a Retract may take out: there is such an
    /// entry, and it is no change of size that is in use.
    fn is_free_edit(&self, moment: u32) -> bool
        ensures { result ≡ is_free_edit (drop moment (machine self.now).history) };

    /// The most entries that the history has had.
    fn peak(&self) -> u32
        ensures peak { result ≡ (kept self.now).peak }
        ensures most { length (machine self.now).history ≤ result };

    /// What is looked at is the grid of the piece as it stands.
    ghost shown: { (m : Self) → Self.sheet m ≡ (piece_of (machine m)).sheet };

    /// What is looked at is the grid of the piece as it stands.
    final fn is_shown(&self)
        ensures { Self.sheet self.now ≡ (piece_of (machine self.now)).sheet }
    {}
}
