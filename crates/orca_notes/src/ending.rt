ghost use Rattle.std.specs.Prelude.{◌≡◌, ◌+◌, ◌++◌, ◌≤◌, length, filter, not, false};
ghost use Rattle.std.specs.Vec.{vec_capacity};
ghost use Rattle.orca_notes.specs.Sound.{ends};
ghost use Rattle.orca_notes.specs.Ending.{takes};

use crate::Messages;
use orca_base::limits::MAX_MESSAGES;
use orca_base::{Message, Note};

/// Which of the sounding notes end.
#[derive(Clone, Copy, Debug, PartialEq, Eq)]
pub(crate) enum Ending {
    /// The notes that are due at this tick.
    DueAt(u64),
    /// The notes of this channel.
    OnChannel(u8),
    /// The note of this channel and this key.
    OfKey(u8, u8),
}

impl Ending {
    /// Whether the note ends.
    fn takes(self, note: &Note) -> bool
        ensures { result ≡ takes self note.now }
    {
        match self {
            Ending::DueAt(tick) => note.due <= tick,
            Ending::OnChannel(channel) => note.channel == channel,
            Ending::OfKey(channel, key) => note.channel == channel && note.key == key,
        }
    }

    /// Says the ends of the notes that it takes, and leaves the others. If it takes none, it looks
    /// at each note once.
    pub(crate) fn apply(self, notes: &mut Vec<Note>, messages: &mut Messages)
        requires { length messages.old + length notes.old.items ≤ MAX_MESSAGES }
        ensures said { messages.new ≡ messages.old ++ ends (filter (takes self) notes.old.items) }
        ensures notes { notes.new.items ≡ filter (λ note. not (takes self note)) notes.old.items }
        ensures room { vec_capacity notes.new ≡ vec_capacity notes.old }
    {
        if self.say_ends(notes, messages) {
            self.remove_from(notes);
        }
    }

    /// Says the ends of the notes that it takes, and whether there are some.
    fn say_ends(self, notes: &[Note], messages: &mut Messages) -> bool
        requires { length messages.old + length notes.now ≤ MAX_MESSAGES }
        ensures said { messages.new ≡ messages.old ++ ends (filter (takes self) notes.now) }
        ensures none { result ≡ false
            → filter (λ note. not (takes self note)) notes.now ≡ notes.now }
    {
        let mut some = false;
        for note in notes {
            if self.takes(note) {
                messages.push(end_of(note));
                some = true;
            }
        }
        some
    }

    /// Leaves the notes that it doesn't take.
    fn remove_from(self, notes: &mut Vec<Note>)
        ensures notes { notes.new.items ≡ filter (λ note. not (takes self note)) notes.old.items }
        ensures room { vec_capacity notes.new ≡ vec_capacity notes.old }
    {
        notes.retain(|note| !self.takes(note));
    }
}

/// Says the ends of all notes.
pub(crate) fn say_all_ends(notes: &[Note], messages: &mut Messages)
    requires { length messages.old + length notes.now ≤ MAX_MESSAGES }
    ensures { messages.new ≡ messages.old ++ ends notes.now }
{
    for sounding in notes {
        messages.push(end_of(sounding));
    }
}

/// The message that ends a note.
fn end_of(note: &Note) -> Message
    ensures { result ≡ Message.Off note.now.channel note.now.key }
{
    Message::Off {
        channel: note.channel,
        key: note.key,
    }
}
