ghost use Rattle.std.specs.Prelude.{◌≡◌, ◌+◌, ◌^◌, ◌<◌, ◌≤◌, [], ◌∷◌, ◌++◌, length, filter, not, false, All, IfOk};
ghost use Rattle.orca_base.specs.Ranges.{IsPlayable, HasFewValues, CarriesFewValues};
ghost use Rattle.orca_notes.specs.Device.{voice_of, is_on, voices, IsChord, Plays};
ghost use Rattle.orca_notes.specs.Ending.{takes};
ghost use Rattle.orca_notes.specs.Sound.{sounds_of, ends, happens, sound};

use crate::Messages;
use crate::ending::{Ending, say_all_ends};
use orca_base::limits::{MAX_CHANNEL, MAX_DATA, MAX_EVENTS, MAX_MESSAGES, MAX_NOTES};
use orca_base::{Event, Memory, Message, Note};
use std::alloc::Global;
use std::marker::Model;

/// The notes that sound, in the order in which they started. No two have the same channel and key.
/// Room for a note of each channel and key is taken at the start, so that no later call takes
/// memory. A contract sees the list.
#[derive(Drop)]
pub struct Notes {
    list: Vec<Note>,
}

impl Model for Notes {
    ghost use Rattle.std.specs.Prelude.{List, ◌≤◌};
    ghost use Rattle.std.specs.Vec.{vec_len, vec_capacity};
    ghost use Rattle.orca_base.specs.declared.note.Note.{Note};
    ghost use Rattle.orca_base.specs.declared.limits.TheConstants.{MAX_NOTES};
    ghost use Rattle.orca_notes.specs.Device.{IsChord};

    ghost Value = { List Note };

    ghost view = { λ notes. notes.list.items };

    ghost invariant = { λ n. IsChord n.list.items × (MAX_NOTES ≤ vec_capacity n.list) };
}

impl Notes {
    /// No notes, with the room for one of each channel and key. [`Memory`] if that room is refused.
    pub fn start(alloc: Global) -> Result<Notes, Memory>
        ensures { IfOk result (λ notes. notes ≡ []) }
    {
        let list = Vec::with_capacity(alloc, MAX_NOTES)?;
        Ok(Notes { list })
    }

    /// The notes, in the order in which they started.
    pub fn as_slice(&self) -> &[Note]
        ensures notes { result.now ≡ self.now }
        ensures chord { IsChord self.now }
        ensures few { length self.now ≤ MAX_NOTES }
    {
        self.list.as_slice()
    }

    /// Plays a frame: the notes that are due at the tick end, in the order in which they started,
    /// and then the events happen in order. A note first ends those that it cuts off: with `mono`
    /// every note of its channel, and else the one of its channel and key. It is due as many ticks
    /// later as it is long.
    ///
    /// A frame without events and due notes goes once over the sounding notes, and over no silent
    /// channel or key. With due notes it goes twice over them. Each event that is a note goes over
    /// them once more, or twice if it cuts some off. So no frame takes more than
    /// `2 * (MAX_EVENTS + 1) * MAX_NOTES` looks at a note.
    pub fn advance(&mut self, tick: u32, events: &[Event], messages: &mut Messages)
        requires empty { messages.old ≡ [] }
        requires few { length events.now ≤ MAX_EVENTS }
        requires playable { All IsPlayable events.now }

        ensures notes { self.new ≡ (sound self.old tick events.now).notes }
        ensures messages { messages.new ≡ (sound self.old tick events.now).messages }

        // A device that has the keys of the old notes on has exactly those of the new notes on when
        // it has read the messages. No key starts that is on, and none ends that is off.
        ensures plays { Plays self.old messages.new self.new }
        ensures few_values { All HasFewValues events.now → All CarriesFewValues messages.new }
    {
        let now = u64::from(tick);
        self.stop(Ending::DueAt(now), messages);
        for event in events {
            self.happen(now, *event, messages);
        }
    }

    /// Ends all notes, in the order in which they started.
    pub fn hush(&mut self, messages: &mut Messages)
        requires { messages.old ≡ [] }
        ensures notes { self.new ≡ [] }
        ensures messages { messages.new ≡ ends self.old }
        ensures plays { Plays self.old messages.new [] }
        ensures few_values { All CarriesFewValues messages.new }
    {
        say_all_ends(&self.list, messages);
        self.list.clear();
    }

    /// Does what one event does at a tick.
    #[tactic(auto, unfolding(crate::specs::Sound::happens))]
    fn happen(&mut self, now: u64, event: Event, messages: &mut Messages)
        requires fits { now < 2 ^ 32 }
        requires playable { IsPlayable event }
        requires room { length self.old + length messages.old < MAX_MESSAGES }
        ensures happens { sounds_of self.new messages.new
            ≡ happens now (sounds_of self.old messages.old) event }
        ensures few { length self.new + length messages.new
            ≤ length self.old + length messages.old + 2 }
    {
        match event {
            Event::Note {
                channel,
                key,
                velocity,
                length,
                mono,
            } => {
                let ending = if mono {
                    Ending::OnChannel(channel)
                } else {
                    Ending::OfKey(channel, key)
                };
                let due = now + u64::from(length);
                self.stop(ending, messages);
                self.begin(Note { channel, key, due }, velocity, messages);
            }
            Event::Control {
                channel,
                control,
                value,
            } => messages.push(Message::Control {
                channel,
                control,
                value,
            }),
            Event::Bend { channel, lsb, msb } => messages.push(Message::Bend { channel, lsb, msb }),
            Event::Udp { text } => messages.push(Message::Udp { text }),
            Event::Osc { path, values } => messages.push(Message::Osc { path, values }),
        }
    }

    /// Ends the notes that the ending takes.
    fn stop(&mut self, ending: Ending, messages: &mut Messages)
        // There are at most as many notes as channels and keys, so a caller may count on it.
        requires { length self.old ≤ MAX_NOTES
            → length self.old + length messages.old ≤ MAX_MESSAGES }
        ensures notes { self.new ≡ filter (λ note. not (takes ending note)) self.old }
        ensures messages { messages.new ≡ messages.old ++ ends (filter (takes ending) self.old) }
        ensures chord { IsChord self.old }
        ensures few { length self.old ≤ MAX_NOTES }
        ensures count { length self.new + length messages.new
            ≡ length self.old + length messages.old }
    {
        ending.apply(&mut self.list, messages);
    }

    /// Starts a note, which stands last.
    fn begin(&mut self, note: Note, velocity: u8, messages: &mut Messages)
        requires in_range { (note.channel ≤ MAX_CHANNEL) × (note.key ≤ MAX_DATA) }
        requires silent { is_on (voices self.old) (voice_of note) ≡ false }
        requires room { length messages.old < MAX_MESSAGES }
        ensures notes { self.new ≡ self.old ++ note ∷ [] }
        ensures messages { messages.new
            ≡ messages.old ++ Message.On note.channel note.key velocity ∷ [] }
    {
        messages.push(Message::On {
            channel: note.channel,
            key: note.key,
            velocity,
        });
        self.list.push_reserved(note);
    }
}
