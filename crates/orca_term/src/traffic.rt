//! What is sent, as a picture tells it.

ghost use Rattle.std.specs.Prelude.{◌≡◌, ◌+◌, ◌≤◌, [], ◌++◌, codes, filter, length, map, take, vec_capacity, vec_len, All, IfOk};
ghost use Rattle.std.specs.List.{list_any};
ghost use Rattle.orca_base.specs.declared.limits.TheConstants.{MAX_SCREEN_COLUMNS};
ghost use Rattle.orca_term.specs.Picture.{IsPrintableByte};
ghost use Rattle.orca_term.specs.Traffic.{glyph_of, is_told, legible, message_words, note_letter, nothing_sent, sent_after, sent_text, words_of};

use crate::limits::{MESSAGE_BYTES, SENT_BYTES, TOLD_MESSAGES};
use crate::status::{decimal, push_word};
use orca_base::limits::{BASE, MAX_SCREEN_COLUMNS};
use orca_base::{Glyph, Inline, Memory, Message};
use std::alloc::Global;
use std::marker::Model;

/// The words of a message.
type Words = Inline<MESSAGE_BYTES>;

/// The last frame that sent more than ends of notes. A contract sees its tick, and its messages without
/// these, as far as a row can tell them; before any such frame there are none.
#[derive(Drop)]
pub struct Traffic {
    tick: u32,
    messages: Vec<Message>,
}

impl Model for Traffic {
    ghost use Rattle.std.specs.Prelude.{◌≤◌};
    ghost use Rattle.std.specs.Vec.{vec_len, vec_capacity};
    ghost use Rattle.orca_term.specs.Traffic.{FrameSent};
    ghost use Rattle.orca_term.specs.declared.limits.TheConstants.{TOLD_MESSAGES};

    ghost Value = { FrameSent };

    ghost view = { λ t. record { tick = t.tick; messages = t.messages.items } };

    ghost invariant = { λ t. (vec_len t.messages ≤ TOLD_MESSAGES)
        × (TOLD_MESSAGES ≤ vec_capacity t.messages) };
}

impl Traffic {
    /// Nothing was sent so far. It takes the room for all that it keeps; [`Memory`] if that is refused.
    pub fn start(alloc: Global) -> Result<Traffic, Memory>
        ensures { IfOk result (λ traffic. traffic ≡ nothing_sent) }
    {
        Ok(Traffic {
            tick: 0,
            messages: Vec::with_capacity(alloc, TOLD_MESSAGES)?,
        })
    }

    /// A frame was played at this tick, and gave these messages. It takes no memory.
    pub fn follow(&mut self, tick: u32, messages: &[Message])
        ensures { self.new ≡ sent_after tick messages.now self.old }
    {
        if !tells(messages) {
            return;
        }
        self.tick = tick;
        self.messages.clear();
        keep(&mut self.messages, messages);
    }

    /// What was sent, in words, as far as a row can have them.
    pub(crate) fn text(&self) -> Inline<SENT_BYTES>
        ensures text { take MAX_SCREEN_COLUMNS result
            ≡ take MAX_SCREEN_COLUMNS (sent_text self.now) }
        ensures printable { All IsPrintableByte result }
    {
        let mut text = Inline::empty();
        if self.messages.is_empty() {
            return text;
        }
        push_word(&mut text, decimal(self.tick).as_slice());
        push_word(&mut text, b":");
        push_messages(&mut text, &self.messages);
        text
    }
}

/// Whether a frame sent more than ends of notes.
fn tells(messages: &[Message]) -> bool
    ensures { result ≡ list_any is_told messages.now }
{
    messages.iter().any(|message| is_told(message))
}

/// Keeps the messages that are told, as far as there is room.
fn keep(kept: &mut Vec<Message>, messages: &[Message])
    requires none { kept.old.items ≡ [] }
    requires room { TOLD_MESSAGES ≤ vec_capacity kept.old }
    ensures kept { kept.new.items ≡ take TOLD_MESSAGES (filter is_told messages.now) }
    ensures few { vec_len kept.new ≤ TOLD_MESSAGES }
    ensures room { vec_capacity kept.new ≡ vec_capacity kept.old }
{
    for message in messages {
        if is_told(message) && kept.len() < TOLD_MESSAGES {
            kept.push_reserved(*message);
        }
    }
}

/// Whether a message is no end of a note.
fn is_told(message: &Message) -> bool
    ensures { result ≡ is_told message.now }
{
    !matches!(message, Message::Off { .. })
}

/// Appends the words of messages, each after a space, as far as the row goes.
fn push_messages(text: &mut Inline<SENT_BYTES>, messages: &[Message])
    requires printable { All IsPrintableByte text.old }
    ensures text { take MAX_SCREEN_COLUMNS text.new
        ≡ take MAX_SCREEN_COLUMNS (text.old ++ words_of messages.now) }
    ensures printable { All IsPrintableByte text.new }
{
    for message in messages {
        push_message(text, message);
    }
}

/// Appends a space and the words of a message, unless the row is full.
fn push_message(text: &mut Inline<SENT_BYTES>, message: &Message)
    requires printable { All IsPrintableByte text.old }
    ensures text { take MAX_SCREEN_COLUMNS text.new
        ≡ take MAX_SCREEN_COLUMNS (text.old ++ codes " " ++ message_words message.now) }
    ensures printable { All IsPrintableByte text.new }
{
    if text.as_slice().len() >= usize::from(MAX_SCREEN_COLUMNS) {
        return;
    }
    push_word(text, b" ");
    push_word(text, message_words(message).as_slice());
}

/// A message in words, nearly as the operator that sends it is written.
#[tactic(auto, unfolding(crate::specs::Traffic::message_words))]
fn message_words(message: &Message) -> Words
    ensures words { result ≡ message_words message.now }
    ensures printable { All IsPrintableByte result }
{
    let mut words = Words::empty();
    match *message {
        Message::On { channel, key, .. } => {
            push_word(
                &mut words,
                &[
                    b':',
                    glyph_of(channel),
                    glyph_of(key / 12),
                    note_letter(key),
                ],
            );
        }
        Message::Off { .. } => {}
        Message::Control {
            channel,
            control,
            value,
        } => {
            push_word(&mut words, &[b'!', glyph_of(channel), b' ']);
            push_word(&mut words, decimal(u32::from(control)).as_slice());
            push_word(&mut words, b"=");
            push_word(&mut words, decimal(u32::from(value)).as_slice());
        }
        Message::Bend { channel, lsb, msb } => {
            push_word(&mut words, &[b'?', glyph_of(channel), b'=']);
            push_word(
                &mut words,
                decimal(128 * u32::from(msb) + u32::from(lsb)).as_slice(),
            );
        }
        Message::Udp { text } => {
            push_word(&mut words, b";");
            push_text(&mut words, text.as_slice());
        }
        Message::Osc { path, values } => {
            push_word(&mut words, &[b'=', path.byte()]);
            push_values(&mut words, values.as_slice());
        }
    }
    words
}

/// Appends the bytes of a text, with spaces for those that a terminal can't show.
fn push_text(words: &mut Words, text: &[u8])
    requires room { length words.old + length text.now ≤ MESSAGE_BYTES }
    requires printable { All IsPrintableByte words.old }
    ensures text { words.new ≡ words.old ++ map legible text.now }
    ensures printable { All IsPrintableByte words.new }
{
    for byte in text {
        words.push(legible(*byte));
    }
}

/// Appends the glyphs of values.
fn push_values(words: &mut Words, values: &[u8])
    requires room { length words.old + length values.now ≤ MESSAGE_BYTES }
    requires printable { All IsPrintableByte words.old }
    ensures text { words.new ≡ words.old ++ map glyph_of values.now }
    ensures printable { All IsPrintableByte words.new }
{
    for value in values {
        words.push(glyph_of(*value));
    }
}

/// A byte of a text, or a space where a terminal can't show it.
fn legible(byte: u8) -> u8
    ensures byte { result ≡ legible byte }
    ensures printable { IsPrintableByte result }
{
    match byte {
        b' '..=b'~' => byte,
        _ => b' ',
    }
}

/// The glyph of a value.
fn glyph_of(n: u8) -> u8
    ensures glyph { result ≡ glyph_of n }
    ensures printable { IsPrintableByte result }
{
    Glyph::from_value(n.min(BASE - 1)).byte()
}

/// The letter of a note as an operator names it, in lower case for a sharp.
fn note_letter(key: u8) -> u8
    ensures letter { result ≡ note_letter key }
    ensures printable { IsPrintableByte result }
{
    LETTERS[usize::from(key % 12)]
}

/// The letters of the notes of an octave.
const LETTERS: [u8; 12] = *b"CcDdEFfGgAaB";
