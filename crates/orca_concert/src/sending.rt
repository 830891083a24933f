//! What is sent of messages, and printed of them.

ghost use Rattle.std.specs.Prelude.{◌≢◌, [], ◌∷◌, All, Err};
ghost use Rattle.orca_base.specs.Ranges.{CarriesFewValues, HasDataInRange};
ghost use Rattle.orca_course.specs.Acts.{gives};
ghost use Rattle.orca_course.specs.Acts.Act.{Give};
ghost use Rattle.orca_course.specs.Worlds.{Called, Calls};
ghost use Rattle.orca_send.specs.Lines.{line_sent, lines_of};
ghost use Rattle.orca_send.specs.Sending.{sends_of, sent_of, text_sent};
ghost use Rattle.orca_concert.specs.Concerts.{handed_of};

use orca_base::{Message, Port, Wire};
use orca_course::{Desk, NoMemory};
use orca_rig::House;
use orca_send::{Label, wire, write_line};

/// Sends a message to its port.
fn send_message<H: House>(desk: &mut Desk<H>, message: &Message) -> Result<(), NoMemory>
    requires in_range { HasDataInRange message.now }
    requires few_values { CarriesFewValues message.now }
    ensures called { Called result (Give (sent_of message.now)) desk.old desk.new }
    ensures in_send { result ≢ Err NoMemory.Elsewhere }
{
    let mut bytes = Wire::empty();
    let port = wire(message, &mut bytes);
    desk.send(port, bytes.as_slice())
}

/// Sends the messages, each as a piece of its own, in order.
pub fn send_messages<H: House>(desk: &mut Desk<H>, messages: &[Message]) -> Result<(), NoMemory>
    requires in_range { All HasDataInRange messages.now }
    requires few_values { All CarriesFewValues messages.now }
    ensures called { Calls (gives (sends_of messages.now)) result desk.old desk.new }
    ensures in_send { result ≢ Err NoMemory.Elsewhere }
{
    for message in messages {
        send_message(desk, message)?;
    }
    Ok(())
}

/// Sends the messages, if they are handed out.
#[tactic(auto, using(orca_course::proofs::WorldLemmas::called_still))]
pub(crate) fn hand_messages<H: House>(
    desk: &mut Desk<H>,
    hands: bool,
    messages: &[Message],
) -> Result<(), NoMemory>
    requires in_range { All HasDataInRange messages.now }
    requires few_values { All CarriesFewValues messages.now }
    ensures called { Calls (gives (handed_of hands messages.now)) result desk.old desk.new }
    ensures in_send { result ≢ Err NoMemory.Elsewhere }
{
    if !hands {
        return Ok(());
    }
    send_messages(desk, messages)
}

/// Sends a text on the text port, as one piece.
pub fn say<H: House>(desk: &mut Desk<H>, text: &[u8]) -> Result<(), NoMemory>
    ensures { Calls (gives (text_sent text.now ∷ [])) result desk.old desk.new }
{
    desk.send(Port::Text, text)
}

/// Prints the line of a message on the text port. `line` is room for it.
fn print_message<H: House>(
    desk: &mut Desk<H>,
    line: &mut Vec<u8>,
    label: Label,
    message: &Message,
) -> Result<(), NoMemory>
    requires in_range { HasDataInRange message.now }
    requires few_values { CarriesFewValues message.now }
    ensures { Calls (gives (line_sent label message.now ∷ [])) result desk.old desk.new }
{
    let mut bytes = Wire::empty();
    let port = wire(message, &mut bytes);
    write_line(line, label, port, bytes.as_slice())?;
    say(desk, line.as_slice())
}

/// Prints a line for each message on the text port, in order. `line` is room for them.
pub fn print_messages<H: House>(
    desk: &mut Desk<H>,
    line: &mut Vec<u8>,
    label: Label,
    messages: &[Message],
) -> Result<(), NoMemory>
    requires in_range { All HasDataInRange messages.now }
    requires few_values { All CarriesFewValues messages.now }
    ensures { Calls (gives (lines_of label messages.now)) result desk.old desk.new }
{
    for message in messages {
        print_message(desk, line, label, message)?;
    }
    Ok(())
}
