ghost use Rattle.std.specs.Prelude.{◌≡◌, ◌<◌, ◌++◌, [], ◌∷◌, OnOk, OnErr};
ghost use Rattle.std.specs.Fmt.{decimal};
ghost use Rattle.std.specs.List.{flat_map};
ghost use Rattle.orca_send.specs.Lines.{hex_digit, hex_byte, label_of, sent_line};

use itoa::Buffer;
use orca_base::{Memory, Port};

/// What a line of a message begins with.
#[derive(Clone, Copy, Debug, PartialEq, Eq)]
pub enum Label {
    /// The tick of the frame.
    Tick(u32),
    /// The messages of the close.
    End,
}

/// Makes `line` the line of a message's port and bytes. Where memory is refused, `line` is empty.
pub fn write_line(line: &mut Vec<u8>, label: Label, port: Port, bytes: &[u8]) -> Result<(), Memory>
    ensures ok { OnOk result (line.new.items
        ≡ sent_line label (record { port = port; bytes = bytes.now })) }
    ensures err { OnErr result (line.new.items ≡ []) }
{
    line.clear();
    match push_line(line, label, port, bytes) {
        Ok(()) => Ok(()),
        Err(memory) => {
            line.clear();
            Err(memory)
        }
    }
}

/// Appends the line of a message's port and bytes. Where memory is refused, a part may stand after
/// what was there.
#[tactic(auto, unfolding(crate::specs::Lines::sent_line))]
fn push_line(line: &mut Vec<u8>, label: Label, port: Port, bytes: &[u8]) -> Result<(), Memory>
    ensures { OnOk result (line.new.items
        ≡ line.old.items ++ sent_line label (record { port = port; bytes = bytes.now })) }
{
    push_label(line, label)?;
    line.push(b' ')?;
    line.extend_from_slice(port.name().as_bytes())?;
    push_hex(line, bytes)?;
    line.push(b'\n')?;
    Ok(())
}

/// Appends the label.
fn push_label(line: &mut Vec<u8>, label: Label) -> Result<(), Memory>
    ensures { OnOk result (line.new.items ≡ line.old.items ++ label_of label) }
{
    match label {
        Label::Tick(tick) => push_decimal(line, u64::from(tick)),
        Label::End => {
            line.extend_from_slice(b"end")?;
            Ok(())
        }
    }
}

/// Appends a number in decimal digits. Where memory is refused, `line` is as before.
pub fn push_decimal(line: &mut Vec<u8>, n: u64) -> Result<(), Memory>
    ensures ok { OnOk result (line.new.items ≡ line.old.items ++ decimal n) }
    ensures err { OnErr result (line.new.items ≡ line.old.items) }
{
    line.extend_from_slice(Buffer::new().format(n).as_bytes())?;
    Ok(())
}

/// Appends a space and two hexadecimal digits for each byte.
fn push_hex(line: &mut Vec<u8>, bytes: &[u8]) -> Result<(), Memory>
    ensures { OnOk result (line.new.items ≡ line.old.items ++ flat_map hex_byte bytes.now) }
{
    for byte in bytes {
        line.extend_from_slice(&[b' ', hex_digit(byte / 16), hex_digit(byte % 16)])?;
    }
    Ok(())
}

/// The upper-case hexadecimal digit of a value below 16.
fn hex_digit(n: u8) -> u8
    requires { n < 16 }
    ensures { result ≡ hex_digit n }
{
    if n < 10 { b'0' + n } else { b'A' + (n - 10) }
}
