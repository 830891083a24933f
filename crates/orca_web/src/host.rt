//! Whether a host is this machine.

ghost use Rattle.std.specs.Prelude.{◌≡◌, MatchOption, None, Some};
ghost use Rattle.std.specs.List.{list_all};
ghost use Rattle.websocket.specs.Headers.{eq_ignore_case};
ghost use Rattle.orca_web.specs.Hosts.{is_own_host, is_own_name, is_given_name, is_address, is_address_byte, name_at};

use crate::judge::Rules;
use itoa::Buffer;

/// Whether a host is an address or a name of this machine, with the port that is listened at (RFC
/// 9110, section 7.2). A page of another site that has its own name lead to this machine is no page
/// of ours.
pub(crate) fn is_own_host(host: &[u8], rules: &Rules<'_>) -> bool
    ensures { result ≡ is_own_host rules.now host.now }
{
    match name_at(host, rules.port) {
        Some(name) => is_own_name(name, rules),
        None => false,
    }
}

/// The name or the address in a host with this port.
fn name_at(host: &[u8], port: u16) -> Option<&[u8]>
    ensures { MatchOption result (name_at port host.now ≡ None)
        (λ name. name_at port host.now ≡ Some name.now) }
{
    let mut buffer = Buffer::new();
    let before = host.strip_suffix(buffer.format(port).as_bytes())?;
    before.strip_suffix(b":")
}

/// Whether a name or an address is one of this machine.
fn is_own_name(name: &[u8], rules: &Rules<'_>) -> bool
    ensures { result ≡ is_own_name rules.now name.now }
{
    is_address(name) || is_same_name(name, b"localhost") || is_given_name(name, rules.name)
}

/// Whether a name is the one that was given.
fn is_given_name(name: &[u8], given: Option<&str>) -> bool
    ensures { result ≡ is_given_name given.entry name.now }
{
    match given {
        Some(given) => is_same_name(name, given.as_bytes()),
        None => false,
    }
}

/// Whether it is an address. Whoever connected by one reached this machine by it, so any will do.
/// No name has digits and dots alone (URL Standard, host parsing), or stands in brackets (RFC 3986,
/// section 3.2.2).
fn is_address(name: &[u8]) -> bool
    ensures { result ≡ is_address name.now }
{
    match name {
        [] => false,
        [b'[', ..] => true,
        _ => are_address_bytes(name),
    }
}

/// Whether an address of four numbers may have these bytes.
fn are_address_bytes(name: &[u8]) -> bool
    ensures { result ≡ list_all is_address_byte name.now }
{
    name.iter().all(|byte| is_address_byte(*byte))
}

/// Whether an address of four numbers may have this byte.
fn is_address_byte(byte: u8) -> bool
    ensures { result ≡ is_address_byte byte }
{
    byte.is_ascii_digit() || byte == b'.'
}

/// Whether two names are one, in any case.
pub(crate) fn is_same_name(one: &[u8], other: &[u8]) -> bool
    ensures { result ≡ eq_ignore_case one.now other.now }
{
    one.eq_ignore_ascii_case(other)
}
