//! What a connection is, by its first bytes.

ghost use Rattle.std.specs.Prelude.{◌≡◌, ◌≤◌, length};
ghost use Rattle.orca_web.specs.Greetings.{terminal_verdict};
ghost use Rattle.orca_web.specs.Heads.{IsWebVerdict, IsVerdict, is_get_so_far};

use crate::head::judge_head;
use crate::key::Key;

/// The byte that a terminal begins with: the first thing that its player sends is a sequence.
const ESCAPE: u8 = 0x1B;

/// The method that is served, and the blank after it (RFC 9112, section 3).
const GET: &[u8] = b"GET ";

/// What a connection is to be given.
#[derive(Clone, Copy, Debug, PartialEq, Eq)]
pub enum Verdict {
    /// What came is the beginning of something that may be served.
    More,
    /// A terminal: its keys begin after so many bytes.
    Terminal(usize),
    /// The page.
    Page,
    /// A WebSocket, with the value of `Sec-WebSocket-Accept` that opens it (RFC 6455, section
    /// 4.2.2).
    Seat([u8; 28]),
    Refused(Refusal),
}

/// Why a connection is refused.
#[derive(Clone, Copy, Debug, PartialEq, Eq)]
pub enum Refusal {
    /// It is neither a terminal that has the key nor HTTP: nothing is sent.
    Silent,
    /// It is no head that is served: 400.
    BadRequest,
    /// The host, the origin or the key is not ours: 403.
    Forbidden,
    /// There is no such path: 404.
    NotFound,
    /// It is another method than GET: 405.
    MethodNotAllowed,
    /// Its head did not come in time: 408.
    Timeout,
    /// Its head is too long: 431.
    TooLong,
    /// All seats are taken: 503.
    Full,
}

/// What a connection has to name.
#[derive(Clone, Copy)]
pub struct Rules<'a> {
    /// The port that is listened at.
    pub port: u16,
    /// The name of this machine that was given.
    pub name: Option<&'a str>,
    /// The key that is wanted.
    pub key: Option<&'a Key>,
}

/// What the first bytes of a connection ask for.
pub fn judge(bytes: &[u8], rules: &Rules<'_>) -> Verdict
    ensures { IsVerdict rules.now bytes.now result }
{
    match bytes {
        [] => Verdict::More,
        [ESCAPE, ..] => judge_terminal(bytes, rules.key),
        [b'A'..=b'Z', ..] => judge_web(bytes, rules),
        _ => Verdict::Refused(Refusal::Silent),
    }
}

/// What a connection is that begins with ESC.
fn judge_terminal(bytes: &[u8], key: Option<&Key>) -> Verdict
    ensures { result ≡ terminal_verdict key.entry bytes.now }
{
    let Some(key) = key else {
        return Verdict::Terminal(0);
    };
    let greeting = key.greeting();
    if bytes.starts_with(greeting) {
        Verdict::Terminal(greeting.len())
    } else if greeting.starts_with(bytes) {
        Verdict::More
    } else {
        Verdict::Refused(Refusal::Silent)
    }
}

/// What a connection is that begins as a request does.
fn judge_web(bytes: &[u8], rules: &Rules<'_>) -> Verdict
    ensures { IsWebVerdict rules.now bytes.now (is_get_so_far bytes.now) result }
{
    if is_get_so_far(bytes) {
        judge_head(bytes, rules)
    } else {
        Verdict::Refused(Refusal::MethodNotAllowed)
    }
}

/// Whether the bytes begin as those of a GET do, as far as they go.
fn is_get_so_far(bytes: &[u8]) -> bool
    ensures { result ≡ is_get_so_far bytes.now }
{
    let count = bytes.len().min(GET.len());
    bytes[..count] == GET[..count]
}
