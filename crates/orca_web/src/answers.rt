//! What is answered to a request for a seat, and to one that gets nothing (RFC 9112, section 4).

ghost use Rattle.std.specs.Prelude.{◌≡◌, [], IfSome};
ghost use Rattle.websocket.specs.Handshake.{response_bytes};
ghost use Rattle.orca_web.specs.Answers.{answer_to};

use crate::judge::Refusal;
use crate::rest::Rest;
use websocket::handshake::server::write_response;

const BAD_REQUEST: &[u8] =
    b"HTTP/1.1 400 Bad Request\r\nConnection: close\r\nContent-Type: text/plain\r\nContent-Length: 36\r\n\r\nThis is no request that orca knows.\n";

const FORBIDDEN: &[u8] =
    b"HTTP/1.1 403 Forbidden\r\nConnection: close\r\nContent-Type: text/plain\r\nContent-Length: 72\r\n\r\nThe address is not this machine's, or its key is not that of the piece.\n";

const NOT_FOUND: &[u8] =
    b"HTTP/1.1 404 Not Found\r\nConnection: close\r\nContent-Type: text/plain\r\nContent-Length: 26\r\n\r\nThere is one page here: /\n";

const NOT_ALLOWED: &[u8] =
    b"HTTP/1.1 405 Method Not Allowed\r\nAllow: GET\r\nConnection: close\r\nContent-Type: text/plain\r\nContent-Length: 30\r\n\r\nThere is one method here: GET\n";

const TIMEOUT: &[u8] =
    b"HTTP/1.1 408 Request Timeout\r\nConnection: close\r\nContent-Type: text/plain\r\nContent-Length: 34\r\n\r\nThe request did not come in time.\n";

const TOO_LONG: &[u8] =
    b"HTTP/1.1 431 Request Header Fields Too Large\r\nConnection: close\r\nContent-Type: text/plain\r\nContent-Length: 25\r\n\r\nThe request is too long.\n";

const FULL: &[u8] =
    b"HTTP/1.1 503 Service Unavailable\r\nConnection: close\r\nContent-Type: text/plain\r\nContent-Length: 21\r\n\r\nAll seats are taken.\n";

/// What is answered where something is refused: a status (RFC 9110, section 15) and a sentence, or
/// nothing.
pub fn answer_to(why: Refusal) -> &'static [u8]
    ensures { result.now ≡ answer_to why }
{
    match why {
        Refusal::Silent => b"",
        Refusal::BadRequest => BAD_REQUEST,
        Refusal::Forbidden => FORBIDDEN,
        Refusal::NotFound => NOT_FOUND,
        Refusal::MethodNotAllowed => NOT_ALLOWED,
        Refusal::Timeout => TIMEOUT,
        Refusal::TooLong => TOO_LONG,
        Refusal::Full => FULL,
    }
}

/// What is answered where a seat is given: the head that opens the WebSocket (RFC 6455, section
/// 4.2.2). There is none for a value that cannot stand in a head.
pub fn seat_answer(accept: &[u8; 28]) -> Option<Rest>
    ensures { IfSome result (λ answer. answer ≡ response_bytes accept.now []) }
{
    let mut answer = Rest::none();
    match write_response(accept, &[], &mut answer) {
        Ok(()) => Some(answer),
        Err(_) => None,
    }
}
