//! The head of a request (RFC 9112, sections 2 to 5), and what it is answered.

ghost use Rattle.std.specs.Prelude.{◌≡◌, length, take, codes, All, MatchOption, None, Some, if◌then◌else◌};
ghost use Rattle.httparse.specs.Spans.{IsHeaderWithin, IsRequestWithin};
ghost use Rattle.websocket.specs.Headers.{fields_of};
ghost use Rattle.orca_web.specs.Heads.{IsHeadVerdict, Gives, due_to, seat_due, request_at, is_origin_of, only, query_after, query_in, shows_key, values, waiting_verdict};

use crate::host::{is_own_host, is_same_name};
use crate::judge::{Refusal, Rules, Verdict};
use crate::key::Key;
use crate::limits::{MAX_FIELDS, MAX_HEAD_BYTES};
use httparse::Status;
use httparse::spans::{EMPTY_HEADER_SPAN, HeaderSpan, RequestSpans, parse_request};
use websocket::handshake::server::check_request;

/// The path of the page.
const PAGE_PATH: &[u8] = b"/";

/// The path of a seat.
const SEAT_PATH: &[u8] = b"/seat";

/// What a head asks for, as far as it has come.
pub(crate) fn judge_head(bytes: &[u8], rules: &Rules<'_>) -> Verdict
    ensures { IsHeadVerdict rules.now bytes.now result }
{
    let mut fields = [EMPTY_HEADER_SPAN; MAX_FIELDS];
    match parse_request(bytes, &mut fields) {
        Ok(Status::Complete(head)) => {
            if head.len == bytes.len() {
                judge_request(bytes, &head, &fields, rules)
            } else {
                // Nobody sends more before he was answered.
                Verdict::Refused(Refusal::BadRequest)
            }
        }
        Ok(Status::Partial) => waiting_verdict(bytes),
        Err(_) => Verdict::Refused(Refusal::BadRequest),
    }
}

/// What is done while a head has not ended: it is waited for, up to a length.
fn waiting_verdict(bytes: &[u8]) -> Verdict
    ensures { result ≡ waiting_verdict bytes.now }
{
    if bytes.len() < MAX_HEAD_BYTES {
        Verdict::More
    } else {
        Verdict::Refused(Refusal::TooLong)
    }
}

/// What a whole head asks for. It names one host (RFC 9112, section 3.2), which is this machine.
fn judge_request(
    bytes: &[u8],
    head: &RequestSpans,
    fields: &[HeaderSpan],
    rules: &Rules<'_>,
) -> Verdict
    requires { IsRequestWithin bytes.now fields.now head.now }
    ensures { Gives (due_to rules.now (request_at bytes.now fields.now head.now)) result }
{
    let Some(host) = only_value(bytes, &fields[..head.headers], b"host") else {
        return Verdict::Refused(Refusal::BadRequest);
    };
    if !is_own_host(host, rules) {
        return Verdict::Refused(Refusal::Forbidden);
    }
    let target = head.path.of(bytes);
    if let Some(query) = query_after(PAGE_PATH, target) {
        return page_verdict(shows_key(rules.key, query));
    }
    let Some(query) = query_after(SEAT_PATH, target) else {
        return Verdict::Refused(Refusal::NotFound);
    };
    if !shows_key(rules.key, query) {
        return Verdict::Refused(Refusal::Forbidden);
    }
    judge_seat(bytes, head, fields, host)
}

/// Whether the page is given.
fn page_verdict(is_shown: bool) -> Verdict
    ensures { result ≡ if is_shown then Verdict.Page else Verdict.Refused Refusal.Forbidden }
{
    if is_shown {
        Verdict::Page
    } else {
        Verdict::Refused(Refusal::Forbidden)
    }
}

/// Whether a seat is given: to a page of this very host, so to none of another site (RFC 6455,
/// section 10.2).
fn judge_seat(bytes: &[u8], head: &RequestSpans, fields: &[HeaderSpan], host: &[u8]) -> Verdict
    requires { IsRequestWithin bytes.now fields.now head.now }
    ensures { Gives (seat_due (request_at bytes.now fields.now head.now) host.now) result }
{
    let Some(origin) = only_value(bytes, &fields[..head.headers], b"origin") else {
        return Verdict::Refused(Refusal::Forbidden);
    };
    if !is_origin_of(host, origin) {
        return Verdict::Refused(Refusal::Forbidden);
    }
    match check_request(bytes, head, fields) {
        Ok(accept) => Verdict::Seat(accept),
        Err(_) => Verdict::Refused(Refusal::BadRequest),
    }
}

/// Whether an origin is that of a page which this host gave, without encryption (RFC 6454, section
/// 6.2).
fn is_origin_of(host: &[u8], origin: &[u8]) -> bool
    ensures { result ≡ is_origin_of host.now origin.now }
{
    match origin.strip_prefix(b"http://") {
        Some(rest) => rest == host,
        None => false,
    }
}

/// The query of a target that has this path.
fn query_after<'b>(path: &[u8], target: &'b [u8]) -> Option<&'b [u8]>
    ensures { MatchOption result (query_after path.now target.now ≡ None)
        (λ query. query_after path.now target.now ≡ Some query.now) }
{
    match target.strip_prefix(path)? {
        [] => Some(&[]),
        [b'?', query @ ..] => Some(query),
        _ => None,
    }
}

/// Whether a query shows the key, where one is wanted.
fn shows_key(key: Option<&Key>, query: &[u8]) -> bool
    ensures { result ≡ shows_key key.entry query.now }
{
    let Some(key) = key else {
        return true;
    };
    match query.strip_prefix(b"key=") {
        Some(letters) => letters == key.letters(),
        None => false,
    }
}

/// The value of the only field of that name.
fn only_value<'b>(bytes: &'b [u8], fields: &[HeaderSpan], name: &[u8]) -> Option<&'b [u8]>
    requires { All (IsHeaderWithin (length bytes.now)) fields.now }
    ensures { MatchOption result (only (values (fields_of bytes.now fields.now) name.now) ≡ None)
        (λ value. only (values (fields_of bytes.now fields.now) name.now) ≡ Some value.now) }
{
    let mut found = None;
    for field in fields {
        if is_same_name(field.name.of(bytes), name) {
            if found.is_some() {
                return None;
            }
            found = Some(field.value.of(bytes));
        }
    }
    found
}
