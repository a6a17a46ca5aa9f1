//! Reads responses.

ghost use Rattle.std.specs.Prelude.{◌≡◌, ◌≤◌, List, ℕ, length, IfSome, IfErr, Some, false};
ghost use Rattle.httparse.specs.Grammar.{ResponseHead, IsResponseHead, print_response};
ghost use Rattle.ev_http.specs.Messages.{FoundResponse, JudgesResponse, ResponseAnswer, HoldsResponse};
ghost use Rattle.ev_http.specs.Body.{ReadsBody};
ghost use Rattle.ev_http.specs.Taking.{is_read_fault, Took, told, failed, fresh};
ghost use Rattle.ev_http.specs.declared.taking.Tally.{Tally};
ghost use Rattle.httparse.specs.Spans.{IsResponseWithin};

use crate::body::read_body;
use crate::fault::HttpFault;
use crate::framing::{Framing, place_of, read_framing};
use crate::head::{Kind, MAX_FIELDS, read_head};
use crate::taking::Tally;
use httparse::Status;
use httparse::spans::{EMPTY_HEADER_SPAN, HeaderSpan, ResponseSpans, parse_response};
use std::alloc::Global;
use zx_outside::Source;

/// The status of a response whose body is read.
const OK: u16 = 200;

/// Where the parts of a whole head lie.
fn whole_response(head: &[u8], fields: &mut [HeaderSpan]) -> Option<ResponseSpans>
    ensures within { IfSome result (IsResponseWithin head.now fields.new) }
    ensures found { (h : ResponseHead) → IsResponseHead h → head.now ≡ print_response h → length h.fields ≤ length fields.old → FoundResponse result head.now fields.new h }
{
    match parse_response(head, fields) {
        Ok(Status::Complete(spans)) => Some(spans),
        Ok(Status::Partial) => None,
        Err(_) => None,
    }
}

/// How the body after a whole head is framed. A fault where the status is not 200, or a field line breaks a rule.
pub fn response_framing(head: &[u8]) -> Result<Framing, HttpFault>
    ensures judges { (h : ResponseHead) → IsResponseHead h → head.now ≡ print_response h → length h.fields ≤ 64 → JudgesResponse result h head.now }
    ensures calm { IfErr result (λ e. is_read_fault e ≡ false) }
{
    let mut fields = [EMPTY_HEADER_SPAN; MAX_FIELDS];
    let Some(spans) = whole_response(head, &mut fields) else {
        return Err(HttpFault::Head);
    };
    if spans.code != OK {
        return Err(HttpFault::Status(spans.code));
    }
    match read_framing(Kind::Response, head, &fields[..spans.headers]) {
        Ok(framing) => Ok(framing),
        Err(number) => Err(HttpFault::Body {
            place: place_of(head, spans.headers, number),
        }),
    }
}

/// The body of the response that the source gives next.
fn take_response<S: Source>(alloc: Global, source: &mut S) -> Result<Vec<u8>, HttpFault>
    ensures { (bytes : List ℕ) × (tally : Tally)
        × Took bytes (failed result) fresh tally
        (told S.given S.left S.counts S.ended S.name source.old)
        (told S.given S.left S.counts S.ended S.name source.new)
        × ResponseAnswer result bytes
        (told S.given S.left S.counts S.ended S.name source.new) tally }
{
    let mut tally = Tally::new();
    match read_head(alloc, source, &mut tally, Kind::Response) {
        Ok(head) => match response_framing(head.as_slice()) {
            Ok(framing) => read_body(alloc, source, &mut tally, framing),
            Err(fault) => Err(fault),
        },
        Err(fault) => Err(fault),
    }
}

/// Reads one response of the gateway, and no byte after it (RFC 9112): its body, of at most 8,388,608 bytes. A body without a
/// framing field lasts to the source's end. A whole response of status 200 within the limits is read: then only the source and
/// memory can be at fault. After a fault, what was taken of the response is lost; after `Status`, its body is not taken.
///
/// The head is taken byte by byte, the body in pieces of up to 4,096 bytes, each of which is copied once.
pub fn read_response<S: Source>(alloc: Global, source: &mut S) -> Result<Vec<u8>, HttpFault>
    ensures answer { (bytes : List ℕ) × (tally : Tally)
        × Took bytes (failed result) fresh tally
        (told S.given S.left S.counts S.ended S.name source.old)
        (told S.given S.left S.counts S.ended S.name source.new)
        × ResponseAnswer result bytes
        (told S.given S.left S.counts S.ended S.name source.new) tally }
    ensures reads { (all body rest : List ℕ) → S.left source.old ≡ Some all → HoldsResponse body rest all → length body ≤ 8388608
        → ReadsBody result body rest (S.left source.new) }
{
    let response = take_response(alloc, source);
    response
}
