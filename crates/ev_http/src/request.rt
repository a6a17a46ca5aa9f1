//! Reads requests.

ghost use Rattle.std.specs.Prelude.{◌≡◌, ◌≢◌, ◌≤◌, List, ℕ, length, map, All, IsTrue, false, IfSome, Some};
ghost use Rattle.httparse.specs.Spans.{IsRequestWithin, IsHeaderWithin, header_bytes};
ghost use Rattle.ev_http.specs.Framing.{framing_after, whole_framing, counted_framing};
ghost use Rattle.httparse.specs.Grammar.{RequestHead, IsRequestHead, print_request};
ghost use Rattle.ev_types.specs.declared.route.Route.{Route};
ghost use Rattle.ev_http.specs.Messages.{FoundRequest, JudgesRequest, path_of, is_post, Routed, RequestAnswer, with_route, HoldsRequest, ReadsRequestBody};
ghost use Rattle.ev_http.specs.Taking.{Took, told, failed, fresh};
ghost use Rattle.ev_http.specs.declared.taking.Tally.{Tally};

use crate::body::read_body;
use crate::fault::HttpFault;
use crate::framing::{Framing, place_of, read_framing};
use crate::head::{Kind, MAX_FIELDS, read_head};
use crate::taking::Tally;
use ev_types::Route;
use httparse::Status;
use httparse::spans::{EMPTY_HEADER_SPAN, HeaderSpan, RequestSpans, parse_request};
use std::alloc::Global;
use zx_outside::Source;

/// The path of a route (etcd API reference, "gRPC gateway").
#[tactic(auto, unfolding(crate::specs::Messages::path_of))]
pub fn path_of(route: Route) -> &'static str
    ensures { result.now ≡ path_of route }
{
    match route {
        Route::Txn => "/v3/kv/txn",
        Route::Range => "/v3/kv/range",
        Route::Grant => "/v3/lease/grant",
        Route::Alive => "/v3/lease/keepalive",
        Route::Watch => "/v3/watch",
    }
}

fn is_path_of(route: Route, target: &[u8]) -> bool
    ensures yes { IsTrue result → target.now ≡ path_of route }
    ensures no { result ≡ false → target.now ≢ path_of route }
{
    target == path_of(route).as_bytes()
}

/// The route whose path this is.
fn route_of(target: &[u8]) -> Option<Route>
    ensures { Routed result target.now }
{
    if is_path_of(Route::Txn, target) {
        return Some(Route::Txn);
    }
    if is_path_of(Route::Range, target) {
        return Some(Route::Range);
    }
    if is_path_of(Route::Grant, target) {
        return Some(Route::Grant);
    }
    if is_path_of(Route::Alive, target) {
        return Some(Route::Alive);
    }
    if is_path_of(Route::Watch, target) {
        return Some(Route::Watch);
    }
    None
}

/// Whether the method is POST.
#[tactic(auto, unfolding(crate::specs::Messages::is_post))]
fn is_post(method: &[u8]) -> bool
    ensures { result ≡ is_post method.now }
{
    method == b"POST".as_slice()
}

/// Where the parts of a whole head lie.
fn whole_request(head: &[u8], fields: &mut [HeaderSpan]) -> Option<RequestSpans>
    ensures within { IfSome result (IsRequestWithin head.now fields.new) }
    ensures found { (h : RequestHead) → IsRequestHead h → head.now ≡ print_request h → length h.fields ≤ length fields.old → FoundRequest result head.now fields.new h }
{
    match parse_request(head, fields) {
        Ok(Status::Complete(spans)) => Some(spans),
        Ok(Status::Partial) => None,
        Err(_) => None,
    }
}

/// Where a request with this head goes, and how many bytes its body has.
pub fn request_framing(head: &[u8]) -> Result<(Route, u64), HttpFault>
    ensures { (h : RequestHead) → IsRequestHead h → head.now ≡ print_request h → length h.fields ≤ 64 → JudgesRequest result h head.now }
{
    let mut fields = [EMPTY_HEADER_SPAN; MAX_FIELDS];
    let Some(spans) = whole_request(head, &mut fields) else {
        return Err(HttpFault::Head);
    };
    if !is_post(spans.method.of(head)) {
        return Err(HttpFault::Route);
    }
    let Some(route) = route_of(spans.path.of(head)) else {
        return Err(HttpFault::Route);
    };
    match read_counted(head, &fields[..spans.headers]) {
        Ok(count) => Ok((route, count)),
        Err(number) => Err(HttpFault::Body {
            place: place_of(head, spans.headers, number),
        }),
    }
}

/// How many bytes the body has, or the number of the field line that is at fault; without a content-length that is the number of
/// the empty line after them.
fn read_counted(head: &[u8], fields: &[HeaderSpan]) -> Result<u64, usize>
    requires { All (IsHeaderWithin (length head.now)) fields.now }
    ensures { whole_framing Kind.Request (length fields.now) (framing_after Kind.Request Framing.ToEnd (map (header_bytes head.now) fields.now)) ≡ counted_framing result }
{
    match read_framing(Kind::Request, head, fields) {
        Ok(Framing::Counted(count)) => Ok(count),
        Ok(Framing::ToEnd) => Err(fields.len()),
        Ok(Framing::Chunked) => Err(fields.len()),
        Err(number) => Err(number),
    }
}

/// The request that the source gives next.
fn take_request<S: Source>(alloc: Global, source: &mut S) -> Result<(Route, Vec<u8>), HttpFault>
    ensures { (bytes : List ℕ) × (tally : Tally)
        × Took bytes (failed result) fresh tally
        (told S.given S.left S.counts S.ended S.name source.old)
        (told S.given S.left S.counts S.ended S.name source.new)
        × RequestAnswer result bytes
        (told S.given S.left S.counts S.ended S.name source.new) tally }
{
    let mut tally = Tally::new();
    match read_head(alloc, source, &mut tally, Kind::Request) {
        Ok(head) => match request_framing(head.as_slice()) {
            Ok((route, count)) => {
                with_route(
                    route,
                    read_body(alloc, source, &mut tally, Framing::Counted(count)),
                )
            }
            Err(fault) => Err(fault),
        },
        Err(fault) => Err(fault),
    }
}

/// The route of a request, and its body once it was read.
fn with_route(route: Route, body: Result<Vec<u8>, HttpFault>) -> Result<(Route, Vec<u8>), HttpFault>
    ensures { result ≡ with_route route body }
{
    match body {
        Ok(body) => Ok((route, body)),
        Err(fault) => Err(fault),
    }
}

/// Reads one request to the gateway, and no byte after it (RFC 9112): its route, and its body of at most 8,388,608 bytes. A whole
/// request within the limits is read: then only the source and memory can be at fault. After a fault, what was taken of
/// the request is lost.
pub fn read_request<S: Source>(alloc: Global, source: &mut S) -> Result<(Route, Vec<u8>), HttpFault>
    ensures answer { (bytes : List ℕ) × (tally : Tally)
        × Took bytes (failed result) fresh tally
        (told S.given S.left S.counts S.ended S.name source.old)
        (told S.given S.left S.counts S.ended S.name source.new)
        × RequestAnswer result bytes
        (told S.given S.left S.counts S.ended S.name source.new) tally }
    ensures reads { (all body rest : List ℕ) (goes : Route) → S.left source.old ≡ Some all → HoldsRequest goes body rest all → length body ≤ 8388608
        → ReadsRequestBody result goes body rest (S.left source.new) }
{
    let request = take_request(alloc, source);
    request
}
