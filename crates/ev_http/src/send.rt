//! Sends messages.

ghost use Rattle.std.specs.Prelude.{◌≡◌, ◌++◌, length, IfOk, string_bytes};
ghost use Rattle.ev_http.specs.Sending.{is_watch, leader_text, request_head, response_head, Wrote, Sends, phrase_of, text_of};

use crate::fault::HttpFault;
use crate::request::path_of;
use ev_types::Route;
use http::StatusCode;
use std::alloc::{AllocError, Global};
use zx_outside::Sink;

/// Writes all of the bytes, or up to the first fault of the sink.
pub fn write_all<K: Sink>(sink: &mut K, bytes: &[u8]) -> Result<(), HttpFault>
    ensures { Wrote result bytes.now (K.taken sink.old) (K.taken sink.new) (K.counts sink.old) (K.counts sink.new) (K.name sink.old) (K.name sink.new) }
{
    if zx_outside::write_all(sink, bytes) {
        Ok(())
    } else {
        Err(HttpFault::WriteFault)
    }
}

/// Up to how many bytes a body is copied after its head, so that both go out in one write. A longer body is not copied.
const MAX_JOINED: usize = 16384;

/// Writes a head and then a body.
fn write_both<K: Sink>(sink: &mut K, head: &[u8], body: &[u8]) -> Result<(), HttpFault>
    ensures { Wrote result (head.now ++ body.now) (K.taken sink.old) (K.taken sink.new) (K.counts sink.old) (K.counts sink.new) (K.name sink.old) (K.name sink.new) }
{
    match write_all(sink, head) {
        Ok(()) => write_all(sink, body),
        Err(fault) => Err(fault),
    }
}

/// Writes a head and a body: a short body together with its head, unless there is no memory for the copy.
fn write_message<K: Sink>(sink: &mut K, head: String, body: &[u8]) -> Result<(), HttpFault>
    ensures { Wrote result (string_bytes head ++ body.now) (K.taken sink.old) (K.taken sink.new) (K.counts sink.old) (K.counts sink.new) (K.name sink.old) (K.name sink.new) }
{
    let mut message = head.into_bytes();
    if body.len() <= MAX_JOINED && message.extend_from_slice(body).is_ok() {
        return write_all(sink, message.as_slice());
    }
    write_both(sink, message.as_slice(), body)
}

/// The fixed texts of heads.
#[derive(Clone, Copy)]
enum Fixed {
    Post,
    Host,
    Version,
    Blank,
    Fields,
    Leader,
    End,
}

#[tactic(auto, unfolding(crate::specs::Sending::text_of))]
fn text_of(fixed: Fixed) -> &'static str
    ensures { result.now ≡ text_of fixed }
{
    match fixed {
        Fixed::Post => "POST ",
        Fixed::Host => " HTTP/1.1\r\nhost: ",
        Fixed::Version => "HTTP/1.1 ",
        Fixed::Blank => " ",
        Fixed::Fields => "\r\ncontent-type: application/json\r\ncontent-length: ",
        Fixed::Leader => "\r\ngrpc-metadata-hasleader: true",
        Fixed::End => "\r\n\r\n",
    }
}

/// The field by which a request to watch asks the member to end the stream once it has had no leader for some time.
fn leader_of(route: Route) -> &'static str
    ensures { result.now ≡ leader_text (is_watch route) }
{
    match route {
        Route::Watch => text_of(Fixed::Leader),
        Route::Txn | Route::Range | Route::Grant | Route::Alive => "",
    }
}

fn request_head(
    alloc: Global,
    host: &str,
    route: Route,
    length: usize,
) -> Result<String, AllocError>
    ensures { IfOk result (λ text. string_bytes text ≡ request_head host.now route length) }
{
    let post = text_of(Fixed::Post);
    let path = path_of(route);
    let to_host = text_of(Fixed::Host);
    let leader = leader_of(route);
    let fields = text_of(Fixed::Fields);
    let end = text_of(Fixed::End);
    format!(in alloc; "{post}{path}{to_host}{host}{leader}{fields}{length}{end}")
}

/// The reason phrase of a status (RFC 9110, section 15), empty where it has none.
fn phrase_of(status: u16) -> &'static str
    ensures { result.now ≡ phrase_of status }
{
    match StatusCode::from_u16(status) {
        Ok(code) => match code.canonical_reason() {
            Some(phrase) => phrase,
            None => "",
        },
        Err(_) => "",
    }
}

fn response_head(alloc: Global, status: u16, length: usize) -> Result<String, AllocError>
    ensures { IfOk result (λ text. string_bytes text ≡ response_head status length) }
{
    let version = text_of(Fixed::Version);
    let blank = text_of(Fixed::Blank);
    let phrase = phrase_of(status);
    let fields = text_of(Fixed::Fields);
    let end = text_of(Fixed::End);
    format!(in alloc; "{version}{status}{blank}{phrase}{fields}{length}{end}")
}

/// Sends a request to a gateway. Head and body go out in one write where the body has at most 16,384 bytes and the sink takes them
/// whole. `host` is written as it is given. After `WriteFault` a front of the message was sent; after `Memory` nothing was.
pub fn send_request<K: Sink>(
    alloc: Global,
    sink: &mut K,
    host: &str,
    route: Route,
    body: &[u8],
) -> Result<(), HttpFault>
    ensures { Sends result (request_head host.now route (length body.now) ++ body.now) (K.taken sink.old) (K.taken sink.new) (K.counts sink.old) (K.counts sink.new) (K.name sink.old) (K.name sink.new) }
{
    match request_head(alloc, host, route, body.len()) {
        Ok(head) => write_message(sink, head, body),
        Err(_) => Err(HttpFault::Memory),
    }
}

/// Sends a response of a gateway, as [`send_request`] does a request. The status is meant to be from 100 to 999. After `WriteFault`
/// a front of the message was sent; after `Memory` nothing was.
pub fn send_response<K: Sink>(
    alloc: Global,
    sink: &mut K,
    status: u16,
    body: &[u8],
) -> Result<(), HttpFault>
    ensures { Sends result (response_head status (length body.now) ++ body.now) (K.taken sink.old) (K.taken sink.new) (K.counts sink.old) (K.counts sink.new) (K.name sink.old) (K.name sink.new) }
{
    match response_head(alloc, status, body.len()) {
        Ok(head) => write_message(sink, head, body),
        Err(_) => Err(HttpFault::Memory),
    }
}
