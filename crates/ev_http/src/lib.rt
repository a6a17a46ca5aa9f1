//! HTTP/1.1 messages between a client and etcd's JSON gateway, over a source and a sink (RFC 9112; etcd API reference,
//! "gRPC gateway").
//!
//! A client sends a request with [`send_request`] and reads what comes back with [`read_response`], or with [`Lines`] where the
//! response is a stream, as a watch's is. A gateway reads a request with [`read_request`] and answers with [`send_response`].
//! The JSON in the bodies is left to the caller.
//!
//! # Reading
//!
//! A request is a POST to the path of a route, with a content-length. A response has status 200; its body has a
//! content-length, or comes in chunks, or lasts to the source's end. Field names are compared without case, other fields
//! are passed over, and the trailer fields after the chunks are dropped. `specs/Messages` says which bytes carry which body.
//! No byte after a message is taken, so the next one can be read from the same source. The body of a response with another
//! status is not read: its bytes are left in the source.
//!
//! What is no such message gives an [`HttpFault`] that says why, and for a fault in the framing where, counted from the first
//! byte of the message. A whole message within the limits is read, however its bytes are cut into reads: then only the source
//! and memory can be at fault.
//!
//! [`Lines::next`] gives the lines of a response's body in turn, across chunks. After `Idle`, `ReadFault` and `Ended` the
//! next call goes on where the last one stopped, and nothing is lost; any other fault is for good.
//!
//! # Writing
//!
//! A request has the fields host, content-type and content-length, a response has the last two. A request to watch has besides the
//! field by which etcd ends the stream where its member has had no leader for some time. Head and body are written until the
//! sink has taken them whole or has a fault: in one piece where the body has at most 16,384 bytes, since two small writes to a
//! socket cost two packets; a longer body is not copied. What is written is what is read, whatever follows it
//! ([`requests_come_back`], [`responses_come_back`]).
//!
//! A stream goes out by [`send_stream_head`], [`send_chunk`] for each of its pieces and [`send_last_chunk`]
//! ([`streams_come_back`]).
//!
//! # Limits
//!
//! | What | At most | Beyond it |
//! |---|---|---|
//! | a head, with the empty line that ends it | 16,384 bytes and 64 fields | `Head` |
//! | a body, or one line of a stream | 8,388,608 bytes | `TooLong` |
//! | the line before a chunk | 1,024 bytes and CR LF | `Body` |
//! | trailer fields, in all | 16,384 bytes | `Body` |
//! | idle turns in one call | 6,000 | `Idle` |
//!
//! # Cost
//!
//! Heads, lines before chunks and trailers are taken by [`Source::read_line`](zx_outside::Source::read_line), each byte copied once, and
//! bodies in pieces of up to 4,096 bytes, each copied once. A head is parsed at the empty line that ends it, and once more for its fields.
//! A call keeps the head, the body and one line before a chunk or the trailer fields, each in a buffer that grows by doubling. A [`Lines`]
//! keeps the bytes after the last line that it gave: less than one line and a piece. It scans each byte once. When it gives a line, it
//! copies the bytes after it, which are less than a piece.
#![tactic(auto)]

mod body;
mod chunked;
mod fault;
mod framing;
mod head;
mod laws;
mod lines;
mod request;
mod response;
mod send;
mod taking;

pub use chunked::{send_chunk, send_last_chunk, send_stream_head};
pub use fault::HttpFault;
pub use laws::{requests_come_back, responses_come_back, streams_come_back};
pub use lines::Lines;
pub use request::read_request;
pub use response::read_response;
pub use send::{send_request, send_response};
