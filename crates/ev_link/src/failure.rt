//! Why a link over HTTP failed.

use ev_http::HttpFault;
use ev_json::JsonFault;

/// Why an ask over HTTP has no answer. A link keeps one, but not that memory ran out.
#[derive(Clone, Copy)]
pub enum LinkFailure {
    /// The request could not be sent, or the response not be read.
    Http(HttpFault),
    /// The response's body is no answer to the ask.
    Json(JsonFault),
}
