//! What is true of every message that is sent. These functions do nothing: each clause is a law of the definitions, and only
//! what a contract names is proved.

ghost use Rattle.std.specs.Prelude.{◌≡◌, ℕ, ◌<◌, ◌≤◌, ◌++◌, All, List, length};
ghost use Rattle.std.specs.List.{flat_map};
ghost use Rattle.httparse.specs.Grammar.{RequestHead, print_request, ResponseHead, print_response};
ghost use Rattle.ev_types.specs.declared.route.Route.{Route};
ghost use Rattle.ev_http.specs.Chunked.{IsPiece, stream_head, chunk, last_chunk};
ghost use Rattle.ev_http.specs.Messages.{HoldsRequest, HoldsResponse, HoldsStatus};
ghost use Rattle.ev_http.specs.Sending.{IsHost, IsPlainRequest, IsPlainResponse, request_head, response_head};

/// A request that is sent to a host of visible ASCII, with a head and a body within their limits, is that request to the one who
/// reads it, whatever bytes follow. Its head has the form that RFC 9112 asks of one who sends.
pub fn requests_come_back()
    ensures form { (host : List ℕ) (goes : Route) (n : ℕ) → IsHost host → n ≤ 8388608
        → (h : RequestHead) × (request_head host goes n ≡ print_request h) × IsPlainRequest host goes n h }
    ensures read { (host body rest : List ℕ) (goes : Route) → IsHost host → length (request_head host goes (length body)) ≤ 16384 → length body ≤ 8388608
        → HoldsRequest goes body rest ((request_head host goes (length body) ++ body) ++ rest) }
{}

/// A response that is sent with a status from 100 to 999 has that status and that body to the one who reads it, whatever bytes
/// follow; with status 200 it is read as that body. Its head has the form that RFC 9112 asks of one who sends.
pub fn responses_come_back()
    ensures form { (status n : ℕ) → 100 ≤ status → status < 1000 → n ≤ 8388608
        → (h : ResponseHead) × (response_head status n ≡ print_response h) × IsPlainResponse status n h }
    ensures status { (status : ℕ) (body rest : List ℕ) → 100 ≤ status → status < 1000 → length body ≤ 8388608
        → HoldsStatus status body rest ((response_head status (length body) ++ body) ++ rest) }
    ensures good { (body rest : List ℕ) → length body ≤ 8388608 → HoldsResponse body rest ((response_head 200 (length body) ++ body) ++ rest) }
{}

/// A stream that is sent in chunks is read as what they carry, joined, whatever bytes follow its last chunk.
pub fn streams_come_back()
    ensures { (pieces : List (List ℕ)) (rest : List ℕ) → All IsPiece pieces
        → HoldsResponse (flat_map (λ (piece : List ℕ). piece) pieces) rest ((stream_head ++ (flat_map chunk pieces ++ last_chunk)) ++ rest) }
{}
