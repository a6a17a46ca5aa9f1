//! What is true of every frame. These functions do nothing: each clause is a law of the definitions, and only what a
//! contract names is proved.

ghost use Rattle.std.specs.Prelude.{◌≡◌, ◌≢◌, ℕ, ℤ, ◌≤◌, Some, List, [], ◌∷◌, length};
ghost use Rattle.zk_jute.specs.Connects.{connect_response_values, read_connect};
ghost use Rattle.zk_jute.specs.Frames.{Framed};
ghost use Rattle.zk_jute.specs.FromValues.{request_from};
ghost use Rattle.zk_jute.specs.Grammar.{IsConnect, IsConnectResponse, IsNotice, IsReply, IsRequest, Suits};
ghost use Rattle.zk_jute.specs.JuteWriting.{AreValues};
ghost use Rattle.zk_jute.specs.Numbers.{opcode_number, opcode_of, opcode_numbered};
ghost use Rattle.zk_jute.specs.Packets.{CanBeSent, NoticeCanBeSent, connect_bytes, connect_packet, notice_bytes, notice_packet, notice_values, reply_bytes, reply_packet, reply_values};
ghost use Rattle.zk_jute.specs.Records.{values_of};
ghost use Rattle.zk_jute.specs.ReplyReading.{Answers, read_reply};
ghost use Rattle.zk_jute.specs.Requests.{Asks, read_request};
ghost use Rattle.zk_jute.specs.Sending.{RequestCanBeSent, request_bytes, request_packet, request_values};
ghost use Rattle.zk_model.specs.declared.connect.ConnectRequest.{ConnectRequest};
ghost use Rattle.zk_model.specs.declared.connect.ConnectResponse.{ConnectResponse};
ghost use Rattle.zk_jute.specs.declared.opcode.Opcode.{Opcode};
ghost use Rattle.zk_jute.specs.declared.opcode.Opcode.TheVariants as opcodes;
ghost use Rattle.zk_model.specs.declared.reply.Notice.{Notice};
ghost use Rattle.zk_model.specs.declared.reply.Reply.{Reply};
ghost use Rattle.zk_model.specs.declared.request.Request.{Request};
ghost use Rattle.zk_model.specs.Limits.{max_frame};

/// A frame is read as a request exactly where it spells one, so it spells one request at most. The values of a request that is
/// no multi make that request, and the number of a kind names that kind.
pub fn requests_are_spelled()
    ensures found { (frame : List ℕ) (xid : ℤ) (request : Request) → read_request frame ≡ Asks xid request → IsRequest xid request frame }
    ensures only { (frame : List ℕ) (xid : ℤ) (request : Request) → IsRequest xid request frame → read_request frame ≡ Asks xid request }
    ensures one { (frame : List ℕ) (xid other_xid : ℤ) (request other : Request) → IsRequest xid request frame → IsRequest other_xid other frame → (xid ≡ other_xid) × (request ≡ other) }
    ensures made { (request : Request) → opcode_of request ≢ opcodes.Multi → request_from (opcode_of request) (values_of request) ≡ request }
    ensures numbered { (code : Opcode) → opcode_numbered (opcode_number code) ≡ Some code }
{}

/// A frame is read as a connect exactly where it spells one, so it spells one connect at most.
pub fn connects_are_spelled()
    ensures found { (frame : List ℕ) (connect : ConnectRequest) → read_connect frame ≡ Some connect → IsConnect connect frame }
    ensures only { (frame : List ℕ) (connect : ConnectRequest) → IsConnect connect frame → read_connect frame ≡ Some connect }
    ensures one { (frame : List ℕ) (connect other : ConnectRequest) → IsConnect connect frame → IsConnect other frame → connect ≡ other }
{}

/// A frame is read as a reply to a request of one kind exactly where it spells one, so it spells one reply at most.
pub fn replies_are_spelled()
    ensures found { (frame : List ℕ) (kind : ℤ) (code : Opcode) (xid zxid : ℤ) (reply : Reply) →
        opcode_numbered kind ≡ Some code → read_reply frame kind ≡ Answers xid zxid reply → IsReply code xid zxid reply frame }
    ensures only { (frame : List ℕ) (kind : ℤ) (code : Opcode) (xid zxid : ℤ) (reply : Reply) →
        opcode_numbered kind ≡ Some code → IsReply code xid zxid reply frame → read_reply frame kind ≡ Answers xid zxid reply }
    ensures one { (frame : List ℕ) (code : Opcode) (xid other_xid zxid other_zxid : ℤ) (reply other : Reply) →
        IsReply code xid zxid reply frame → IsReply code other_xid other_zxid other frame → (xid ≡ other_xid) × (zxid ≡ other_zxid) × (reply ≡ other) }
{}

/// The packet of a request is cut as one frame where that frame is within the limit. The frame is read as the request where its
/// length fits an int, numbers are in their range and texts are UTF-8.
pub fn requests_come_back()
    ensures framed { (xid : ℤ) (request : Request) → length (request_bytes xid request) ≤ max_frame → Framed (request_packet xid request) (request_bytes xid request ∷ []) [] }
    ensures read { (xid : ℤ) (request : Request) → RequestCanBeSent request → AreValues (request_values xid request) → read_request (request_bytes xid request) ≡ Asks xid request }
{}

/// The packet of a reply is cut as one frame where that frame is within the limit. The frame is read as the reply to a request of
/// its kind where its length fits an int, a refusal's code is not 0, a body is of the shape that answers the kind, numbers are in
/// their range and texts are UTF-8.
pub fn replies_come_back()
    ensures framed { (xid zxid : ℤ) (reply : Reply) → length (reply_bytes xid zxid reply) ≤ max_frame → Framed (reply_packet xid zxid reply) (reply_bytes xid zxid reply ∷ []) [] }
    ensures read { (kind : ℤ) (code : Opcode) (xid zxid : ℤ) (reply : Reply) → opcode_numbered kind ≡ Some code → Suits code reply → CanBeSent reply → AreValues (reply_values xid zxid reply) →
        read_reply (reply_bytes xid zxid reply) kind ≡ Answers xid zxid reply }
{}

/// The packet of a notification is cut as one frame where that frame is within the limit. The frame spells that notification and
/// no other where its length fits an int, the type is in the range of an int and the path is UTF-8.
pub fn notices_are_spelled()
    ensures framed { (notice : Notice) → length (notice_bytes notice) ≤ max_frame → Framed (notice_packet notice) (notice_bytes notice ∷ []) [] }
    ensures spelled { (notice : Notice) → NoticeCanBeSent notice → AreValues (notice_values notice) → IsNotice notice (notice_bytes notice) }
    ensures one { (frame : List ℕ) (notice other : Notice) → IsNotice notice frame → IsNotice other frame → notice ≡ other }
{}

/// The packet of an answer to a connect is cut as one frame where its password has 16 bytes. The frame spells that answer and no
/// other where its numbers are in their range too.
pub fn connect_responses_are_spelled()
    ensures framed { (response : ConnectResponse) → length response.passwd ≡ 16 → Framed (connect_packet response) (connect_bytes response ∷ []) [] }
    ensures spelled { (response : ConnectResponse) → length response.passwd ≡ 16 → AreValues (connect_response_values response) → IsConnectResponse response (connect_bytes response) }
    ensures one { (frame : List ℕ) (response other : ConnectResponse) → IsConnectResponse response frame → IsConnectResponse other frame → response ≡ other }
{}
