//! What the counts of packets amount to. Each function does nothing, and its contract is the law: only what a contract names
//! is proved.

ghost use Rattle.std.specs.Prelude.{◌≡◌, ◌≤ℤ◌, ◌<ℤ◌, ℕ, ℤ, pos, true, false};
ghost use Rattle.zk_jute.specs.Packets.{connect_packet, notice_packet, reply_packet};
ghost use Rattle.zk_model.specs.Codes.{minus};
ghost use Rattle.zk_model.specs.declared.connect.ConnectResponse.{ConnectResponse};
ghost use Rattle.zk_model.specs.declared.reply.Body.{Body};
ghost use Rattle.zk_model.specs.declared.reply.Notice.{Notice};
ghost use Rattle.zk_model.specs.declared.reply.Reply.{Reply as SomeReply};
ghost use Rattle.zk_model.specs.declared.reply.Reply.TheVariants as reply;
ghost use Rattle.zp_clients.specs.Sent.{is_notice, is_refusal, is_reply};
ghost use Rattle.zp_clients.specs.Wishes.{xid_of};
ghost use Rattle.zp_clients.specs.declared.wish.Wish.{Wish as SomeWish};

/// Of the packets that a client is sent, a notification is told as one, the answer to a connect as neither a notification nor a
/// reply, and the reply to each request of a client as a reply; as a refusal exactly where it has an error.
#[tactic(auto, using(crate::proofs::Telling::notice_told, crate::proofs::Telling::connect_told, crate::proofs::Telling::reply_told, crate::proofs::Telling::refusal_told, crate::proofs::Telling::good_told))]
pub fn packets_are_told_apart()
    ensures notices { (n : Notice) → is_notice (notice_packet n) ≡ true }
    ensures connects { (r : ConnectResponse) → (is_notice (connect_packet r) ≡ false) × (is_reply (connect_packet r) ≡ false) }
    ensures replies { (w : SomeWish) (last : ℕ) (zxid : ℤ) (r : SomeReply) → is_reply (reply_packet (xid_of w last) zxid r) ≡ true }
    ensures refusals { (w : SomeWish) (last : ℕ) (zxid code : ℤ) → minus 200 ≤ℤ code → code <ℤ pos 0 → is_refusal (reply_packet (xid_of w last) zxid (reply.Refused code)) ≡ true }
    ensures others { (xid zxid : ℤ) (b : Body) → is_refusal (reply_packet xid zxid (reply.Good b)) ≡ false }
{}
