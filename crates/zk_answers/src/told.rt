//! What a connection is told in answer to a request.

ghost use Rattle.std.specs.Prelude.{◌≡◌, Some};
ghost use Rattle.zk_model.specs.declared.reply.Reply.TheVariants as reply;
ghost use Rattle.zk_service.specs.Answers.{told};
ghost use Rattle.zk_answers.specs.Outcomes.{told_of};

use crate::watches::Watches;
use std::alloc::Global;
use zk_model::{Body, Notice, Reply};
use zx_base::Seq;

/// A reply, the notices that stand before it, and what is armed after it.
#[derive(Drop)]
pub struct Told {
    pub reply: Reply,
    pub notices: Seq<Notice>,
    pub watches: Watches,
}

/// A reply with code 0 and no notices.
pub fn good(alloc: Global, watches: Watches, body: Body) -> Told
    ensures { Some (told_of result) ≡ told watches (reply.Good body) }
{
    Told {
        reply: Reply::Good(body),
        notices: Seq::new(alloc),
        watches,
    }
}

/// A refusal without notices.
pub fn refused(alloc: Global, watches: Watches, code: i32) -> Told
    ensures { Some (told_of result) ≡ told watches (reply.Refused code) }
{
    Told {
        reply: Reply::Refused(code),
        notices: Seq::new(alloc),
        watches,
    }
}
