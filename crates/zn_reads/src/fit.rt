//! Whether a reply that lists children fits a frame, whose length is an int.

ghost use Rattle.std.specs.Prelude.{◌≡◌};
ghost use Rattle.zk_model.specs.declared.reply.Body.TheVariants as body;
ghost use Rattle.zn_reads.specs.Replies.{fitting};

use zk_model::code::SYSTEM_ERROR;
use zk_model::{Body, Reply, Stat};
use zk_service::{names_and_stat_fit, names_fit};
use zx_base::{Seq, Text};

/// The names, or a refusal where their frame would be too long.
pub(crate) fn names_in_frame(names: Seq<Text>) -> Reply
    ensures { result ≡ fitting (body.Names names) }
{
    if names_fit(names.as_slice()) {
        Reply::Good(Body::Names(names))
    } else {
        Reply::Refused(SYSTEM_ERROR)
    }
}

/// The names and the node's stat, or a refusal where their frame would be too long.
pub(crate) fn names_and_stat_in_frame(names: Seq<Text>, stat: Stat) -> Reply
    ensures { result ≡ fitting (body.NamesStat names stat) }
{
    if names_and_stat_fit(names.as_slice(), &stat) {
        Reply::Good(Body::NamesStat(names, stat))
    } else {
        Reply::Refused(SYSTEM_ERROR)
    }
}
