//! Whether a reply that lists children fits a frame, whose length is an `int`.

ghost use Rattle.std.specs.Prelude.{◌≡◌, ◌+◌, length, nat_le, sum_by};
ghost use Rattle.zk_model.specs.declared.reply.Body.TheVariants as body;
ghost use Rattle.zk_service.specs.Answers.{fits_reply};

use zk_model::Stat;
use zx_base::Text;

/// The most bytes of a frame, by the range of its length.
const MAX_INT: usize = 2147483647;

/// The bytes of a reply's header (`ReplyHeader`) and of the count of a vector.
const HEADER_AND_COUNT: usize = 20;

/// The bytes of a Stat (`Stat`).
const STAT: usize = 68;

/// Whether texts, each after its length of four bytes, take at most `room` bytes.
fn fit(texts: &[Text], room: usize) -> bool
    ensures { result ≡ nat_le (sum_by (λ t. 4 + length t) texts.now) room }
{
    let mut left = room;
    for text in texts {
        if left < 4 || left - 4 < text.len() {
            return false;
        }
        left = left - 4 - text.len();
    }
    true
}

/// Whether the reply to a getChildren with these names fits a frame.
pub fn names_fit(names: &[Text]) -> bool
    ensures { result ≡ fits_reply (body.Names names.now) }
{
    fit(names, MAX_INT - HEADER_AND_COUNT)
}

/// Whether the reply to a getChildren2 with these names and this Stat fits a frame.
pub fn names_and_stat_fit(names: &[Text], stat: &Stat) -> bool
    ensures { result ≡ fits_reply (body.NamesStat names.now stat.now) }
{
    fit(names, MAX_INT - HEADER_AND_COUNT - STAT)
}
