//! Lines of a script.

ghost use Rattle.std.specs.Prelude.{◌≡◌, IfOk};
ghost use Rattle.zt_text.specs.Scripts.{happening_read};

use crate::Happening;
use crate::form::line_of_form;
use crate::words::first_word;
use std::alloc::Global;
use zx_base::Memory;

/// The most bytes of a line, without its line feed.
pub const MAX_LINE: usize = 2_200_000;

/// The most bytes of a script.
pub const MAX_SCRIPT: usize = 100_000_000;

/// What a line of a script says, without its line feed; None where it is of no form, or longer than [`MAX_LINE`].
///
/// Each byte is read twice, and none is copied but the bytes that HEX spells.
#[tactic(auto, unfolding(crate::specs::Scripts::happening_read))]
pub fn read_line(alloc: Global, line: &[u8]) -> Result<Option<Happening>, Memory>
    ensures { IfOk result (λ h. h ≡ happening_read line.now) }
{
    if line.len() > MAX_LINE {
        return Ok(None);
    }
    let (form, words) = first_word(line);
    line_of_form(alloc, form, words)
}
