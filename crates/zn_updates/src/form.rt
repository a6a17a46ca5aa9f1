//! What is refused by the form of a request alone.

ghost use Rattle.std.specs.Prelude.{IfOk, Some, None};
ghost use Rattle.zk_model.specs.Single.{form_refusal, is_sequential};
ghost use Rattle.zk_model.specs.declared.request.Part.TheVariants as part;
ghost use Rattle.zx_base.specs.Maps.{Bytes as ByteList};
ghost use Rattle.zn_updates.specs.Forms.{IsInnerPath, IsFormOf};

use std::alloc::Global;
use zk_model::access::is_open_acl;
use zk_model::code::{BAD_ARGUMENTS, INVALID_ACL};
use zk_model::flags::{is_create_mode, is_sequential};
use zk_model::{Acl, Path, read_path};
use zx_base::Memory;

/// What the test of a create's form gives.
#[derive(Drop)]
pub enum Form {
    /// The path as it was tested: a sequential create's has `1` in place of its number.
    Valid(Path),
    /// The error code of the refusal.
    Refused(i32),
}

/// Tests the form of a create: refused with BadArguments (-8) where the path is not valid or the flags are not 0 to 3, otherwise
/// with InvalidACL (-114) where the access list is not `OPEN_ACL_UNSAFE`. A sequential create's path is tested with `1` after it.
pub fn create_form(alloc: Global, path: &[u8], acl: &[Acl], flags: i32) -> Result<Form, Memory>
    ensures { IfOk result (λ form. (content : ByteList) → IsFormOf (is_sequential flags) path.now (form_refusal (part.Create path.now content acl.now flags)) form) }
{
    let Some(named) = read_path(alloc, path, is_sequential(flags))? else {
        return Ok(Form::Refused(BAD_ARGUMENTS));
    };
    if !is_create_mode(flags) {
        return Ok(Form::Refused(BAD_ARGUMENTS));
    }
    if !is_open_acl(acl) {
        return Ok(Form::Refused(INVALID_ACL));
    }
    Ok(Form::Valid(named))
}

/// The path of a node that is not the root: none where the text is not valid, or is the root's.
pub fn inner_path(alloc: Global, text: &[u8]) -> Result<Option<Path>, Memory>
    ensures { IfOk result (λ p. IsInnerPath text.now p) }
{
    if text == b"/".as_slice() {
        return Ok(None);
    }
    read_path(alloc, text, false)
}
