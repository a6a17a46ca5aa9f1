//! Copies of the bodies of replies.

ghost use Rattle.std.specs.Prelude.{◌≡◌, IfOk};

use std::alloc::Global;
use zk_model::{Body, PartResult};
use zx_base::{Bytes, Memory, Seq, Text};

fn copy_of_names(alloc: Global, names: &[Text]) -> Result<Seq<Text>, Memory>
    ensures { IfOk result (λ copied. copied ≡ names.now) }
{
    let mut copied = Vec::new(alloc);
    for name in names {
        copied.push(Text::copy_of(alloc, name.as_slice())?)?;
    }
    Ok(Seq::from_vec(copied))
}

fn copy_of_result(alloc: Global, part: &PartResult) -> Result<PartResult, Memory>
    ensures { IfOk result (λ copied. copied ≡ part.now) }
{
    Ok(match part {
        PartResult::Created(path) => PartResult::Created(Text::copy_of(alloc, path.as_slice())?),
        PartResult::Deleted => PartResult::Deleted,
        PartResult::Set(stat) => PartResult::Set(*stat),
        PartResult::Checked => PartResult::Checked,
        PartResult::Code(code) => PartResult::Code(*code),
    })
}

fn copy_of_results(alloc: Global, parts: &[PartResult]) -> Result<Seq<PartResult>, Memory>
    ensures { IfOk result (λ copied. copied ≡ parts.now) }
{
    let mut copied = Vec::new(alloc);
    for part in parts {
        copied.push(copy_of_result(alloc, part)?)?;
    }
    Ok(Seq::from_vec(copied))
}

/// A copy of a body.
pub fn copy_of_body(alloc: Global, body: &Body) -> Result<Body, Memory>
    ensures { IfOk result (λ copied. copied ≡ body.now) }
{
    Ok(match body {
        Body::Empty => Body::Empty,
        Body::Path(path) => Body::Path(Text::copy_of(alloc, path.as_slice())?),
        Body::Stat(stat) => Body::Stat(*stat),
        Body::Content(content, stat) => {
            Body::Content(Bytes::copy_of(alloc, content.as_slice())?, *stat)
        }
        Body::Names(names) => Body::Names(copy_of_names(alloc, names.as_slice())?),
        Body::NamesStat(names, stat) => {
            Body::NamesStat(copy_of_names(alloc, names.as_slice())?, *stat)
        }
        Body::OpenAcl(stat) => Body::OpenAcl(*stat),
        Body::Parts(parts) => Body::Parts(copy_of_results(alloc, parts.as_slice())?),
        Body::PathStat(path, stat) => {
            Body::PathStat(Text::copy_of(alloc, path.as_slice())?, *stat)
        }
    })
}
