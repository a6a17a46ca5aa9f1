//! The fields of a request, in order.

ghost use Rattle.std.specs.Prelude.{◌≡◌, ◌∷◌, [], OnOk};
ghost use Rattle.std.specs.List.{AllByRecursion};
ghost use Rattle.zk_jute.specs.JuteValues.{int, long, boolean, buffer, ustring, ustrings};
ghost use Rattle.zk_jute.specs.Numbers.{opcode_of, part_kind as kind_of_part};
ghost use Rattle.zk_jute.specs.Records.{create_values, set_data_values, part_values};
ghost use Rattle.zk_jute.specs.Sending.{header_values, whole_part, multi_values, asked_values, request_values};
ghost use Rattle.zk_wire.specs.Putting.{put_all};

use crate::sink::FieldSink;
use zk_jute::{Opcode, PartKind};
use zk_model::{Acl, Part, Request};
use zx_base::{Bytes, Seq, Text};

/// Puts a request's header and its body.
pub fn put_request<S: FieldSink>(sink: &mut S, xid: i32, request: &Request) -> Result<(), S::Fault>
    requires { AllByRecursion S.can_put (request_values xid request.now) }
    ensures { OnOk result (sink.new ≡ put_all S.put sink.old (request_values xid request.now)) }
{
    sink.int(xid)?;
    sink.int(opcode(request).number())?;
    put_body(sink, request)
}

/// Puts a request's body, field by field; of a multi, each part with its header, and the last header.
pub fn put_body<S: FieldSink>(sink: &mut S, request: &Request) -> Result<(), S::Fault>
    requires { AllByRecursion S.can_put (asked_values request.now) }
    ensures { OnOk result (sink.new ≡ put_all S.put sink.old (asked_values request.now)) }
{
    match request {
        Request::Create {
            path,
            content,
            acl,
            flags,
        }
        | Request::Create2 {
            path,
            content,
            acl,
            flags,
        } => put_create(sink, path, content, acl, *flags),
        Request::Delete { path, version } | Request::Check { path, version } => {
            put_path_int(sink, path, *version)
        }
        Request::CheckWatches { path, kind } | Request::RemoveWatches { path, kind } => {
            put_path_int(sink, path, *kind)
        }
        Request::Exists { path, watch }
        | Request::GetData { path, watch }
        | Request::GetChildren { path, watch }
        | Request::GetChildren2 { path, watch } => put_path_boolean(sink, path, *watch),
        Request::SetData {
            path,
            content,
            version,
        } => put_set_data(sink, path, content, *version),
        Request::GetAcl { path } | Request::Sync { path } => sink.ustring(path.as_slice()),
        Request::Multi { parts } => put_parts(sink, parts.as_slice()),
        Request::Auth { kind, scheme, auth } => put_auth(sink, *kind, scheme, auth),
        Request::SetWatches {
            relative,
            exists,
            datas,
            children,
        } => put_set_watches(sink, *relative, datas, exists, children),
        Request::Ping | Request::Close => Ok(()),
    }
}

/// Puts the fields of a create (`CreateRequest`), of a create2, and of a create in a multi.
fn put_create<S: FieldSink>(
    sink: &mut S,
    path: &Text,
    content: &Bytes,
    acl: &Seq<Acl>,
    flags: i32,
) -> Result<(), S::Fault>
    requires { AllByRecursion S.can_put (create_values path.now content.now acl.now flags) }
    ensures { OnOk result (sink.new ≡ put_all S.put sink.old (create_values path.now content.now acl.now flags)) }
{
    sink.ustring(path.as_slice())?;
    sink.buffer(content.as_slice())?;
    sink.acls(acl.as_slice())?;
    sink.int(flags)
}

/// Puts the fields of a setData (`SetDataRequest`), also of one in a multi.
fn put_set_data<S: FieldSink>(
    sink: &mut S,
    path: &Text,
    content: &Bytes,
    version: i32,
) -> Result<(), S::Fault>
    requires { AllByRecursion S.can_put (set_data_values path.now content.now version) }
    ensures { OnOk result (sink.new ≡ put_all S.put sink.old (set_data_values path.now content.now version)) }
{
    sink.ustring(path.as_slice())?;
    sink.buffer(content.as_slice())?;
    sink.int(version)
}

/// Puts a path and a number: a delete's and a check's version, or which watches a checkWatches or a removeWatches means.
fn put_path_int<S: FieldSink>(sink: &mut S, path: &Text, number: i32) -> Result<(), S::Fault>
    requires { AllByRecursion S.can_put (ustring path.now ∷ int number ∷ []) }
    ensures { OnOk result (sink.new ≡ put_all S.put sink.old (ustring path.now ∷ int number ∷ [])) }
{
    sink.ustring(path.as_slice())?;
    sink.int(number)
}

/// Puts a path and a flag: whether a read arms a watch.
fn put_path_boolean<S: FieldSink>(sink: &mut S, path: &Text, flag: bool) -> Result<(), S::Fault>
    requires { AllByRecursion S.can_put (ustring path.now ∷ boolean flag ∷ []) }
    ensures { OnOk result (sink.new ≡ put_all S.put sink.old (ustring path.now ∷ boolean flag ∷ [])) }
{
    sink.ustring(path.as_slice())?;
    sink.boolean(flag)
}

/// Puts the fields of an auth (`AuthPacket`).
fn put_auth<S: FieldSink>(
    sink: &mut S,
    kind: i32,
    scheme: &Text,
    auth: &Bytes,
) -> Result<(), S::Fault>
    requires { AllByRecursion S.can_put (int kind ∷ ustring scheme.now ∷ buffer auth.now ∷ []) }
    ensures { OnOk result (sink.new ≡ put_all S.put sink.old (int kind ∷ ustring scheme.now ∷ buffer auth.now ∷ [])) }
{
    sink.int(kind)?;
    sink.ustring(scheme.as_slice())?;
    sink.buffer(auth.as_slice())
}

/// Puts the fields of a setWatches (`SetWatches`): a zxid, and the paths of the data, exists and child watches.
fn put_set_watches<S: FieldSink>(
    sink: &mut S,
    relative: i64,
    datas: &Seq<Text>,
    exists: &Seq<Text>,
    children: &Seq<Text>,
) -> Result<(), S::Fault>
    requires { AllByRecursion S.can_put (long relative ∷ ustrings datas.now ∷ ustrings exists.now ∷ ustrings children.now ∷ []) }
    ensures { OnOk result (sink.new ≡ put_all S.put sink.old (long relative ∷ ustrings datas.now ∷ ustrings exists.now ∷ ustrings children.now ∷ [])) }
{
    sink.long(relative)?;
    sink.ustrings(datas.as_slice())?;
    sink.ustrings(exists.as_slice())?;
    sink.ustrings(children.as_slice())
}

fn put_parts<S: FieldSink>(sink: &mut S, parts: &[Part]) -> Result<(), S::Fault>
    requires { AllByRecursion S.can_put (multi_values parts.now) }
    ensures { OnOk result (sink.new ≡ put_all S.put sink.old (multi_values parts.now)) }
{
    for part in parts {
        put_part(sink, part)?;
    }
    put_header(sink, -1, true)
}

fn put_part<S: FieldSink>(sink: &mut S, part: &Part) -> Result<(), S::Fault>
    requires { AllByRecursion S.can_put (whole_part part.now) }
    ensures { OnOk result (sink.new ≡ put_all S.put sink.old (whole_part part.now)) }
{
    put_header(sink, part_kind(part).number(), false)?;
    put_part_fields(sink, part)
}

/// Puts a header of a multi (`MultiHeader`). Its error is -1.
fn put_header<S: FieldSink>(sink: &mut S, kind: i32, last: bool) -> Result<(), S::Fault>
    ensures { OnOk result (sink.new ≡ put_all S.put sink.old (header_values kind last)) }
{
    sink.int(kind)?;
    sink.boolean(last)?;
    sink.int(-1)
}

/// Puts the fields of a part of a multi, without its header.
pub fn put_part_fields<S: FieldSink>(sink: &mut S, part: &Part) -> Result<(), S::Fault>
    requires { AllByRecursion S.can_put (part_values part.now) }
    ensures { OnOk result (sink.new ≡ put_all S.put sink.old (part_values part.now)) }
{
    match part {
        Part::Create {
            path,
            content,
            acl,
            flags,
        } => put_create(sink, path, content, acl, *flags),
        Part::Delete { path, version } | Part::Check { path, version } => {
            put_path_int(sink, path, *version)
        }
        Part::SetData {
            path,
            content,
            version,
        } => put_set_data(sink, path, content, *version),
    }
}

fn opcode(request: &Request) -> Opcode
    ensures { result ≡ opcode_of request.now }
{
    match request {
        Request::Create { .. } => Opcode::Create,
        Request::Delete { .. } => Opcode::Delete,
        Request::Exists { .. } => Opcode::Exists,
        Request::GetData { .. } => Opcode::GetData,
        Request::SetData { .. } => Opcode::SetData,
        Request::GetAcl { .. } => Opcode::GetAcl,
        Request::GetChildren { .. } => Opcode::GetChildren,
        Request::GetChildren2 { .. } => Opcode::GetChildren2,
        Request::Sync { .. } => Opcode::Sync,
        Request::Ping => Opcode::Ping,
        Request::Check { .. } => Opcode::Check,
        Request::Multi { .. } => Opcode::Multi,
        Request::Auth { .. } => Opcode::Auth,
        Request::SetWatches { .. } => Opcode::SetWatches,
        Request::Close => Opcode::Close,
        Request::Create2 { .. } => Opcode::Create2,
        Request::CheckWatches { .. } => Opcode::CheckWatches,
        Request::RemoveWatches { .. } => Opcode::RemoveWatches,
    }
}

fn part_kind(part: &Part) -> PartKind
    ensures { result ≡ kind_of_part part.now }
{
    match part {
        Part::Create { .. } => PartKind::Create,
        Part::Delete { .. } => PartKind::Delete,
        Part::SetData { .. } => PartKind::SetData,
        Part::Check { .. } => PartKind::Check,
    }
}
