//! The fields of what a server sends, in order.

ghost use Rattle.std.specs.Prelude.{◌≡◌, OnOk};
ghost use Rattle.std.specs.List.{AllByRecursion};
ghost use Rattle.zk_jute.specs.Connects.{connect_response_values, optional};
ghost use Rattle.zk_model.specs.declared.reply.Body.TheVariants as bodies;
ghost use Rattle.zk_jute.specs.Packets.{reply_values, notice_values};
ghost use Rattle.zk_jute.specs.Replies.{body_values};
ghost use Rattle.zk_jute.specs.Results.{result_header, result_values};
ghost use Rattle.zk_wire.specs.Putting.{put_all};

use crate::sink::FieldSink;
use zk_jute::PartKind;
use zk_model::{Body, ConnectResponse, Notice, PartResult, Reply};

/// Puts a reply's header, and its body where it is no refusal.
pub fn put_reply<S: FieldSink>(
    sink: &mut S,
    xid: i32,
    zxid: i64,
    reply: &Reply,
) -> Result<(), S::Fault>
    requires { AllByRecursion S.can_put (reply_values xid zxid reply.now) }
    ensures { OnOk result (sink.new ≡ put_all S.put sink.old (reply_values xid zxid reply.now)) }
{
    sink.int(xid)?;
    sink.long(zxid)?;
    match reply {
        Reply::Refused(code) => sink.int(*code),
        Reply::Good(body) => {
            sink.int(0)?;
            put_body(sink, body)
        }
    }
}

/// Puts a notification: xid -1, zxid -1, no error, its type, the state `SyncConnected`, which is 3, and its path.
pub fn put_notice<S: FieldSink>(sink: &mut S, notice: &Notice) -> Result<(), S::Fault>
    requires { AllByRecursion S.can_put (notice_values notice.now) }
    ensures { OnOk result (sink.new ≡ put_all S.put sink.old (notice_values notice.now)) }
{
    sink.int(-1)?;
    sink.long(-1)?;
    sink.int(0)?;
    sink.int(notice.kind)?;
    sink.int(3)?;
    sink.ustring(notice.path.as_slice())
}

/// Puts the answer to a connect. Its protocol version is 0.
pub fn put_connect<S: FieldSink>(sink: &mut S, response: &ConnectResponse) -> Result<(), S::Fault>
    requires { AllByRecursion S.can_put (connect_response_values response.now) }
    ensures { OnOk result (sink.new ≡ put_all S.put sink.old (connect_response_values response.now)) }
{
    sink.int(0)?;
    sink.int(response.timeout)?;
    sink.long(response.session)?;
    sink.buffer(&response.passwd)?;
    put_optional(sink, response.read_only)
}

fn put_optional<S: FieldSink>(sink: &mut S, flag: Option<bool>) -> Result<(), S::Fault>
    ensures { OnOk result (sink.new ≡ put_all S.put sink.old (optional flag)) }
{
    match flag {
        Some(flag) => sink.boolean(flag),
        None => Ok(()),
    }
}

fn put_body<S: FieldSink>(sink: &mut S, body: &Body) -> Result<(), S::Fault>
    requires { AllByRecursion S.can_put (body_values body.now) }
    ensures { OnOk result (sink.new ≡ put_all S.put sink.old (body_values body.now)) }
{
    match body {
        Body::Empty => Ok(()),
        Body::Path(path) => sink.ustring(path.as_slice()),
        Body::Stat(stat) => sink.stat(stat),
        Body::Content(content, stat) => {
            sink.buffer(content.as_slice())?;
            sink.stat(stat)
        }
        Body::Names(names) => sink.ustrings(names.as_slice()),
        Body::NamesStat(names, stat) => {
            sink.ustrings(names.as_slice())?;
            sink.stat(stat)
        }
        Body::OpenAcl(stat) => {
            sink.open_acl()?;
            sink.stat(stat)
        }
        Body::Parts(results) => put_results(sink, results.as_slice()),
        Body::PathStat(path, stat) => {
            sink.ustring(path.as_slice())?;
            sink.stat(stat)
        }
    }
}

fn put_results<S: FieldSink>(sink: &mut S, results: &[PartResult]) -> Result<(), S::Fault>
    requires { AllByRecursion S.can_put (body_values (bodies.Parts results.now)) }
    ensures { OnOk result (sink.new ≡ put_all S.put sink.old (body_values (bodies.Parts results.now))) }
{
    for outcome in results {
        put_result(sink, outcome)?;
    }
    put_header(sink, -1, true, -1)
}

fn put_result<S: FieldSink>(sink: &mut S, outcome: &PartResult) -> Result<(), S::Fault>
    requires { AllByRecursion S.can_put (result_values outcome.now) }
    ensures { OnOk result (sink.new ≡ put_all S.put sink.old (result_values outcome.now)) }
{
    match outcome {
        PartResult::Created(path) => {
            put_header(sink, PartKind::Create.number(), false, 0)?;
            sink.ustring(path.as_slice())
        }
        PartResult::Deleted => put_header(sink, PartKind::Delete.number(), false, 0),
        PartResult::Set(stat) => {
            put_header(sink, PartKind::SetData.number(), false, 0)?;
            sink.stat(stat)
        }
        PartResult::Checked => put_header(sink, PartKind::Check.number(), false, 0),
        PartResult::Code(code) => {
            put_header(sink, -1, false, *code)?;
            sink.int(*code)
        }
    }
}

/// Puts a header of a multi's reply.
fn put_header<S: FieldSink>(sink: &mut S, kind: i32, last: bool, err: i32) -> Result<(), S::Fault>
    ensures { OnOk result (sink.new ≡ put_all S.put sink.old (result_header kind last err)) }
{
    sink.int(kind)?;
    sink.boolean(last)?;
    sink.int(err)
}
