//! The reply that a plan earns.

ghost use Rattle.std.specs.Prelude.{◌≡◌, IfOk, map};
ghost use Rattle.zn_view.specs.Needs.{finished as finished_reply, own as own_zxid, own_body as own_body_of, own_result as own_result_of, own_stat as own_stat_of};

use std::alloc::Global;
use zk_model::{Body, PartResult, Reply, Stat};
use zn_view::Plan;
use zx_base::{Memory, Seq};

/// The update's zxid in place of 0.
fn own(zxid: i64, stored: i64) -> i64
    ensures { result ≡ own_zxid zxid stored }
{
    if stored == 0 { zxid } else { stored }
}

fn own_stat(zxid: i64, stat: Stat) -> Stat
    ensures { result ≡ own_stat_of zxid stat }
{
    Stat {
        czxid: own(zxid, stat.czxid),
        mzxid: own(zxid, stat.mzxid),
        ctime: stat.ctime,
        mtime: stat.mtime,
        version: stat.version,
        cversion: stat.cversion,
        aversion: stat.aversion,
        ephemeral_owner: stat.ephemeral_owner,
        data_length: stat.data_length,
        num_children: stat.num_children,
        pzxid: own(zxid, stat.pzxid),
    }
}

fn own_result(zxid: i64, draft: PartResult) -> PartResult
    ensures { result ≡ own_result_of zxid draft }
{
    match draft {
        PartResult::Set(stat) => PartResult::Set(own_stat(zxid, stat)),
        PartResult::Created(path) => PartResult::Created(path),
        PartResult::Deleted => PartResult::Deleted,
        PartResult::Checked => PartResult::Checked,
        PartResult::Code(code) => PartResult::Code(code),
    }
}

fn own_results(alloc: Global, zxid: i64, drafts: Seq<PartResult>) -> Result<Seq<PartResult>, Memory>
    ensures { IfOk result (λ l. l ≡ map (own_result_of zxid) drafts) }
{
    let mut results = Seq::new(alloc);
    for draft in drafts.into_vec() {
        results.push(own_result(zxid, draft))?;
    }
    Ok(results)
}

fn own_body(alloc: Global, zxid: i64, body: Body) -> Result<Body, Memory>
    ensures { IfOk result (λ b. b ≡ own_body_of zxid body) }
{
    match body {
        Body::Stat(stat) => Ok(Body::Stat(own_stat(zxid, stat))),
        Body::Parts(drafts) => Ok(Body::Parts(own_results(alloc, zxid, drafts)?)),
        Body::Empty => Ok(Body::Empty),
        Body::Path(path) => Ok(Body::Path(path)),
        Body::Content(content, stat) => Ok(Body::Content(content, stat)),
        Body::Names(names) => Ok(Body::Names(names)),
        Body::NamesStat(names, stat) => Ok(Body::NamesStat(names, stat)),
        Body::OpenAcl(stat) => Ok(Body::OpenAcl(stat)),
        Body::PathStat(path, stat) => Ok(Body::PathStat(path, own_stat(zxid, stat))),
    }
}

/// The reply of a plan whose update got this zxid: its draft, with the zxid in place of each czxid, mzxid and pzxid of 0 in a Stat.
pub fn finish(alloc: Global, plan: Plan, zxid: i64) -> Result<Reply, Memory>
    ensures { IfOk result (λ r. r ≡ finished_reply zxid plan.draft) }
{
    let Plan { draft, .. } = plan;
    match draft {
        Reply::Good(body) => Ok(Reply::Good(own_body(alloc, zxid, body)?)),
        Reply::Refused(code) => Ok(Reply::Refused(code)),
    }
}
