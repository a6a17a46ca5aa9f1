//! Where the next input comes from.

ghost use Rattle.std.specs.Prelude.{◌≡◌, ◌<◌, length};
ghost use Rattle.ev_call.specs.Asks.{IsGrantable};
ghost use Rattle.std.specs.Prelude.{IfSome};
ghost use Rattle.zp_conn.specs.Inputs.{IsAnswered, IsFedIn};
ghost use Rattle.zp_conn.specs.Turning.{Asks, Closes, Feeds, TakesIn, come_by};

use crate::inbox::{Came, Inbox};
use crate::telling::{TellsFeed, TellsInputs, TellsLink};
use ev_call::{CallFault, Etcd};
use ev_types::Ask;
use zk_service::Cause;
use zp_core::{Core, Input, Wants};
use zw_hub::{Fed, Feed};
use zx_outside::Source;

/// What the driver does next.
#[derive(Drop)]
pub(crate) enum Next {
    /// This is handed in.
    Input(Input),
    /// Nothing came.
    Idle,
    /// The connection ends.
    Ended(Cause),
}

/// Asks etcd.
fn answer<L: Etcd>(link: &mut L, ask: &Ask) -> Next
    requires { IsGrantable ask.now }
    ensures answered { IsAnswered ask.now result }
    ensures asks { let told = ⟦<L as TellsLink>⟧.told in Asks ask.now result (told link.old) (told link.new) }
{
    match link.call(ask) {
        Ok(answer) => Next::Input(Input::Answer(answer)),
        Err(CallFault::Failed) => Next::Input(Input::Failed),
        Err(CallFault::Memory) => Next::Ended(Cause::Memory),
    }
}

/// The entry after the cursor. Where there is none, one of these bits is waited for.
#[tactic(auto, using(crate::proofs::Allowed::lag_above))]
fn entry<F: Feed>(feed: &mut F, bits: u64, cursor: i64) -> Next
    ensures fed { IsFedIn cursor result }
    ensures feeds { let told = ⟦<F as TellsFeed>⟧.told in Feeds cursor result (told feed.old) (told feed.new) }
{
    feed.heed(bits);
    match feed.next(cursor) {
        Fed::Entry(entry) => Next::Input(Input::Entry(entry)),
        Fed::None => Next::Idle,
        Fed::Lagged { cursor, floor } => Next::Input(Input::Lagged { cursor, floor }),
        Fed::Closed(_end) => Next::Input(Input::FeedClosed),
        Fed::Memory => Next::Ended(Cause::Memory),
    }
}

/// Whether the feed has ended. No entry is above the greatest number, so none is taken.
fn end_of<F: Feed>(feed: &mut F) -> Next
    ensures { let told = ⟦<F as TellsFeed>⟧.told in Closes result (told feed.old) (told feed.new) }
{
    match feed.next(i64::MAX) {
        Fed::Closed(_end) => Next::Input(Input::FeedClosed),
        Fed::None | Fed::Entry(_) => Next::Idle,
        Fed::Lagged { .. } => unreachable!(),
        Fed::Memory => Next::Ended(Cause::Memory),
    }
}

/// What a look at the stream comes to.
fn looked(came: Came) -> Next
    ensures { result ≡ come_by came }
{
    match came {
        Came::Frame(bytes) => Next::Input(Input::Frame(bytes)),
        Came::BadLength { place, length } => Next::Input(Input::BadLength { place, length }),
        Came::End { place } => Next::Input(Input::ClientEnd { place }),
        Came::Nothing => Next::Idle,
        Came::Failed => Next::Ended(Cause::ReadFault),
        Came::Memory => Next::Ended(Cause::Memory),
    }
}

/// Calls the ask that is out; or reads the feed or the source, as the connection wants. Where both are wanted, the feed is first.
/// Where a frame alone is wanted, none is there and no byte came, looks whether the feed has ended.
#[tactic(auto, using(crate::proofs::Allowed::fetch_answer, crate::proofs::Allowed::fetch_entry, crate::proofs::Allowed::fetch_either, crate::proofs::Allowed::fetch_frame, crate::proofs::Allowed::fetch_end, crate::proofs::Allowed::fetch_after, crate::proofs::Allowed::fetch_ahead, crate::proofs::Allowed::fetch_quiet))]
pub(crate) fn take_in<L: Etcd, F: Feed, S: Source>(
    core: &Core,
    asked: Option<Ask>,
    link: &mut L,
    feed: &mut F,
    inbox: &mut Inbox,
    source: &mut S,
    room: &mut [u8],
) -> Next
    requires room { 0 < length room.old }
    requires granted { IfSome asked IsGrantable }
    ensures takes { let t = ⟦<(S, L, F) as TellsInputs>⟧.told in
        TakesIn core.now asked result inbox.old inbox.new (t (source.old, link.old, feed.old))
        (t (source.new, link.new, feed.new)) }
    ensures named { S.name source.new ≡ S.name source.old }
{
    if let Some(ask) = asked {
        return answer(link, &ask);
    }
    match core.wants() {
        Wants::Frame => {
            let before = inbox.count();
            match looked(inbox.next(source, room)) {
                Next::Idle if inbox.count() == before => end_of(feed),
                found => found,
            }
        }
        Wants::FrameOrEntry { cursor } => match entry(feed, core.bits(), cursor) {
            Next::Idle => looked(inbox.next(source, room)),
            found => found,
        },
        Wants::Entry { cursor } => match entry(feed, core.bits(), cursor) {
            Next::Idle => looked(inbox.read_ahead(source, room)),
            found => found,
        },
        // Not while no ask is out.
        Wants::Answer | Wants::Nothing => looked(inbox.read_ahead(source, room)),
    }
}
