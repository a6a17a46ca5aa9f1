//! Faults of which an operator is told, in words.

ghost use Rattle.std.specs.Prelude.{◌≡◌, Some};
ghost use Rattle.std.specs.Fmt.{DisplaysOnOk};
ghost use Rattle.ev_faults.specs.Words.{behind_words, dial_words, gap_words, http_words, json_words, net_words, words};

use ev_http::HttpFault;
use ev_json::JsonFault;
use std::fmt;
use std::fmt::{Display, Formatter, Write};
use zx_net::NetFault;

/// A fault of etcd, of the way to it, or of the start.
#[derive(Clone, Copy)]
pub enum Fault {
    /// The endpoint can be dialled, and gave no answer to the first ask.
    First,
    /// The endpoint could not be dialled for the first ask.
    Undialled(NetFault),
    /// Nobody answers at the address.
    Dial,
    /// A message could not be sent or read.
    Http(HttpFault),
    /// What came could not be understood.
    Json(JsonFault),
    /// etcd ended the watch.
    Ended,
    /// The revisions from here on were compacted before they were read.
    Compacted(i64),
    /// An update is missing: this one was expected, and that one found.
    Gap(i64, i64),
    /// A key of the service has a value that is no record.
    Damaged,
    /// Ten dials in a row gave no line.
    NoLine,
    /// Nothing came for 25 minutes.
    Silent,
    /// The member stands at this revision, behind what was told already.
    Behind(i64),
    /// No descriptor is left for a dial.
    NoRoom,
    /// The address to listen on cannot be had.
    Listen(NetFault),
    /// A thread could not be started.
    Thread,
    /// An endpoint was given with a scheme in front.
    Scheme,
    /// Memory was refused.
    Memory,
}

#[tactic(auto, unfolding(crate::specs::Words::http_words))]
fn write_http<W: Write>(fault: HttpFault, f: &mut Formatter<W>) -> fmt::Result
    ensures { DisplaysOnOk W.write_str_gives f.old result (Some (http_words fault)) f.new }
{
    match fault {
        HttpFault::Head => f.write_str("what came is no HTTP answer"),
        HttpFault::Status(status) => write!(f, "status {status}"),
        HttpFault::Route => f.write_str("what came is no answer"),
        HttpFault::Body { place } => write!(f, "the answer is broken at byte {place}"),
        HttpFault::TooLong { limit } => write!(f, "the answer has more than {limit} bytes"),
        HttpFault::Ended { .. } => f.write_str("the connection ended"),
        HttpFault::Idle => f.write_str("no answer within a minute"),
        HttpFault::ReadFault => f.write_str("the connection cannot be read"),
        HttpFault::WriteFault => f.write_str("the connection cannot be written"),
        HttpFault::Memory => f.write_str("out of memory"),
    }
}

#[tactic(auto, unfolding(crate::specs::Words::net_words))]
fn net_words(fault: NetFault) -> &'static str
    ensures { result.now ≡ net_words fault }
{
    match fault {
        NetFault::InUse => "something listens there already",
        NetFault::NoAddress => "this machine has no such address",
        NetFault::Denied => "this program may not listen there",
        NetFault::NoRoom => "no descriptor is left",
        NetFault::Failed => "it cannot be listened on",
    }
}

#[tactic(auto, unfolding(crate::specs::Words::dial_words))]
fn dial_words(fault: NetFault) -> &'static str
    ensures { result.now ≡ dial_words fault }
{
    match fault {
        NetFault::InUse => "it cannot be dialled",
        NetFault::NoAddress => "there is no such host: an endpoint is HOST:PORT",
        NetFault::Denied => "this program may not dial it",
        NetFault::NoRoom => "no descriptor is left",
        NetFault::Failed => "nobody answers there: is etcd up, and is this its port for clients?",
    }
}

#[tactic(auto, unfolding(crate::specs::Words::json_words))]
fn json_words(fault: JsonFault) -> &'static str
    ensures { result.now ≡ json_words fault }
{
    match fault {
        JsonFault::NotJson | JsonFault::Unreadable { .. } => "what came cannot be understood",
        JsonFault::Memory => "out of memory",
    }
}

fn write_gap<W: Write>(expected: i64, found: i64, f: &mut Formatter<W>) -> fmt::Result
    ensures { DisplaysOnOk W.write_str_gives f.old result (Some (gap_words expected found)) f.new }
{
    write!(f, "update {expected} is missing, {found} came")
}

fn write_behind<W: Write>(rev: i64, f: &mut Formatter<W>) -> fmt::Result
    ensures { DisplaysOnOk W.write_str_gives f.old result (Some (behind_words rev)) f.new }
{
    write!(
        f,
        "it is at revision {rev}, behind what was told already: perhaps a restored backup"
    )
}

impl Display for Fault {
    ghost use Rattle.std.specs.Prelude.{Some};
    ghost use Rattle.ev_faults.specs.Words.{words};

    ghost output = { λ fault. Some (words fault) };

    #[tactic(auto, unfolding(crate::specs::Words::words))]
    fn fmt<W: Write>(&self, f: &mut Formatter<W>) -> fmt::Result {
        match self {
            Fault::First => f.write_str(
                "it gave no answer: is this the port for clients of an etcd 3.4 or newer, and has its cluster a leader?",
            ),
            Fault::Undialled(fault) => f.write_str(dial_words(*fault)),
            Fault::Dial => f.write_str("nobody answers"),
            Fault::Http(fault) => write_http(*fault, f),
            Fault::Json(fault) => f.write_str(json_words(*fault)),
            Fault::Ended => f.write_str("etcd ended it"),
            Fault::Compacted(rev) => write!(
                f,
                "updates before revision {rev} were compacted unread"
            ),
            Fault::Gap(expected, found) => write_gap(*expected, *found, f),
            Fault::Damaged => f.write_str("a value is no record of this service"),
            Fault::NoLine => f.write_str("ten tries in a row gave nothing"),
            Fault::Silent => f.write_str("nothing came for 25 minutes"),
            Fault::Behind(rev) => write_behind(*rev, f),
            Fault::NoRoom => f.write_str("no descriptor is left"),
            Fault::Listen(fault) => f.write_str(net_words(*fault)),
            Fault::Thread => f.write_str("a thread could not be started"),
            Fault::Scheme => f.write_str("an endpoint is HOST:PORT, without http://"),
            Fault::Memory => f.write_str("out of memory"),
        }
    }
}
