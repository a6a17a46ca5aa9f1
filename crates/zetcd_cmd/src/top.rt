//! The top call.

ghost use Rattle.std.specs.Prelude.{◌≡◌, ◌≢◌, ◌⊎◌, length, List, ℕ};
ghost use Rattle.ev_addresses.specs.Lists.{addresses_in};
ghost use Rattle.zx_outside.specs.Counts.{one_more};
ghost use Rattle.zx_outside.specs.Writing.{counts_after_write};
ghost use Rattle.zx_outside.specs.declared.sink.Took.TheVariants.{Failed as TookFailed};
ghost use Rattle.zetcd_cmd.specs.Outcomes.{IsJudge, IsReplay, IsShow, DidBetween, UnlessReads, Judges, Replays, Shows, RefusesWords, Failed, IsUnharmed};
ghost use Rattle.zetcd_cmd.specs.Proxying.{HasNetCause, IsServe, NamesServe, Proxies, seen_so_far, serve_status as status_of_proxy};
ghost use Rattle.zetcd_cmd.specs.Serving.{IsEtcd, NamesEtcd, EtcdServes, etcd_status};
ghost use Rattle.zetcd_cmd.specs.Stressing.{IsStress, NamesStress, Stresses};

use crate::command::plain;
use crate::status::Status;
use crate::tells::Terminal;
use crate::words::{etcd_words, serve_words};
use ev_call::Cluster;
use ev_faults::{Fault, tell};
use std::alloc::Global;
use std::sync::Wait;
use std::time::Clock as SystemClock;
use zd_etcd::{EtcdEnd, etcd};
use zp_server::{NoBook, OpenGate, ServeEnd, serve};
use zx_net::{Clock, Net, NetFault, Spawner, Wakes};
use zx_outside::{Sink, Source};
use zx_random::{HangsUp, LetsGo, Random};

/// The status of an etcd in memory that ended so.
fn status_of_etcd(end: EtcdEnd) -> Status
    ensures { result ≡ etcd_status end }
{
    match end {
        EtcdEnd::Done => Status::Done,
        EtcdEnd::Net => Status::Net,
        EtcdEnd::WriteFault => Status::WriteFault,
        EtcdEnd::Memory => Status::Memory,
    }
}

/// The status of a proxy that ended so.
fn status_of_serve(end: ServeEnd) -> Status
    ensures { result ≡ status_of_proxy end }
{
    match end {
        ServeEnd::Done => Status::Done,
        ServeEnd::WriteFault => Status::WriteFault,
        ServeEnd::Net => Status::Net,
        ServeEnd::Memory => Status::Memory,
        ServeEnd::Feed(end) => Status::Feed(end),
    }
}

/// Runs the command that `words`, the command line without the program's name, are. It reads `input` and writes `out`; for words
/// that are no command it writes the usage line. `etcd` and `serve` listen by `net`, have each connection served by a job that
/// `spawner` starts, and take the time from `clock`. `serve` asks the etcd first by `cluster` and then by links that `net` dials, and
/// gives a new session a number and a password of `random`'s words. No other command uses these. On standard error `serve` says each
/// fault of the etcd, both say why they could not start, and `replay` and `judge` why a line cannot be read. The net has accepted no
/// connection before, since it names connections by how many it has accepted, and the lines of `serve` count them from 1. Addresses of
/// other bytes than visible ASCII are in no row of the usage line.
#[tactic(auto, using(crate::proofs::Servings::one_word, crate::proofs::Proxyings::one_word, crate::proofs::Proxyings::not_both, crate::proofs::Proxyings::only_serve))]
pub fn zetcd<
    W: Wait + SystemClock + Eprint + Copy + Send + Drop + 'static,
    I: Source,
    O: Sink,
    N: Net + Send + Drop + 'static,
    L: Cluster,
    P: Spawner,
    C: Clock + Send + Drop + 'static,
    R: Random,
>(
    rt: &W,
    alloc: Global,
    words: &[&str],
    input: &mut I,
    out: &mut O,
    net: &mut N,
    cluster: &mut L,
    spawner: &mut P,
    clock: &mut C,
    random: &mut R,
) -> Status
where
    N::In: Wakes + HangsUp,
    N::Out: LetsGo,
    N::Door: Send,
    // The net has accepted nothing yet, so that connections are numbered as it accepts them.
    requires { (N.counts net.old).accepted ≡ 0 }
    // Of `replay`, by the status: the transcript of a run to which exactly the lines that were read were applied. The run is one
    // run of the service, each conversation in it is lawful and fresh, and the verdict on its lines is lawful. Within the limits of a
    // transcript, what is written is read as these lines.
    ensures replay { IsReplay words.now → DidBetween I.ended I.given I.left O.taken (Replays result) input.old input.new out.old out.new }
    // Of `show`, by the status: what is shown of the stream that was read.
    ensures show { IsShow words.now → DidBetween I.ended I.given I.left O.taken (Shows result) input.old input.new out.old out.new }
    // Of `judge`, by the status: the verdict on the transcript that was read, or its first line that cannot be read.
    ensures judge { IsJudge words.now → DidBetween I.ended I.given I.left O.taken (Judges result) input.old input.new out.old out.new }
    // Of `stress`, by the status: the summary of the run of its schedule, which is one run of the service, and whose verdict is lawful.
    ensures stress { (number : ℕ) → (connections : ℕ) → (steps : ℕ) → IsStress words.now number connections steps → Stresses result number connections steps (O.taken out.old) (O.taken out.new) }
    // Of `etcd`, by the status: how many connections were accepted, and what was written.
    ensures etcd { (listen : List ℕ) → (limit : ℕ) → IsEtcd words.now listen limit → EtcdServes result listen limit (N.counts net.old) (N.counts net.new) (O.taken out.old) (O.taken out.new) }
    // Of `serve`, by the status: which clients were accepted, what was written about each, and how it ended.
    ensures serve { (listen : List ℕ) → (endpoint : List ℕ) → (limit : ℕ) → IsServe words.now listen endpoint limit →
        Proxies (length (addresses_in endpoint)) result listen limit (L.failures cluster.old) (L.failures cluster.new) (P.refusals spawner.old) (P.refusals spawner.new)
        (seen_so_far (N.counts net.old) (O.taken out.old) (O.counts out.old)) (seen_so_far (N.counts net.new) (O.taken out.new) (O.counts out.new)) }
    // Status 6 has its cause in the net: one fault of a door.
    ensures net { ¬ NamesServe words.now → result ≡ Status.Net → (N.counts net.new).door_faults ≡ one_more (N.counts net.old).door_faults }
    // Of `serve` it has its cause there, in the first ask of the etcd, or in the start of a worker; then nothing else was written.
    ensures net_cause { result ≡ Status.Net → HasNetCause (L.failures cluster.old) (L.failures cluster.new) (P.refusals spawner.old) (P.refusals spawner.new)
        (N.counts net.old) (N.counts net.new) (O.taken out.old) (O.taken out.new) }
    // With any other status but 5 the doors had no fault.
    ensures unless_net { result ≢ Status.Net → result ≢ Status.WriteFault → (N.counts net.new).door_faults ≡ (N.counts net.old).door_faults }
    // Of other words: the net was left alone.
    ensures offline { ¬ NamesEtcd words.now → ¬ NamesServe words.now → net.new ≡ net.old }
    // Unless the words start `serve`: no other etcd was asked, and no random word taken.
    ensures unasked { ¬ NamesServe words.now → (cluster.new ≡ cluster.old) × (random.new ≡ random.old) }
    // Of words that are in no row: the usage line was written, or a front of it where the output has a fault.
    ensures usage { UnlessReads words.now (¬ NamesStress words.now → ¬ NamesEtcd words.now → ¬ NamesServe words.now → RefusesWords result (O.taken out.old) (O.taken out.new)) }
    // Of words other than these three: nothing was read.
    ensures unread { UnlessReads words.now (input.new ≡ input.old) }
    // Status 4 has its cause in the input: one fault, or 1,000 idle turns.
    ensures read { result ≡ Status.ReadFault → Failed (I.counts input.old) (I.counts input.new) }
    // Statuses 0, 2, 3, 6, 8 and 10 pass over no fault, and there were fewer than 1,000 idle turns.
    ensures unless_fault { result ≢ Status.ReadFault → result ≢ Status.WriteFault → result ≢ Status.Memory → IsUnharmed (I.counts input.old) (I.counts input.new) }
    // The same holds of status 7 of `show` and `judge`. A `replay` may be refused memory while it writes the lines before a fault.
    ensures show_memory { IsShow words.now → result ≡ Status.Memory → IsUnharmed (I.counts input.old) (I.counts input.new) }
    ensures judge_memory { IsJudge words.now → result ≡ Status.Memory → IsUnharmed (I.counts input.old) (I.counts input.new) }
    // With every status the input had at most one fault, and at most 1,000 idle turns.
    ensures once { IsUnharmed (I.counts input.old) (I.counts input.new) ⊎ Failed (I.counts input.old) (I.counts input.new) }
    // Status 5 has its cause in the output: one fault, and no second one.
    ensures write { result ≡ Status.WriteFault → O.counts out.new ≡ counts_after_write TookFailed (O.counts out.old) }
    // With any other status the output had no fault.
    ensures unless_write_fault { result ≢ Status.WriteFault → O.counts out.new ≡ O.counts out.old }
{
    let mut terminal = Terminal::new(rt);
    match plain(alloc, words, input, out, &mut terminal) {
        Some(status) => status,
        None => match etcd_words(words) {
            Some(_) => run_etcd(rt, alloc, words, out, net, spawner, clock),
            None => run_serve(rt, alloc, words, out, net, cluster, spawner, clock, random),
        },
    }
}

/// Tells the operator of an etcd in memory that could not listen, or whose listening socket broke.
fn tell_etcd<R: Eprint>(rt: &R, listen: &str, end: EtcdEnd) {
    match end {
        EtcdEnd::Net => tell(rt, "listen at", listen, Fault::Listen(NetFault::Failed)),
        EtcdEnd::Done | EtcdEnd::WriteFault | EtcdEnd::Memory => {}
    }
}

/// Runs `etcd`.
#[tactic(auto, using(crate::proofs::Servings::names_one, crate::proofs::Servings::never_read, crate::proofs::Servings::net_fault, crate::proofs::Servings::no_fault, crate::proofs::Servings::write_counts, crate::proofs::Servings::other_counts))]
fn run_etcd<
    W: Wait + SystemClock + Eprint + Copy + Send + Drop + 'static,
    O: Sink,
    N: Net,
    P: Spawner,
    C: Clock + Send + Drop + 'static,
>(
    rt: &W,
    alloc: Global,
    words: &[&str],
    out: &mut O,
    net: &mut N,
    spawner: &mut P,
    clock: &mut C,
) -> Status
    requires { NamesEtcd words.now }
    ensures told { (listen : List ℕ) → (limit : ℕ) → IsEtcd words.now listen limit → EtcdServes result listen limit (N.counts net.old) (N.counts net.new) (O.taken out.old) (O.taken out.new) }
    ensures read { result ≢ Status.ReadFault }
    ensures net { result ≡ Status.Net → (N.counts net.new).door_faults ≡ one_more (N.counts net.old).door_faults }
    ensures unless_net { result ≢ Status.Net → result ≢ Status.WriteFault → (N.counts net.new).door_faults ≡ (N.counts net.old).door_faults }
    ensures write { result ≡ Status.WriteFault → O.counts out.new ≡ counts_after_write TookFailed (O.counts out.old) }
    ensures unless_write_fault { result ≢ Status.WriteFault → O.counts out.new ≡ O.counts out.old }
{
    let Some((listen, limit)) = etcd_words(words) else {
        unreachable!()
    };
    let end = etcd(rt, alloc, listen, limit, out, net, spawner, &*clock);
    tell_etcd(rt, listen, end);
    status_of_etcd(end)
}

/// Runs `serve`.
#[tactic(auto, using(crate::proofs::Proxyings::address_of, crate::proofs::Proxyings::proxied, crate::proofs::Proxyings::never_read, crate::proofs::Proxyings::net_cause, crate::proofs::Proxyings::no_door_fault, crate::proofs::Proxyings::write_count, crate::proofs::Proxyings::no_write_count))]
fn run_serve<
    W: Wait + SystemClock + Eprint + Copy + Send + Drop + 'static,
    O: Sink,
    N: Net + Send + Drop + 'static,
    L: Cluster,
    P: Spawner,
    C: Clock + Send + Drop + 'static,
    R: Random,
>(
    rt: &W,
    alloc: Global,
    words: &[&str],
    out: &mut O,
    net: &mut N,
    cluster: &mut L,
    spawner: &mut P,
    clock: &mut C,
    random: &mut R,
) -> Status
where
    N::In: Wakes + HangsUp,
    N::Out: LetsGo,
    N::Door: Send,
    requires names { NamesServe words.now }
    requires fresh { (N.counts net.old).accepted ≡ 0 }
    ensures told { (listen : List ℕ) → (endpoint : List ℕ) → (limit : ℕ) → IsServe words.now listen endpoint limit →
        Proxies (length (addresses_in endpoint)) result listen limit (L.failures cluster.old) (L.failures cluster.new) (P.refusals spawner.old) (P.refusals spawner.new)
        (seen_so_far (N.counts net.old) (O.taken out.old) (O.counts out.old)) (seen_so_far (N.counts net.new) (O.taken out.new) (O.counts out.new)) }
    ensures read { result ≢ Status.ReadFault }
    ensures net { result ≡ Status.Net → HasNetCause (L.failures cluster.old) (L.failures cluster.new) (P.refusals spawner.old) (P.refusals spawner.new)
        (N.counts net.old) (N.counts net.new) (O.taken out.old) (O.taken out.new) }
    ensures unless_net { result ≢ Status.Net → result ≢ Status.WriteFault → (N.counts net.new).door_faults ≡ (N.counts net.old).door_faults }
    ensures write { result ≡ Status.WriteFault → O.counts out.new ≡ counts_after_write TookFailed (O.counts out.old) }
    ensures unless_write_fault { result ≢ Status.WriteFault → O.counts out.new ≡ O.counts out.old }
{
    let Some(proxy) = serve_words(words) else {
        unreachable!()
    };
    let end = serve(
        rt,
        alloc,
        net,
        cluster,
        spawner,
        clock,
        random,
        out,
        OpenGate,
        &mut NoBook,
        proxy.listen,
        proxy.endpoint,
        proxy.limit,
    );
    status_of_serve(end)
}
