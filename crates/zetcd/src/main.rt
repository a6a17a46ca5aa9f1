//! zetcd: ZooKeeper's protocol over etcd. The commands are `serve`, `replay`, `show`, `judge`, `stress` and `etcd`.
//!
//! `main` hands the command line, standard input and output, and the system's sockets, threads, clock and random words to
//! [`zetcd_cmd::zetcd`], says on standard error in words what ended a run that did not come to its end, and ends the process with the
//! status's number.
#![tactic(auto)]

ghost use Rattle.std.specs.Prelude.{◌≡◌, ◌≢◌, ◌⊎◌, length, List, ℕ, [], ◌∷◌, codes, IfErr, IfOk};
ghost use Rattle.ev_addresses.specs.Lists.{addresses_in};
ghost use Rattle.std.specs.Process.{exit_status};
ghost use Rattle.std.specs.Vec.Iter.{into_iter_items};
ghost use Rattle.zetcd.specs.Arguments.{IsNoProxying, IsNoServing, IsNoStressing, IsProxying, IsServeWords, IsStressing, ReadsNothing, arguments};
ghost use Rattle.zetcd_cmd.specs.Outcomes.{status_number, DidBetween, Failed, IsUnharmed, Judges, RefusesWords, Replays, Shows};
ghost use Rattle.zetcd_cmd.specs.Proxying.{HasNetCause, Proxies, seen_so_far};
ghost use Rattle.zetcd_cmd.specs.Serving.{EtcdServes};
ghost use Rattle.zetcd_cmd.specs.Stressing.{Stresses};
ghost use Rattle.zx_outside.specs.Counts.{one_more};
ghost use Rattle.zx_outside.specs.Writing.{counts_after_write};
ghost use Rattle.zx_outside.specs.declared.sink.Took.TheVariants.{Failed as TookFailed};

mod meaning;
mod standard;
mod words;

use crate::meaning::meaning;
use crate::standard::take_closed;
use crate::words::{lent, words_of};
use ev_call::Cluster;
use ev_failover::{DialEndpoints, FailoverLink};
use std::alloc::{AllocError, Global};
use std::env::{self, Args};
use std::io::{self, ErrorKind};
use std::process::ExitCode;
use std::sync::Wait;
use std::time::Clock as SystemClock;
use zetcd_cmd::{Status, zetcd};
use zx_net::{Clock, Net, Spawner, Wakes};
use zx_outside::{Sink, Source, StdSink, StdSource};
use zx_random::{HangsUp, LetsGo, RandWord, Random};
use zx_sockets::{StdClock, StdNet, ThreadSpawner};

fn main(rt: HostRuntime) -> ExitCode {
    take_closed(&rt);
    let alloc = rt.alloc();
    let mut input = StdSource::new(rt.stdin());
    let mut out = StdSink::new(rt.stdout());
    let mut net = StdNet::new(rt, alloc);
    let mut spawner = ThreadSpawner::new(rt);
    let mut clock = StdClock::new(rt);
    let Ok(mut random) = RandWord::new(&rt) else {
        let _told = eprintln!(rt; "zetcd: the system gives no random bytes");
        return exit(&Status::Memory);
    };
    let status = over_endpoints(
        &rt,
        alloc,
        env::args(&rt),
        &mut input,
        &mut out,
        &mut net,
        StdNet::new(rt, alloc),
        &mut spawner,
        &mut clock,
        &mut random,
    );
    if let Some(words) = meaning(&status) {
        // Where standard error takes nothing, the exit code still tells.
        let _told = eprintln!(rt; "zetcd: {words}");
    }
    exit(&status)
}

/// Runs the command that the words name, over endpoints that are dialled by a net of their own.
fn over_endpoints<
    W: Wait + SystemClock + Eprint + Copy + Send + Drop + 'static,
    I: Source,
    O: Sink,
    N: Net + Send + Drop + 'static,
    D: Net + Drop,
    P: Spawner,
    C: Clock + Send + Drop + 'static,
    R: Random,
>(
    rt: &W,
    alloc: Global,
    args: io::Result<Args>,
    input: &mut I,
    out: &mut O,
    net: &mut N,
    dialled: D,
    spawner: &mut P,
    clock: &mut C,
    random: &mut R,
) -> Status
where
    N::In: Wakes + HangsUp,
    N::Out: LetsGo,
    N::Door: Send,
    requires { (N.counts net.old).accepted ≡ 0 }
{
    let mut cluster = FailoverLink::new(DialEndpoints::new(alloc, dialled));
    match args {
        Ok(args) => with_words(
            rt,
            alloc,
            args,
            input,
            out,
            net,
            &mut cluster,
            spawner,
            clock,
            random,
        )
        .unwrap_or(Status::Memory),
        // A word that is not UTF-8 belongs to no command. The usage line is written, as it is for no words.
        Err(error) if error.kind() == ErrorKind::InvalidData => zetcd(
            rt,
            alloc,
            &[],
            input,
            out,
            net,
            &mut cluster,
            spawner,
            clock,
            random,
        ),
        Err(_) => Status::Memory,
    }
}

/// The exit code, which is the status's number.
fn exit(status: &Status) -> ExitCode
    ensures { exit_status result ≡ status_number status.now }
{
    ExitCode::from(status.number())
}

/// Runs the command that these words name; the first of them is the program's name. An error is out of memory, met before the
/// command began.
fn with_words<
    W: Wait + SystemClock + Eprint + Copy + Send + Drop + 'static,
    I: Source,
    O: Sink,
    N: Net + Send + Drop + 'static,
    L: Cluster,
    P: Spawner,
    C: Clock + Send + Drop + 'static,
    R: Random,
>(
    rt: &W,
    alloc: Global,
    args: Args,
    input: &mut I,
    out: &mut O,
    net: &mut N,
    cluster: &mut L,
    spawner: &mut P,
    clock: &mut C,
    random: &mut R,
) -> Result<Status, AllocError>
where
    N::In: Wakes + HangsUp,
    N::Out: LetsGo,
    N::Door: Send,
    requires { (N.counts net.old).accepted ≡ 0 }
    ensures untouched { IfErr result (λ e. (input.new ≡ input.old) × (out.new ≡ out.old) × (net.new ≡ net.old)) }
    ensures replay { IfOk result (λ s. arguments (into_iter_items args) ≡ codes "replay" ∷ [] → DidBetween I.ended I.given I.left O.taken (Replays s) input.old input.new out.old out.new) }
    ensures show { IfOk result (λ s. arguments (into_iter_items args) ≡ codes "show" ∷ [] → DidBetween I.ended I.given I.left O.taken (Shows s) input.old input.new out.old out.new) }
    ensures judge { IfOk result (λ s. arguments (into_iter_items args) ≡ codes "judge" ∷ [] → DidBetween I.ended I.given I.left O.taken (Judges s) input.old input.new out.old out.new) }
    ensures stress { IfOk result (λ s. (number : ℕ) → (connections : ℕ) → (steps : ℕ) → IsStressing (arguments (into_iter_items args)) number connections steps →
        Stresses s number connections steps (O.taken out.old) (O.taken out.new)) }
    ensures etcd { IfOk result (λ s. (listen : List ℕ) → (limit : ℕ) → IsServeWords (arguments (into_iter_items args)) listen limit →
        EtcdServes s listen limit (N.counts net.old) (N.counts net.new) (O.taken out.old) (O.taken out.new)) }
    ensures serve { IfOk result (λ s. (listen : List ℕ) → (endpoint : List ℕ) → (limit : ℕ) → IsProxying (arguments (into_iter_items args)) listen endpoint limit →
        Proxies (length (addresses_in endpoint)) s listen limit (L.failures cluster.old) (L.failures cluster.new) (P.refusals spawner.old) (P.refusals spawner.new)
        (seen_so_far (N.counts net.old) (O.taken out.old) (O.counts out.old)) (seen_so_far (N.counts net.new) (O.taken out.new) (O.counts out.new))) }
    ensures net_cause { IfOk result (λ s. s ≡ Status.Net → HasNetCause (L.failures cluster.old) (L.failures cluster.new) (P.refusals spawner.old) (P.refusals spawner.new)
        (N.counts net.old) (N.counts net.new) (O.taken out.old) (O.taken out.new)) }
    ensures net { IfOk result (λ s. IsNoProxying (arguments (into_iter_items args)) → s ≡ Status.Net → (N.counts net.new).door_faults ≡ one_more (N.counts net.old).door_faults) }
    ensures unless_net { IfOk result (λ s. s ≢ Status.Net → s ≢ Status.WriteFault → (N.counts net.new).door_faults ≡ (N.counts net.old).door_faults) }
    ensures offline { IfOk result (λ s. IsNoServing (arguments (into_iter_items args)) → IsNoProxying (arguments (into_iter_items args)) → net.new ≡ net.old) }
    ensures unasked { IfOk result (λ s. IsNoProxying (arguments (into_iter_items args)) → (cluster.new ≡ cluster.old) × (random.new ≡ random.old)) }
    ensures usage { IfOk result (λ s. ReadsNothing (arguments (into_iter_items args)) → IsNoStressing (arguments (into_iter_items args)) →
        IsNoServing (arguments (into_iter_items args)) → IsNoProxying (arguments (into_iter_items args)) → RefusesWords s (O.taken out.old) (O.taken out.new)) }
    ensures unread { IfOk result (λ s. ReadsNothing (arguments (into_iter_items args)) → input.new ≡ input.old) }
    ensures read { IfOk result (λ s. s ≡ Status.ReadFault → Failed (I.counts input.old) (I.counts input.new)) }
    ensures unless_fault { IfOk result (λ s. s ≢ Status.ReadFault → s ≢ Status.WriteFault → s ≢ Status.Memory → IsUnharmed (I.counts input.old) (I.counts input.new)) }
    ensures show_memory { IfOk result (λ s. arguments (into_iter_items args) ≡ codes "show" ∷ [] → s ≡ Status.Memory → IsUnharmed (I.counts input.old) (I.counts input.new)) }
    ensures judge_memory { IfOk result (λ s. arguments (into_iter_items args) ≡ codes "judge" ∷ [] → s ≡ Status.Memory → IsUnharmed (I.counts input.old) (I.counts input.new)) }
    ensures once { IfOk result (λ s. IsUnharmed (I.counts input.old) (I.counts input.new) ⊎ Failed (I.counts input.old) (I.counts input.new)) }
    ensures write { IfOk result (λ s. s ≡ Status.WriteFault → O.counts out.new ≡ counts_after_write TookFailed (O.counts out.old)) }
    ensures unless_write_fault { IfOk result (λ s. s ≢ Status.WriteFault → O.counts out.new ≡ O.counts out.old) }
{
    let words = words_of(alloc, args)?;
    let after_name = words.len().min(1);
    let words = lent(alloc, &words.as_slice()[after_name..])?;
    let status = zetcd(
        rt,
        alloc,
        words.as_slice(),
        input,
        out,
        net,
        cluster,
        spawner,
        clock,
        random,
    );
    Ok(status)
}
