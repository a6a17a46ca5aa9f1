//! Lets a client in.

ghost use Rattle.std.specs.Prelude.{ℕ, IfOk};
ghost use Rattle.zx_net.specs.Nets.{IsFreshSink, IsFreshSource};
ghost use Rattle.zp_server.specs.Logs.{Admits};
ghost use Rattle.zp_server.specs.Looking.{Finds, FindsOpenTwice};

use crate::book::Book;
use crate::desk::Desk;
use crate::ends::Stop;
use crate::gate::Gate;
use crate::house::House;
use crate::looking::look;
use crate::taking::make_room;
use std::alloc::Global;
use std::sync::Wait;
use zx_net::{Net, Wakes};
use zx_outside::Sink;
use zx_random::HangsUp;

/// Waits until there is room for one more client, and then for the client.
pub fn admit<W: Wait + Eprint, N: Net, O: Sink, G: Gate + Drop, B: Book<N::In, N::Out>>(
    rt: &W,
    alloc: Global,
    house: &House<N::In, N::Out, B::T, <N::In as Wakes>::Bell, G>,
    net: &mut N,
    door: &mut N::Door,
    desk: &mut Desk,
    out: &mut O,
    book: &mut B,
) -> Result<(N::In, N::Out), Stop>
where
    N::In: Wakes + HangsUp,
    ensures admits { (size : ℕ) → Admits size result desk.old.busy.items desk.new.busy.items
        (record { net = N.counts net.old; out = record { taken = O.taken out.old; counts = O.counts out.old }; book = B.told book.old })
        (record { net = N.counts net.new; out = record { taken = O.taken out.new; counts = O.counts out.new }; book = B.told book.new }) }
    ensures source { IfOk result (λ ends. IsFreshSource (N.In.given ends.0) (N.In.counts ends.0) (N.In.ended ends.0) (N.In.name ends.0) (N.counts net.new).accepted) }
    ensures sink { IfOk result (λ ends. IsFreshSink (N.Out.taken ends.1) (N.Out.counts ends.1) (N.Out.name ends.1) (N.counts net.new).accepted) }
    ensures found { Finds result desk.new.own desk.new.free.items }
    // The server's own reader found the hub open at two looks, before the client was accepted and after it.
    ensures looked { IfOk result (λ ends. FindsOpenTwice desk.old.own desk.new.own) }
{
    match make_room(rt, alloc, house, desk, out, book) {
        Ok(()) => {}
        Err(stop) => return Err(stop),
    }
    match look(&mut desk.own) {
        Ok(()) => {}
        Err(stop) => return Err(stop),
    }
    let ends = match net.accept(door) {
        Ok(ends) => ends,
        Err(_fault) => return Err(Stop::Net),
    };
    // The watch worker may have closed the hub meanwhile, and dialled to say so.
    match look(&mut desk.own) {
        Ok(()) => Ok(ends),
        Err(stop) => Err(stop),
    }
}
