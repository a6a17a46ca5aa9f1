//! Asks that only read.

ghost use Rattle.std.specs.Prelude.{◌≡◌, ◌&&◌, true, Some};
ghost use Rattle.ev_types.specs.Denials.{carry};
ghost use Rattle.ev_types.specs.Store.{Store};
ghost use Rattle.ev_types.specs.declared.answer.Answer.{Answer as SomeAnswer};
ghost use Rattle.ev_failover.specs.Reading.{are_reads, is_read, is_reading};

use ev_types::{Act, Ask};

/// Whether an operation of a transaction is a range.
fn is_read(act: &Act) -> bool
    ensures { result ≡ is_read act.now }
{
    match act {
        Act::Range(_) => true,
        Act::Put { .. } | Act::Delete { .. } => false,
    }
}

/// Whether each operation of a list is a range.
fn are_reads(acts: &[Act]) -> bool
    ensures { result ≡ are_reads acts.now }
{
    acts.iter().all(is_read)
}

/// Whether an ask can be carried out twice and it is as if it was carried out once: a range, a keepalive, or a transaction whose two
/// lists put and delete nothing.
#[tactic(auto, using(crate::proofs::Repeating::changes_nothing))]
pub fn is_reading(ask: &Ask) -> bool
    ensures exact { result ≡ is_reading ask.now }
    // Whatever store carries it out stays as it is.
    ensures changes_nothing { result ≡ true → (s t : Store) (a : SomeAnswer) → carry s ask.now ≡ Some (t, a) → t ≡ s }
{
    match ask {
        Ask::Range(_) | Ask::Alive { .. } => true,
        Ask::Grant { .. } => false,
        Ask::Txn(txn) => are_reads(txn.success.as_slice()) && are_reads(txn.failure.as_slice()),
    }
}
