//! What the types say of what is shown: its text has one reading.

ghost use Rattle.zt_text.specs.Transcripts.{AreBytes, IsNumber, IsSignedNumber, IsWellFormedCause, IsWellFormedEnd, IsWellFormedKind};
ghost use Rattle.zp_world.specs.Flying.{HasSession};

use zk_service::{Cause, Ended, UpdateKind};

/// Proof only: every byte is below 256.
pub(crate) fn are_bytes(bytes: &[u8])
    ensures { AreBytes bytes.now }
{}

/// Proof only: a number of 64 bits.
pub(crate) fn is_number(number: u64)
    ensures { IsNumber number }
{}

/// Proof only: a signed number of 64 bits.
#[tactic(auto, using(std::proofs::lemmas::Int::ints))]
pub(crate) fn is_signed(number: i64)
    ensures { IsSignedNumber number }
{}

/// Proof only: numbers and bytes are in their types' ranges.
fn cause_is_formed(cause: &Cause)
    ensures { IsWellFormedCause cause.now }
{
    match cause {
        Cause::ClientEnd { place } => is_number(*place),
        Cause::BadLength { place, length } => {
            is_number(*place);
            is_signed(i64::from(*length));
        }
        Cause::NoHeader { place } => is_number(*place),
        Cause::ZxidAhead { client, head } => {
            is_signed(*client);
            is_signed(*head);
        }
        Cause::Taken { rev } => is_signed(*rev),
        Cause::Expired { rev } => is_signed(*rev),
        Cause::Moved { mine, found } => {
            is_signed(*mine);
            is_signed(*found);
        }
        Cause::Lagged { cursor, floor } => {
            is_signed(*cursor);
            is_signed(*floor);
        }
        Cause::Damaged { key, value } => {
            are_bytes(key.as_slice());
            are_bytes(value.as_slice());
        }
        Cause::Closed => {}
        Cause::ReadFault => {}
        Cause::WriteFault => {}
        Cause::AuthRefused => {}
        Cause::Unknown => {}
        Cause::LinkFault => {}
        Cause::FeedClosed => {}
        Cause::Restart => {}
        Cause::Memory => {}
    }
}

/// Proof only: numbers and bytes are in their types' ranges.
pub(crate) fn end_is_formed(end: &Ended)
    ensures { IsWellFormedEnd end.now }
{
    match end {
        Ended::Cause(cause) => cause_is_formed(cause),
        Ended::Reaped { zxid } => is_signed(*zxid),
        Ended::Kept { rev } => is_signed(*rev),
        Ended::Gone { rev } => is_signed(*rev),
    }
}

/// Proof only: numbers are in their types' ranges.
pub(crate) fn kind_is_formed(kind: UpdateKind)
    requires { HasSession kind }
    ensures { IsWellFormedKind kind }
{
    match kind {
        UpdateKind::Begin { .. } => {}
        UpdateKind::Session { .. } => {}
        UpdateKind::Attach { .. } => {}
        UpdateKind::Asked { .. } => {}
        UpdateKind::Closed { .. } => {}
        UpdateKind::Reaped { .. } => {}
    }
}
