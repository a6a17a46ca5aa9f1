//! Connects.

ghost use Rattle.std.specs.Prelude.{◌≡◌, Some, option_copied};
ghost use Rattle.zs_session.specs.Connecting.{asked_in_phase, MayStepConnect};

use crate::answers::answer_of;
use crate::waiting::Waiting;
use crate::words::{push_ask, push_damaged, push_pieces, push_two};
use ev_store::Store;
use ev_types::{Answer, Ask};
use row_files::{Piece, Words, bytes_of, hex_of, push, push_number};
use std::alloc::Global;
use zk_model::{ConnectRequest, ConnectResponse, Layout};
use zn_view::Who;
use zs_session::{ConnectStep, Connecting, Fresh, StepFault, alive_due};
use zx_base::{Bytes, Memory};

/// A connect that waits for the answer to an ask.
#[derive(Drop)]
pub struct Begun {
    connecting: Connecting,
    asked: Ask,
    ghost waits: { asked_in_phase connecting connecting.phase ≡ Some asked },
}

/// The words of a connect.
#[derive(Clone, Copy)]
struct Wish<'a> {
    session: i64,
    passwd: &'a str,
    timeout: i32,
    last_zxid: i64,
    id: i64,
    fresh: &'a str,
}

/// `SESSION PASSWORD TIMEOUT ZXID FRESH FRESHPASSWORD`
fn wish_of<'a>(words: &mut Words<'a>) -> Option<Wish<'a>> {
    let session = words.long()?;
    let passwd = words.word()?;
    let timeout = words.int()?;
    let last_zxid = words.long()?;
    let id = words.long()?;
    let fresh = words.word()?;
    Some(Wish {
        session,
        passwd,
        timeout,
        last_zxid,
        id,
        fresh,
    })
}

/// The 16 bytes of a password.
fn password(alloc: Global, digits: &str) -> Result<Option<[u8; 16]>, Memory> {
    let Some(bytes) = bytes_of(alloc, digits)? else {
        return Ok(None);
    };
    Ok(<[u8; 16]>::try_from(bytes.as_slice()).ok())
}

fn request_of(alloc: Global, wish: &Wish) -> Result<Option<ConnectRequest>, Memory> {
    let Some(passwd) = bytes_of(alloc, wish.passwd)? else {
        return Ok(None);
    };
    Ok(Some(ConnectRequest {
        protocol: 0,
        last_zxid: wish.last_zxid,
        timeout: wish.timeout,
        session: wish.session,
        passwd: Bytes::from_vec(passwd),
        read_only: None,
    }))
}

/// Adds what the first step says; none where the words are others.
pub fn begin(
    alloc: Global,
    text: &mut String,
    words: &mut Words,
) -> Result<Option<Waiting>, Memory> {
    let Some(wish) = wish_of(words) else {
        return Ok(None);
    };
    if wish.id < 1 {
        return Ok(None);
    }
    let Some(passwd) = password(alloc, wish.fresh)? else {
        return Ok(None);
    };
    let Some(request) = request_of(alloc, &wish)? else {
        return Ok(None);
    };
    let fresh = Fresh {
        id: wish.id,
        passwd,
        layout: Layout::One,
    };
    let connecting = Connecting::new(alloc, request, fresh);
    Ok(Some(stepped(alloc, text, connecting, None)?))
}

/// One step: adds what it says, and hands back the connect where it waits for an answer.
fn stepped(
    alloc: Global,
    text: &mut String,
    connecting: Connecting,
    answer: Option<&Answer>,
) -> Result<Waiting, Memory>
    requires { MayStepConnect connecting (option_copied answer) }
{
    let mut connecting = connecting;
    let made = connecting.step(answer);
    push_step(alloc, text, &made)?;
    match made {
        Ok(ConnectStep::Ask(asked)) => Ok(Waiting::Connect(Begun { connecting, asked })),
        Ok(_end) => Ok(Waiting::Nothing),
        Err(_fault) => Ok(Waiting::Nothing),
    }
}

/// What a step says.
fn push_step(
    alloc: Global,
    text: &mut String,
    made: &Result<ConnectStep, StepFault>,
) -> Result<(), Memory> {
    match made {
        Ok(ConnectStep::Ask(ask)) => push_ask(alloc, text, ask),
        Ok(
            ConnectStep::Attached {
                response,
                who,
                timeout,
                number,
                zxid,
            },
        ) => {
            push_response(alloc, text, response)?;
            push_attached(alloc, text, who, *timeout, *number, *zxid)
        }
        Ok(ConnectStep::Ahead { client, head }) => push_two(alloc, text, "ahead ", *client, *head),
        Ok(ConnectStep::Unknown) => push(text, "unknown"),
        Ok(ConnectStep::Taken { rev }) => push_number(alloc, text, "taken ", *rev),
        Err(StepFault::Damaged { key, value }) => push_damaged(
            alloc,
            text,
            key.as_slice(),
            value.as_slice(),
        ),
        Err(StepFault::Memory) => Err(Memory),
    }
}

/// `attached SESSION PASSWORD TIMEOUT`
fn push_response(
    alloc: Global,
    text: &mut String,
    response: &ConnectResponse,
) -> Result<(), Memory> {
    let digits = hex_of(alloc, &response.passwd)?;
    let pieces = [
        Piece::Text("attached "),
        Piece::Number(response.session),
        Piece::Text(" "),
        Piece::Text(digits.as_str()),
        Piece::Text(" "),
        Piece::Number(i64::from(response.timeout)),
    ];
    push_pieces(alloc, text, &pieces)
}

/// Whom it is attached to.
fn push_attached(
    alloc: Global,
    text: &mut String,
    who: &Who,
    timeout: i32,
    number: i64,
    zxid: i64,
) -> Result<(), Memory> {
    let pieces = [
        Piece::Text("; "),
        Piece::Number(who.session),
        Piece::Text(" at "),
        Piece::Number(who.mine),
        Piece::Text(", "),
        Piece::Number(i64::from(timeout)),
        Piece::Text(" ms, number "),
        Piece::Number(number),
        Piece::Text(", zxid "),
        Piece::Number(zxid),
    ];
    push_pieces(alloc, text, &pieces)
}

/// `LAST NOW TIMEOUT`, in milliseconds: whether a keepalive is due; false where the words are others
pub fn alive(text: &mut String, words: &mut Words) -> Result<bool, Memory> {
    let (Some(last), Some(now)) = (words.number(), words.number()) else {
        return Ok(false);
    };
    let Some(timeout) = words.int() else {
        return Ok(false);
    };
    let is_due = alive_due(u64::from(last), u64::from(now), timeout);
    push(text, if is_due { "due" } else { "not due" })?;
    Ok(true)
}

impl Begun {
    /// Has what was asked carried out, and makes the next step: adds what it says, and hands back the connect where it waits again.
    pub fn go_on(
        self,
        alloc: Global,
        text: &mut String,
        store: &mut Store,
    ) -> Result<Waiting, Memory> {
        let Begun { connecting, asked } = self;
        match answer_of(alloc, text, store, &asked)? {
            Some(answer) => stepped(alloc, text, connecting, Some(&answer)),
            None => Ok(Waiting::Nothing),
        }
    }
}
