//! The forms of lines: the first word, and what its arguments are.

use crate::expected::Expected;

/// Forms that are told apart by their first word.
#[derive(Clone, Copy, PartialEq, Eq)]
pub enum Forms {
    /// Lines of a script.
    Script,
    /// Lines of a transcript.
    Transcript,
    /// What an update was, after its zxid.
    Update,
    /// Why a connection or a reaper ended, after its number.
    Cause,
    /// Why a line of a script was refused. They are told apart by all of their words.
    Reason,
}

/// One form: its arguments, and of which forms the rest of the line is, if any follows.
#[derive(Clone, Copy)]
pub struct Form {
    pub arguments: &'static [Expected],
    pub then: Option<Forms>,
}

/// What is expected where one of these forms begins.
pub fn beginning(forms: Forms) -> Expected {
    match forms {
        Forms::Script => Expected::ScriptLine,
        Forms::Transcript => Expected::TranscriptLine,
        Forms::Update => Expected::Update,
        Forms::Cause => Expected::Cause,
        Forms::Reason => Expected::Reason,
    }
}

/// The form with this first word.
pub fn form_of(forms: Forms, name: &[u8]) -> Option<Form> {
    match forms {
        Forms::Script => script_form(name),
        Forms::Transcript => transcript_form(name),
        Forms::Update => update_form(name),
        Forms::Cause => cause_form(name),
        Forms::Reason => None,
    }
}

const OPEN: [Expected; 4] = [
    Expected::Connection,
    Expected::Proxy,
    Expected::Session,
    Expected::Password,
];

const REAP: [Expected; 3] = [Expected::Connection, Expected::Proxy, Expected::Session];

const ARRIVAL: [Expected; 2] = [Expected::Connection, Expected::Bytes];

const FOREIGN: [Expected; 2] = [Expected::Bytes, Expected::Bytes];

const CONNECTION: [Expected; 1] = [Expected::Connection];

const PROXY: [Expected; 1] = [Expected::Proxy];

const STRAY: [Expected; 1] = [Expected::Stray];

const MILLIS: [Expected; 1] = [Expected::Millis];

const SESSION: [Expected; 1] = [Expected::Session];

const FRAME: [Expected; 4] = [
    Expected::Connection,
    Expected::Frame,
    Expected::Zxid,
    Expected::Bytes,
];

const LAPSE: [Expected; 2] = [Expected::Revision, Expected::Session];

const ZXID: [Expected; 1] = [Expected::Zxid];

const LINE: [Expected; 1] = [Expected::Line];

const TIME: [Expected; 1] = [Expected::Time];

const ATTACH: [Expected; 2] = [Expected::Session, Expected::Connection];

const ASKED: [Expected; 3] = [Expected::Connection, Expected::Frame, Expected::Time];

const CLOSED: [Expected; 3] = [Expected::Session, Expected::Connection, Expected::Frame];

const PLACE: [Expected; 1] = [Expected::Place];

const LENGTH: [Expected; 2] = [Expected::Place, Expected::Length];

const REVISION: [Expected; 1] = [Expected::Revision];

const ZXIDS: [Expected; 2] = [Expected::Zxid, Expected::Zxid];

const UPDATES: [Expected; 2] = [Expected::Updates, Expected::Updates];

const NONE: [Expected; 0] = [];

fn of(arguments: &'static [Expected]) -> Option<Form> {
    Some(Form {
        arguments,
        then: None,
    })
}

fn before(arguments: &'static [Expected], forms: Forms) -> Option<Form> {
    Some(Form {
        arguments,
        then: Some(forms),
    })
}

fn script_form(name: &[u8]) -> Option<Form> {
    match name {
        b"open" | b"open1" => of(&OPEN),
        b"frame" | b"bytes" => of(&ARRIVAL),
        b"foreign" => of(&FOREIGN),
        b"reap" => of(&REAP),
        b"lapse" => of(&SESSION),
        b"restart" => of(&PROXY),
        b"stray" => of(&STRAY),
        b"tick" => of(&MILLIS),
        b"exec" | b"answer" | b"cut" | b"refuse" | b"entry" | b"lag" | b"end" | b"settle" => of(
            &CONNECTION,
        ),
        _ => None,
    }
}

fn transcript_form(name: &[u8]) -> Option<Form> {
    match name {
        b"open" | b"open1" => of(&OPEN),
        b"frame" => of(&FRAME),
        b"send" => of(&ARRIVAL),
        b"lapse" => of(&LAPSE),
        b"update" => before(&ZXID, Forms::Update),
        b"close" => before(&CONNECTION, Forms::Cause),
        b"fault" => before(&LINE, Forms::Reason),
        b"done" => of(&NONE),
        _ => None,
    }
}

fn update_form(name: &[u8]) -> Option<Form> {
    match name {
        b"begin" => of(&TIME),
        b"session" | b"attach" => of(&ATTACH),
        b"asked" => of(&ASKED),
        b"closed" => of(&CLOSED),
        b"reaped" => of(&SESSION),
        _ => None,
    }
}

fn cause_form(name: &[u8]) -> Option<Form> {
    match name {
        b"closed"
        | b"read"
        | b"write"
        | b"auth"
        | b"unknown"
        | b"link"
        | b"feed"
        | b"restart"
        | b"memory" => of(&NONE),
        b"client" | b"noheader" => of(&PLACE),
        b"length" => of(&LENGTH),
        b"taken" | b"expired" | b"kept" | b"gone" => of(&REVISION),
        b"reaped" => of(&ZXID),
        b"ahead" | b"moved" => of(&ZXIDS),
        b"lagged" => of(&UPDATES),
        b"damaged" => of(&FOREIGN),
        _ => None,
    }
}
