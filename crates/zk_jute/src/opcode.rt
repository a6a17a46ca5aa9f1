//! Kinds of requests, and their numbers on the wire (`ZooDefs.OpCode`, release 3.5).

ghost use Rattle.std.specs.Prelude.{◌≡◌};
ghost use Rattle.zk_jute.specs.Numbers.{opcode_number, opcode_numbered, part_number, part_numbered};

/// The kinds of requests that are read. Other types of release 3.5, such as `setACL` (7), `reconfig` (16) and `sasl` (102),
/// are not listed.
#[derive(Clone, Copy, PartialEq, Eq)]
pub enum Opcode {
    Create,
    Delete,
    Exists,
    GetData,
    SetData,
    GetAcl,
    GetChildren,
    Sync,
    Ping,
    /// The children with the node's Stat.
    GetChildren2,
    Check,
    Multi,
    Auth,
    SetWatches,
    /// `closeSession`.
    Close,
    /// A create whose reply has the new node's Stat too.
    Create2,
    CheckWatches,
    RemoveWatches,
}

impl Opcode {
    /// The kind with this number, the type in a request's header; `None` where no kind has it.
    pub fn from_number(number: i32) -> Option<Opcode>
        ensures { result ≡ opcode_numbered number }
    {
        match number {
            1 => Some(Opcode::Create),
            2 => Some(Opcode::Delete),
            3 => Some(Opcode::Exists),
            4 => Some(Opcode::GetData),
            5 => Some(Opcode::SetData),
            6 => Some(Opcode::GetAcl),
            8 => Some(Opcode::GetChildren),
            9 => Some(Opcode::Sync),
            11 => Some(Opcode::Ping),
            12 => Some(Opcode::GetChildren2),
            13 => Some(Opcode::Check),
            14 => Some(Opcode::Multi),
            15 => Some(Opcode::Create2),
            17 => Some(Opcode::CheckWatches),
            18 => Some(Opcode::RemoveWatches),
            100 => Some(Opcode::Auth),
            101 => Some(Opcode::SetWatches),
            -11 => Some(Opcode::Close),
            _ => None,
        }
    }

    /// The type in the header of a request of this kind.
    pub fn number(self) -> i32
        ensures { result ≡ opcode_number self }
    {
        match self {
            Opcode::Create => 1,
            Opcode::Delete => 2,
            Opcode::Exists => 3,
            Opcode::GetData => 4,
            Opcode::SetData => 5,
            Opcode::GetAcl => 6,
            Opcode::GetChildren => 8,
            Opcode::Sync => 9,
            Opcode::Ping => 11,
            Opcode::GetChildren2 => 12,
            Opcode::Check => 13,
            Opcode::Multi => 14,
            Opcode::Auth => 100,
            Opcode::SetWatches => 101,
            Opcode::Close => -11,
            Opcode::Create2 => 15,
            Opcode::CheckWatches => 17,
            Opcode::RemoveWatches => 18,
        }
    }
}

/// The kinds of parts of a multi. Each has the number of that kind of request.
#[derive(Clone, Copy, PartialEq, Eq)]
pub enum PartKind {
    Create,
    Delete,
    SetData,
    Check,
}

impl PartKind {
    /// The kind of part with this number, the type in a part's header; `None` where no kind has it.
    pub fn from_number(number: i32) -> Option<PartKind>
        ensures { result ≡ part_numbered number }
    {
        match number {
            1 => Some(PartKind::Create),
            2 => Some(PartKind::Delete),
            5 => Some(PartKind::SetData),
            13 => Some(PartKind::Check),
            _ => None,
        }
    }

    /// The type in the header of a part of this kind, and of its result.
    pub fn number(self) -> i32
        ensures { result ≡ part_number self }
    {
        match self {
            PartKind::Create => 1,
            PartKind::Delete => 2,
            PartKind::SetData => 5,
            PartKind::Check => 13,
        }
    }
}
