//! Where the request of a frame contends (`zookeeper.jute`, ZooKeeper 3.4). A frame that cannot be read contends nowhere.

ghost use Rattle.std.specs.Prelude.{◌≡◌, ◌∷◌, ℕ, List};
ghost use Rattle.zp_turns.specs.Parents.{IsParent, slash};

const CREATE: i32 = 1;

const DELETE: i32 = 2;

const SET_DATA: i32 = 5;

const MULTI: i32 = 14;

const CREATE2: i32 = 15;

const CLOSE_SESSION: i32 = -11;

/// The version of a setData that fits every version.
const ANY_VERSION: i32 = -1;

/// How many bytes a node's path has at most. A request that names a longer one is refused at once, and waits for nobody: a queue's path
/// is compared and copied under the lock of all queues.
const LONGEST_PATH: usize = 1024;

/// How many bytes of the header of a multi's part stand after its type: `done` and `err`.
const AFTER_TYPE: usize = 5;

/// An `int`, and what stands after it.
fn int_of(bytes: &[u8]) -> Option<(i32, &[u8])> {
    let (four, rest) = bytes.split_first_chunk::<4>()?;
    Some((i32::from_be_bytes(*four), rest))
}

/// A `ustring` or a `buffer`, whose length stands before it, and what stands after it. One that is null is empty.
fn bytes_of(bytes: &[u8]) -> Option<(&[u8], &[u8])> {
    let (length, rest) = int_of(bytes)?;
    rest.split_at_checked(length.max(0) as usize)
}

/// The type of a frame's request, and the request.
fn request_of(frame: &[u8]) -> Option<(i32, &[u8])> {
    let (_xid, rest) = int_of(frame)?;
    int_of(rest)
}

/// Whether the request of a frame is a closeSession.
pub(crate) fn is_close(frame: &[u8]) -> bool {
    match request_of(frame) {
        Some((kind, _request)) => kind == CLOSE_SESSION,
        None => false,
    }
}

/// The path of a node's parent: all before the last slash of its own, or that slash where nothing stands before it.
fn parent_of(path: &[u8]) -> &[u8]
    ensures { (rest : List ℕ) → path.now ≡ slash ∷ rest → IsParent path.now result.now }
{
    for place in (1..path.len()).rev() {
        if path[place] == b'/' {
            return &path[..place];
        }
    }
    b"/".as_slice()
}

/// The path of a setData of any version.
fn overwritten(request: &[u8]) -> Option<&[u8]> {
    let (path, rest) = bytes_of(request)?;
    let (_data, rest) = bytes_of(rest)?;
    let (version, _rest) = int_of(rest)?;
    if version == ANY_VERSION {
        Some(path)
    } else {
        None
    }
}

/// Where a request of this type contends, if it is no multi.
fn contended_by(kind: i32, request: &[u8]) -> Option<&[u8]> {
    match kind {
        CREATE | DELETE | CREATE2 => {
            let (path, _rest) = bytes_of(request)?;
            Some(parent_of(path))
        }
        SET_DATA => overwritten(request),
        _ => None,
    }
}

/// The path that the request of a frame names first, where such requests contend.
fn named(frame: &[u8]) -> Option<&[u8]> {
    let (kind, request) = request_of(frame)?;
    if kind != MULTI {
        return contended_by(kind, request);
    }
    let (part, rest) = int_of(request)?;
    contended_by(part, rest.get(AFTER_TYPE..)?)
}

/// The path at which the request of a frame contends; for a multi, that at which its first part does.
pub(crate) fn contended(frame: &[u8]) -> Option<&[u8]> {
    let path = named(frame)?;
    if path.len() <= LONGEST_PATH {
        Some(path)
    } else {
        None
    }
}
