//! What goes to a peer over TCP.

ghost use Rattle.std.specs.Prelude.{◌≡◌, ◌≤◌, length};

use std::io::Write;
use std::net::TcpStream;
use std::sync::Arc;
use zx_outside::{Sink, Took};
use zx_random::LetsGo;

/// The sink end of a TCP stream.
#[derive(Drop)]
pub struct SocketSink {
    /// `None` once it has let go.
    stream: Option<Arc<TcpStream>>,
    faults: u64,
    name: u64,
}

impl SocketSink {
    /// The sink end of this stream, under a name.
    pub fn new(stream: Arc<TcpStream>, name: u64) -> SocketSink
        ensures faults { result.faults ≡ 0 }
        ensures named { result.name ≡ name }
    {
        SocketSink {
            stream: Some(stream),
            faults: 0,
            name,
        }
    }
}

/// Has the system take the front of a piece; 0 where it takes none.
fn put(stream: &Option<Arc<TcpStream>>, piece: &[u8]) -> usize
    ensures { result ≤ length piece.now }
{
    let Some(stream) = stream else {
        return 0;
    };
    let mut stream: &TcpStream = stream;
    stream.write(piece).unwrap_or(0)
}

impl Sink for SocketSink {
    ghost use Rattle.std.specs.Prelude.{◌≡◌, ◌<◌, length, None};
    ghost use Rattle.zx_outside.specs.Writing.{FitsPiece, Writes, counts_after_write};

    ghost taken = { λ _. None };

    ghost counts = { λ s. record { faults = s.faults } };

    ghost name = { λ s. s.name };

    fn write(&mut self, piece: &[u8]) -> Took
        requires { 0 < length piece.now }
        ensures size { FitsPiece result (length piece.now) }
        ensures bytes { Writes result piece.now None None }
        ensures counts { record { faults = self.new.faults } ≡ counts_after_write result (record { faults = self.old.faults }) }
        ensures named { self.new.name ≡ self.old.name }
    {
        let count = put(&self.stream, piece);
        if count == 0 {
            self.faults = self.faults.saturating_add(1);
            return Took::Failed;
        }
        Took::Bytes(count)
    }
}

impl LetsGo for SocketSink {
    ghost use Rattle.std.specs.Prelude.{◌≡◌, None};

    fn let_go(&mut self)
        ensures faults { self.new.faults ≡ self.old.faults }
        ensures named { self.new.name ≡ self.old.name }
        ensures gone { self.new.stream ≡ None }
    {
        self.stream = None;
    }
}
