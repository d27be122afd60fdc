//! The reads and writes of a link or a sink, recorded for contracts only.
ghost use Rattle.std.specs.Prelude.{◌≡◌, ◌≤◌, List, [], ◌∷◌, None, Some, length, IfOk};
ghost use Rattle.std.specs.Borrow.{ftrue};
ghost use Rattle.std.specs.Io.{ReadsAtMost};
ghost use Rattle.std.specs.Result.{result_ok};
ghost use Rattle.route_io.specs.Acts.{brought_by};
ghost use Rattle.route_io.specs.Views.{StreamAct, Read, Write};

use crate::outside::Failed;
use std::marker::Model;

/// The reads and writes of a link or a sink, the newest first. The value has no bytes: only contracts read it.
#[derive(Drop)]
pub struct StreamActs {
    pub ghost list: { List StreamAct },
}

impl Model for StreamActs {
    ghost also_owns = { λ _. ftrue };
}

impl StreamActs {
    /// No reads and writes.
    pub fn new() -> StreamActs
        ensures { result.list ≡ [] }
    {
        StreamActs {}
    }

    /// Adds a read with this answer, which filled the front of the buffer.
    pub fn read(&self, read: Result<usize, Failed>, buf: &[u8]) -> StreamActs
        requires { ReadsAtMost read buf.now }
        ensures { result.list ≡ Read (brought_by read buf.now) ∷ self.now.list }
    {
        match read {
            Ok(count) => self.brought(&buf[..count]),
            Err(_) => self.read_failed(),
        }
    }

    /// Adds a write of the piece with this answer.
    pub fn write(&self, piece: &[u8], written: Result<usize, Failed>) -> StreamActs
        requires { IfOk written (λ n. n ≤ length piece.now) }
        ensures { result.list ≡ Write piece.now (result_ok written) ∷ self.now.list }
    {
        match written {
            Ok(count) => self.took(piece, &piece[..count]),
            Err(_) => self.write_failed(piece),
        }
    }

    fn brought(&self, _bytes: &[u8]) -> StreamActs
        ensures { result.list ≡ Read (Some _bytes.now) ∷ self.now.list }
    {
        StreamActs {}
    }

    fn read_failed(&self) -> StreamActs
        ensures { result.list ≡ Read None ∷ self.now.list }
    {
        StreamActs {}
    }

    fn took(&self, _piece: &[u8], _taken: &[u8]) -> StreamActs
        ensures { result.list ≡ Write _piece.now (Some (length _taken.now)) ∷ self.now.list }
    {
        StreamActs {}
    }

    fn write_failed(&self, _piece: &[u8]) -> StreamActs
        ensures { result.list ≡ Write _piece.now None ∷ self.now.list }
    {
        StreamActs {}
    }
}
