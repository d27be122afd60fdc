//! A link to a peer: bytes come from it, and bytes go to it.
ghost use Rattle.std.specs.Prelude.{◌≡◌, ◌<◌, ◌≤◌, min, length, Some, IfOk, IsOk, OnOk, OnErr, IfSome};
ghost use Rattle.std.specs.Io.{ReadsAtMost};
ghost use Rattle.std.specs.Io.KnownBytes.{ReadConsumes, WriteAppends, Appends};
ghost use Rattle.std.specs.Result.{result_ok};
ghost use Rattle.route_io.specs.Acts.{ActsOnce, AddsFront, AddsWrites, brought_by, whole_by};
ghost use Rattle.route_io.specs.Causes.{HasCause, AppendsFront, StaysTold};
ghost use Rattle.route_io.specs.Links.{Dials, OnlyDials, OnlyReads, OnlyWrites, FindsNoneLeft, HasRoom, IsSure, LacksRoom, room_left};
ghost use Rattle.route_io.specs.Views.{LinkView, Read, Write};

use crate::outside::Failed;

pub(crate) mod acts;
mod dialled;
pub mod memory;
pub mod plain;
pub mod tcp;

/// A peer to read from and to write to. A call that fails transfers nothing and raises the count of faults; any other
/// call leaves the count. The count stops at its highest value, as that of a [`Source`](crate::Source) does.
pub trait Link {
    /// What contracts see of the link: the bytes still to come, the bytes taken, how many can be taken in all, the
    /// reads and writes that were made, and the addresses that were dialled, each if the link tells it; whether calls
    /// can fail for other reasons than room; and how many calls have failed.
    ///
    /// A link that tells its room takes as much of a piece as there is room for. The link type declares whether it is
    /// sure. On a sure link a call fails only where there is no room for a byte of a piece. No call changes whether a
    /// link is sure.
    ghost seen: { Self → LinkView };

    /// Connects to the peer at `address`, a host and a port such as `127.0.0.1:179`. An address at which no peer is
    /// reached counts as dialled too.
    fn dial(&mut self, address: &str) -> Result<(), Failed>
        ensures dials { Dials (seen self.old) (seen self.new) address.now }
        ensures sure { IsSure (seen self.old) → IsOk result }
        ensures others { OnlyDials (seen self.old) (seen self.new) }
        ensures cause { HasCause (seen self.old).faults (seen self.new).faults result };

    /// Reads the next bytes into the front of `buf`. Returns how many; if the buffer has room, 0 means the end.
    fn read(&mut self, buf: &mut [u8]) -> Result<usize, Failed>
        ensures bound { ReadsAtMost result buf.new }
        ensures bytes { ReadConsumes (seen self.old).incoming (seen self.new).incoming
            result buf.new }
        ensures told { StaysTold (seen self.old).incoming (seen self.new).incoming }
        ensures sure { IsSure (seen self.old) → IsOk result }
        ensures acted { ActsOnce (seen self.old) (seen self.new)
            (Read (brought_by result buf.new)) }
        ensures others { OnlyReads (seen self.old) (seen self.new) }
        ensures cause { HasCause (seen self.old).faults (seen self.new).faults result };

    /// Takes bytes from the front of `piece`, at least one unless it is empty. Returns how many.
    fn write(&mut self, piece: &[u8]) -> Result<usize, Failed>
        ensures bound { IfOk result (λ n. n ≤ length piece.now) }
        ensures some { 0 < length piece.now → IfOk result (λ n. 0 < n) }
        ensures fills { IfSome (room_left (seen self.old)) (λ left.
            IfOk result (λ n. n ≡ min (length piece.now) left)) }
        ensures bytes { WriteAppends (seen self.old).outgoing (seen self.new).outgoing
            result piece.now }
        ensures told { StaysTold (seen self.old).outgoing (seen self.new).outgoing }
        ensures acted { ActsOnce (seen self.old) (seen self.new)
            (Write piece.now (result_ok result)) }
        ensures sure { IsSure (seen self.old) →
            OnErr result (FindsNoneLeft (seen self.old) piece.now) }
        ensures others { OnlyWrites (seen self.old) (seen self.new) }
        ensures cause { HasCause (seen self.old).faults (seen self.new).faults result };

    /// Writes a whole piece: by one write, and by further ones only for what a write left. An empty piece is not
    /// written. Takes no memory. After a failure the link has taken a part from the front of the piece, and never all
    /// of it.
    final fn write_all(&mut self, piece: &[u8]) -> Result<(), Failed>
    where
        Self: Sized,
        ensures ok { OnOk result
            (Appends (seen self.old).outgoing (seen self.new).outgoing piece.now) }
        ensures err { OnErr result
            (AppendsFront (seen self.old).outgoing (seen self.new).outgoing piece.now) }
        ensures told { StaysTold (seen self.old).outgoing (seen self.new).outgoing }
        ensures one_write { HasRoom (seen self.old) piece.now
            → ActsOnce (seen self.old) (seen self.new)
            (Write piece.now (whole_by result piece.now)) }
        ensures acted { OnOk result
            (AddsWrites (seen self.old) (seen self.new) piece.now) }
        ensures acted_err { OnErr result
            (AddsFront (seen self.old) (seen self.new) piece.now) }
        ensures sure { IsSure (seen self.old) →
            OnErr result (LacksRoom (seen self.old) piece.now) }
        ensures others { OnlyWrites (seen self.old) (seen self.new) }
        ensures cause { HasCause (seen self.old).faults (seen self.new).faults result }
    {
        let mut done = 0;
        while done < piece.len() {
            let (_, rest) = piece.split_at(done);
            done += self.write(rest)?;
        }
        Ok(())
    }
}
