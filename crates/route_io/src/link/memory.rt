//! A link in memory, with calls that are listed to fail.
ghost use Rattle.std.specs.Prelude.{◌≡◌, ◌+◌, ◌<◌, ◌↔◌, ◌⊎◌, min, length, [], ◌∷◌, Some, false, IfOk, IsErr, IsTrue, is_err};
ghost use Rattle.std.specs.Io.{ReadsAtMost};
ghost use Rattle.std.specs.Io.KnownBytes.{ReadConsumes, WriteAppends};
ghost use Rattle.std.specs.Result.{result_ok};
ghost use Rattle.route_io.specs.Acts.{brought_by};
ghost use Rattle.route_io.specs.Causes.{HasCause, counted};
ghost use Rattle.route_io.specs.Calls.{Counts, IsFresh, NextIsListed};
ghost use Rattle.route_io.specs.Shelf.{FindsNoRoom, free};
ghost use Rattle.route_io.specs.Views.{Read, Write};

use crate::link::Link;
use crate::link::acts::StreamActs;
use crate::link::dialled::Dialled;
use crate::memory::{MemSink, MemSource};
use crate::outside::{Failed, Sink, Source};

/// A link in memory. No call takes memory.
#[derive(Drop)]
pub struct MemLink {
    source: MemSource,
    sink: MemSink,
    fail_dial: bool,
    dial_faults: u64,
    dialled: Dialled,
    acts: StreamActs,
}

impl MemLink {
    /// A new link with all of `incoming` still to come. It can take as many bytes as `room` has. Every dial fails if
    /// `fail_dial` says so. Reads and writes fail if their numbers are in `fail_reads` and `fail_writes`; each kind is
    /// counted from 1.
    pub fn new(
        incoming: Vec<u8>,
        room: Vec<u8>,
        fail_dial: bool,
        fail_reads: Vec<u64>,
        fail_writes: Vec<u64>,
    ) -> MemLink
        ensures seen { ⟦<MemLink as Link>⟧.seen result ≡ record {
          incoming = Some incoming.items;
          outgoing = Some [];
          room = Some (length room.items);
          acts = Some [];
          dialled = Some [];
          sure = false;
          faults = 0;
        } }
        ensures dials { result.fail_dial ≡ fail_dial }
        ensures reads { IsFresh result.source.calls fail_reads.items }
        ensures writes { IsFresh result.sink.calls fail_writes.items }
    {
        MemLink {
            source: MemSource::new(incoming, fail_reads),
            sink: MemSink::new(room, fail_writes),
            fail_dial,
            dial_faults: 0,
            dialled: Dialled::new(),
            acts: StreamActs::new(),
        }
    }

    /// The bytes that were taken.
    pub fn outgoing(&self) -> &[u8]
        ensures { (⟦<MemLink as Link>⟧.seen self.now).outgoing ≡ Some result.now }
    {
        self.sink.held()
    }
}

impl Link for MemLink {
    ghost seen = { λ s. record {
      incoming = Some s.source.content;
      outgoing = Some s.sink.room.held;
      room = Some s.sink.room.size;
      acts = Some s.acts.list;
      dialled = Some s.dialled.addresses;
      sure = false;
      faults = s.dial_faults + (s.source.calls.faults + s.sink.calls.faults);
    } };

    fn dial(&mut self, address: &str) -> Result<(), Failed>
        ensures cause { HasCause (⟦<MemLink as Link>⟧.seen self.old).faults
            (⟦<MemLink as Link>⟧.seen self.new).faults result }
        ensures listed { IsErr result ↔ IsTrue self.old.fail_dial }
        ensures counted { self.new ≡ record self.old {
          dial_faults = counted (is_err result) self.old.dial_faults;
          dialled = record { addresses = address.now ∷ self.old.dialled.addresses };
        } }
    {
        self.dialled = self.dialled.then(address.as_bytes());
        if self.fail_dial {
            self.dial_faults = self.dial_faults.saturating_add(1);
            return Err(Failed);
        }
        Ok(())
    }

    fn read(&mut self, buf: &mut [u8]) -> Result<usize, Failed>
        ensures bound { ReadsAtMost result buf.new }
        ensures bytes { ReadConsumes (Some self.old.source.content) (Some self.new.source.content)
            result buf.new }
        ensures cause { HasCause (⟦<MemLink as Link>⟧.seen self.old).faults
            (⟦<MemLink as Link>⟧.seen self.new).faults result }
        ensures listed { IsErr result ↔ NextIsListed self.old.source.calls }
        ensures fills { IfOk result (λ n.
            n ≡ min (length buf.old) (length self.old.source.content)) }
        ensures counted { Counts self.old.source.calls self.new.source.calls result }
        ensures others { self.new ≡ record self.old { source = self.new.source; acts = self.new.acts } }
        ensures acted { self.new.acts.list ≡ Read (brought_by result buf.new) ∷ self.old.acts.list }
    {
        let read = self.source.read(buf);
        self.acts = self.acts.read(read, buf);
        read
    }

    fn write(&mut self, piece: &[u8]) -> Result<usize, Failed>
        ensures some { 0 < length piece.now → IfOk result (λ n. 0 < n) }
        ensures bytes { WriteAppends (Some self.old.sink.room.held) (Some self.new.sink.room.held)
            result piece.now }
        ensures same_room { self.new.sink.room.size ≡ self.old.sink.room.size }
        ensures cause { HasCause (⟦<MemLink as Link>⟧.seen self.old).faults
            (⟦<MemLink as Link>⟧.seen self.new).faults result }
        ensures fails { IsErr result ↔
            (NextIsListed self.old.sink.calls ⊎ FindsNoRoom self.old.sink.room piece.now) }
        ensures takes { IfOk result (λ n.
            n ≡ min (length piece.now) (free self.old.sink.room)) }
        ensures counted { Counts self.old.sink.calls self.new.sink.calls result }
        ensures others { self.new ≡ record self.old { sink = self.new.sink; acts = self.new.acts } }
        ensures acted { self.new.acts.list ≡ Write piece.now (result_ok result) ∷ self.old.acts.list }
    {
        let written = self.sink.write(piece);
        self.acts = self.acts.write(piece, written);
        written
    }
}
