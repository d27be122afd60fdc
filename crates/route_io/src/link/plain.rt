//! A link in memory without calls that are listed to fail.
ghost use Rattle.std.specs.Prelude.{◌≡◌, ◌<◌, ◌↔◌, min, length, [], ◌∷◌, None, Some, true, IfOk, IsOk, IsErr, is_err};
ghost use Rattle.std.specs.Io.{ReadsAtMost};
ghost use Rattle.std.specs.Io.KnownBytes.{ReadConsumes, WriteAppends};
ghost use Rattle.std.specs.Result.{result_ok};
ghost use Rattle.route_io.specs.Acts.{brought_by};
ghost use Rattle.route_io.specs.Causes.{HasCause, counted};
ghost use Rattle.route_io.specs.Shelf.{FindsNoRoom, free};
ghost use Rattle.route_io.specs.Views.{Read, Write};

use crate::link::Link;
use crate::link::acts::StreamActs;
use crate::link::dialled::Dialled;
use crate::outside::{Failed, Sink, Source};
use crate::plain::{PlainSink, PlainSource};

/// A link in memory. No dial and no read fails, and a write fails exactly where there is no room for a byte of its
/// piece. No call takes memory.
#[derive(Drop)]
pub struct PlainLink {
    source: PlainSource,
    sink: PlainSink,
    dialled: Dialled,
    acts: StreamActs,
}

impl PlainLink {
    /// A new link with all of `incoming` still to come. It can take as many bytes as `room` has.
    pub fn new(incoming: Vec<u8>, room: Vec<u8>) -> PlainLink
        ensures { ⟦<PlainLink as Link>⟧.seen result ≡ record {
          incoming = Some incoming.items;
          outgoing = Some [];
          room = Some (length room.items);
          acts = Some [];
          dialled = Some [];
          sure = true;
          faults = 0;
        } }
    {
        PlainLink {
            source: PlainSource::new(incoming),
            sink: PlainSink::new(room),
            dialled: Dialled::new(),
            acts: StreamActs::new(),
        }
    }

    /// The bytes that were taken.
    pub fn outgoing(&self) -> &[u8]
        ensures { (⟦<PlainLink as Link>⟧.seen self.now).outgoing ≡ Some result.now }
    {
        self.sink.held()
    }
}

impl Link for PlainLink {
    ghost seen = { λ s. record {
      incoming = Some s.source.content;
      outgoing = Some s.sink.room.held;
      room = Some s.sink.room.size;
      acts = Some s.acts.list;
      dialled = Some s.dialled.addresses;
      sure = true;
      faults = s.sink.faults;
    } };

    fn dial(&mut self, address: &str) -> Result<(), Failed>
        ensures never_fails { IsOk result }
        ensures same { self.new ≡ record self.old {
          dialled = record { addresses = address.now ∷ self.old.dialled.addresses };
        } }
    {
        self.dialled = self.dialled.then(address.as_bytes());
        Ok(())
    }

    fn read(&mut self, buf: &mut [u8]) -> Result<usize, Failed>
        ensures bound { ReadsAtMost result buf.new }
        ensures bytes { ReadConsumes (Some self.old.source.content) (Some self.new.source.content)
            result buf.new }
        ensures never_fails { IsOk result }
        ensures fills { IfOk result (λ n.
            n ≡ min (length buf.old) (length self.old.source.content)) }
        ensures others { self.new ≡ record self.old { source = self.new.source; acts = self.new.acts } }
        ensures acted { self.new.acts.list ≡ Read (brought_by result buf.new) ∷ self.old.acts.list }
    {
        let read = self.source.read(buf);
        self.acts = self.acts.read(read, buf);
        read
    }

    fn write(&mut self, piece: &[u8]) -> Result<usize, Failed>
        ensures some { 0 < length piece.now → IfOk result (λ n. 0 < n) }
        ensures bytes { WriteAppends (Some self.old.sink.room.held) (Some self.new.sink.room.held)
            result piece.now }
        ensures same_room { self.new.sink.room.size ≡ self.old.sink.room.size }
        ensures cause { HasCause self.old.sink.faults self.new.sink.faults result }
        ensures fails { IsErr result ↔ FindsNoRoom self.old.sink.room piece.now }
        ensures takes { IfOk result (λ n.
            n ≡ min (length piece.now) (free self.old.sink.room)) }
        ensures counted { self.new.sink.faults ≡ counted (is_err result) self.old.sink.faults }
        ensures others { self.new ≡ record self.old { sink = self.new.sink; acts = self.new.acts } }
        ensures acted { self.new.acts.list ≡ Write piece.now (result_ok result) ∷ self.old.acts.list }
    {
        let written = self.sink.write(piece);
        self.acts = self.acts.write(piece, written);
        written
    }
}
