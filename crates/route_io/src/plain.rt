//! A source and a sink in memory without calls that are listed to fail.
ghost use Rattle.std.specs.Prelude.{◌≡◌, ◌<◌, ◌↔◌, min, length, [], ◌∷◌, Some, IfOk, IsOk, IsErr, is_err};
ghost use Rattle.std.specs.Io.{ReadsAtMost};
ghost use Rattle.std.specs.Io.KnownBytes.{ReadConsumes, WriteAppends};
ghost use Rattle.std.specs.Result.{result_ok};
ghost use Rattle.route_io.specs.Causes.{HasCause, counted};
ghost use Rattle.route_io.specs.Shelf.{FindsNoRoom, free};
ghost use Rattle.route_io.specs.Views.{Write};

use crate::content::Content;
use crate::link::acts::StreamActs;
use crate::outside::{Failed, Sink, Source};
use crate::room::Room;

/// A source in memory. No read fails, and no call takes memory.
#[derive(Drop)]
pub struct PlainSource {
    content: Content,
}

impl PlainSource {
    /// A source with all of `content` still to come.
    pub fn new(content: Vec<u8>) -> PlainSource
        ensures { ⟦<PlainSource as Source>⟧.seen result ≡
            record { left = Some content.items; faults = 0 } }
    {
        PlainSource {
            content: Content::new(content),
        }
    }
}

impl Source for PlainSource {
    ghost seen = { λ s. record { left = Some s.content; faults = 0 } };

    fn read(&mut self, buf: &mut [u8]) -> Result<usize, Failed>
        ensures bound { ReadsAtMost result buf.new }
        ensures bytes { ReadConsumes (Some self.old.content) (Some self.new.content)
            result buf.new }
        ensures never_fails { IsOk result }
        ensures fills { IfOk result (λ n. n ≡ min (length buf.old) (length self.old.content)) }
    {
        Ok(self.content.give(buf))
    }
}

/// A sink in memory. A write fails exactly where there is no room for a byte of its piece. No call takes memory.
#[derive(Drop)]
pub struct PlainSink {
    room: Room,
    faults: u64,
    acts: StreamActs,
    ghost full: { 0 < faults → free room ≡ 0 },
}

impl PlainSink {
    /// An empty sink that can take as many bytes as `room` has.
    pub fn new(room: Vec<u8>) -> PlainSink
        ensures { ⟦<PlainSink as Sink>⟧.seen result ≡
            record { held = Some []; room = Some (length room.items); writes = Some []; faults = 0 } }
    {
        PlainSink {
            room: Room::new(room),
            faults: 0,
            acts: StreamActs::new(),
        }
    }

    /// The bytes that were taken.
    pub fn held(&self) -> &[u8]
        ensures { (⟦<PlainSink as Sink>⟧.seen self.now).held ≡ Some result.now }
    {
        self.room.held()
    }

    // Takes bytes from the front of `piece`, as far as there is room.
    fn take(&mut self, piece: &[u8]) -> Result<usize, Failed>
        ensures bytes { WriteAppends (Some self.old.room.held) (Some self.new.room.held)
            result piece.now }
        ensures same_room { self.new.room.size ≡ self.old.room.size }
        ensures same_acts { self.new.acts ≡ self.old.acts }
        ensures cause { HasCause self.old.faults self.new.faults result }
        ensures fails { IsErr result ↔ FindsNoRoom self.old.room piece.now }
        ensures takes { IfOk result (λ n. n ≡ min (length piece.now) (free self.old.room)) }
        ensures counted { self.new.faults ≡ counted (is_err result) self.old.faults }
    {
        let taken = self.room.take(piece);
        if taken == 0 && !piece.is_empty() {
            self.faults = self.faults.saturating_add(1);
            return Err(Failed);
        }
        Ok(taken)
    }
}

impl Sink for PlainSink {
    ghost seen = { λ s.
        record {
          held = Some s.room.held;
          room = Some s.room.size;
          writes = Some s.acts.list;
          faults = s.faults;
        } };

    fn write(&mut self, piece: &[u8]) -> Result<usize, Failed>
        ensures some { 0 < length piece.now → IfOk result (λ n. 0 < n) }
        ensures bytes { WriteAppends (Some self.old.room.held) (Some self.new.room.held)
            result piece.now }
        ensures same_room { Some self.new.room.size ≡ Some self.old.room.size }
        ensures acted { self.new.acts.list ≡ Write piece.now (result_ok result) ∷ self.old.acts.list }
        ensures cause { HasCause self.old.faults self.new.faults result }
        ensures fails { IsErr result ↔ FindsNoRoom self.old.room piece.now }
        ensures takes { IfOk result (λ n. n ≡ min (length piece.now) (free self.old.room)) }
        ensures counted { self.new.faults ≡ counted (is_err result) self.old.faults }
    {
        let taken = self.take(piece);
        self.acts = self.acts.write(piece, taken);
        taken
    }
}
