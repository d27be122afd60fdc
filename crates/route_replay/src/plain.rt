//! A replay and a load over plain memory.
ghost use Rattle.std.specs.Prelude.{◌≡◌, ◌≢◌};
ghost use Rattle.route_io.specs.Shelf.{ExceedsRoom};
ghost use Rattle.route_replay.specs.Loaded.{Loaded};
ghost use Rattle.route_replay.specs.LoadText.{load_text};
ghost use Rattle.route_replay.specs.Plain.{HasTooLongText};
ghost use Rattle.route_replay.specs.Replayed.{Replayed};

use crate::loading::load;
use crate::runner::replay;
use route_io::{PlainSink, PlainSource, Sink, Source};
use std::alloc::Global;
use topology::Status;

/// [`replay`] where no call of the outside is listed to fail: no read fails, and a write fails only
/// where the text is longer than the room.
pub fn replay_plain(alloc: Global, source: &mut PlainSource, sink: &mut PlainSink) -> Status
    ensures replayed { Replayed
        (⟦<PlainSource as Source>⟧.seen source.old) (⟦<PlainSource as Source>⟧.seen source.new)
        (⟦<PlainSink as Sink>⟧.seen sink.old) (⟦<PlainSink as Sink>⟧.seen sink.new) result }
    ensures no_read_fault { result ≢ Status.ReadFault }
    ensures write_fault { result ≡ Status.WriteFault →
        HasTooLongText (⟦<PlainSource as Source>⟧.seen source.old) (⟦<PlainSink as Sink>⟧.seen sink.old) }
{
    replay(alloc, source, sink)
}

/// [`load`] where no call of the outside is listed to fail: a write fails only where the text of the load is
/// longer than the room.
pub fn load_plain(alloc: Global, number: u32, sink: &mut PlainSink) -> Status
    ensures loaded { Loaded number
        (⟦<PlainSink as Sink>⟧.seen sink.old) (⟦<PlainSink as Sink>⟧.seen sink.new) result }
    ensures write_fault { result ≡ Status.WriteFault →
        ExceedsRoom (⟦<PlainSink as Sink>⟧.seen sink.old) (load_text number) }
{
    load(alloc, number, sink)
}
