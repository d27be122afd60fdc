//! Text is gathered and written by the page, so that many short lines cost few writes and a long
//! text little memory.
ghost use Rattle.std.specs.Prelude.{◌≡◌, [], OnOk, OnErr, IfErr};
ghost use Rattle.std.specs.String.{string_bytes};
ghost use Rattle.route_replay.specs.Gathering.{Gathers, Breaks, page_view};

use crate::ends::RunEnd;
use route_io::{Sink, write_all};
use std::alloc::Global;

/// So many bytes are gathered before they are written.
const PAGE: usize = 65_536;

/// Text that is pending, and the sink that it goes to. The text is a `String`: it is a parameter so
/// that proofs see where the reference to the sink ends.
pub struct Page<'a, T, O> {
    pub(crate) text: T,
    sink: &'a mut O,
}

impl<'a, T: Drop, O> Drop for Page<'a, T, O> {
    fn drop(self)
        ensures { self.exit.1.0.now ≡ self.entry.sink.now }
    {
        let Page { text: _, sink: _ } = self;
    }
}

impl<'a, O: Sink> Page<'a, String, O> {
    /// Nothing is pending. Takes no memory.
    pub fn new(alloc: Global, sink: &'a mut O) -> Page<'a, String, O>
        ensures empty { string_bytes result.text ≡ [] }
        ensures same_sink { result.sink.ghost_name ≡ sink.entry.ghost_name }
        ensures sink { result.sink.now ≡ sink.old }
    {
        Page {
            text: String::new(alloc),
            sink,
        }
    }

    /// Writes what is pending, where it fills a page. After an `Err` it is pending as it was, though a front of it
    /// may have been written.
    pub fn spill(&mut self) -> Result<(), RunEnd>
        ensures gathers { OnOk result
            (Gathers (page_view O.seen self.old) (page_view O.seen self.new) []) }
        ensures breaks { IfErr result (Breaks (O.seen self.old.sink.now) (O.seen self.new.sink.now)
            (string_bytes self.old.text)) }
        ensures kept { OnErr result (self.new.text ≡ self.old.text) }
        ensures same_sink { self.new.sink.ghost_name ≡ self.old.sink.ghost_name }
    {
        if self.text.len() < PAGE {
            return Ok(());
        }
        self.flush()
    }

    /// Writes what is pending, if anything is. After an `Err` it is pending as it was, though a front of it may have
    /// been written.
    pub fn flush(&mut self) -> Result<(), RunEnd>
        ensures gathers { OnOk result
            (Gathers (page_view O.seen self.old) (page_view O.seen self.new) []) }
        ensures empty { OnOk result (string_bytes self.new.text ≡ []) }
        ensures breaks { IfErr result (Breaks (O.seen self.old.sink.now) (O.seen self.new.sink.now)
            (string_bytes self.old.text)) }
        ensures kept { OnErr result (self.new.text ≡ self.old.text) }
        ensures same_sink { self.new.sink.ghost_name ≡ self.old.sink.ghost_name }
    {
        if self.text.is_empty() {
            return Ok(());
        }
        if write_all(self.sink, self.text.as_bytes()).is_err() {
            return Err(RunEnd::WriteFault);
        }
        self.text.clear();
        Ok(())
    }
}
