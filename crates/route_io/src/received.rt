//! Bytes that were received over a link and are not handled yet.
ghost use Rattle.std.specs.Prelude.{◌≡◌, ◌+◌, ◌<◌, ◌≤◌, ◌↔◌, [], None, length, take, drop, OnOk, OnErr, IfSome, IsErrOf, IsOk, IfOk};
ghost use Rattle.std.specs.Io.KnownBytes.{ReadConsumes, Keeps};
ghost use Rattle.route_io.specs.Causes.{HasCause, RoseIf, StaysTold};
ghost use Rattle.route_io.specs.Acts.{ActsOnce, ReadsMore, brought_by};
ghost use Rattle.route_io.specs.Links.{IsSure, OnlyReads, ReadsBehind, GrowsWithin, ahead};
ghost use Rattle.route_io.specs.Views.{Read};

use crate::link::Link;
use crate::outside::Failed;
use bytes::BytesMut;
use std::alloc::Global;
use std::marker::Model;
use thiserror::Error;

/// How many bytes one fill asks for.
pub const PORTION: usize = 16 * 1024;

/// The result of a fill.
#[derive(Clone, Copy, Debug, PartialEq, Eq)]
pub enum Filled {
    /// At least one byte was received.
    More,
    /// The link has ended.
    End,
}

/// Why a fill failed.
#[derive(Debug, Drop, Error)]
pub enum NotFilled {
    /// Memory ran out before the link was read.
    #[error("out of memory")]
    NoMemory,
    /// A read of the link failed.
    #[error("a read failed")]
    Fault,
}

/// The bytes that were received over a link and not yet taken, in order. Its memory grows with the longest run of bytes
/// that was waited for, and not with everything received.
#[derive(Drop)]
pub struct Received {
    bytes: BytesMut,
}

impl Model for Received {
    ghost use Rattle.std.specs.Prelude.{ℕ, List};

    ghost Value = { List ℕ };

    ghost view = { λ r. r.bytes.items };
}

impl Received {
    /// No bytes. Takes no memory.
    pub fn new(alloc: Global) -> Received
        ensures { result ≡ [] }
    {
        Received {
            bytes: BytesMut::new(alloc),
        }
    }

    /// The bytes not yet taken. Takes no memory.
    pub fn as_slice(&self) -> &[u8]
        ensures { result.now ≡ self.now }
    {
        self.bytes.as_slice()
    }

    /// Removes the first `count` bytes, or all if there are fewer. Takes no memory, and moves no byte.
    pub fn take_front(&mut self, count: usize)
        ensures { self.new ≡ drop count self.old }
    {
        let count = count.min(self.bytes.len());
        self.bytes.advance(count);
    }

    /// Reads once from the link, at most a portion, and adds what was read at the end.
    pub fn fill<L: Link>(&mut self, link: &mut L) -> Result<Filled, NotFilled>
        // no byte is lost, whatever the answer
        ensures ahead { ahead self.new (L.seen link.new) ≡ ahead self.old (L.seen link.old) }
        ensures grows { GrowsWithin PORTION self.old self.new }
        ensures more { (result ≡ Ok Filled.More) ↔ (length self.old < length self.new) }
        ensures end { IfSome (L.seen link.old).incoming (λ bytes.
            OnOk result ((result ≡ Ok Filled.End) ↔ (bytes ≡ []))) }
        ensures err { OnErr result (self.new ≡ self.old) }
        ensures kept { OnErr result
            ((L.seen link.new).incoming ≡ (L.seen link.old).incoming) }
        ensures others { OnlyReads (L.seen link.old) (L.seen link.new) }
        ensures acted { OnOk result
            (ReadsMore self.old self.new (L.seen link.old) (L.seen link.new)) }
        ensures acted_err { IsErrOf result NotFilled.Fault →
            ActsOnce (L.seen link.old) (L.seen link.new) (Read None) }
        ensures sure { IsSure (L.seen link.old) → ¬ IsErrOf result NotFilled.Fault }
        ensures cause { RoseIf (IsErrOf result NotFilled.Fault)
            (L.seen link.old).faults (L.seen link.new).faults }
        ensures no_memory { IsErrOf result NotFilled.NoMemory → link.new ≡ link.old }
    {
        if self.bytes.reserve(PORTION).is_err() {
            return Err(NotFilled::NoMemory);
        }
        let Ok(count) = read_behind(link, &mut self.bytes) else {
            return Err(NotFilled::Fault);
        };
        if count == 0 {
            return Ok(Filled::End);
        }
        Ok(Filled::More)
    }
}

// One read of at most a portion, into the spare room of `bytes`.
fn read_behind<L: Link>(link: &mut L, bytes: &mut BytesMut) -> Result<usize, Failed>
    requires { PORTION ≤ bytes.old.spare }
    ensures within { IfOk result (λ n. n ≤ PORTION) }
    ensures ok { IfOk result (λ n. ReadsBehind n bytes.old.items bytes.new.items
        (L.seen link.old) (L.seen link.new)) }
    ensures err { OnErr result (bytes.new.items ≡ bytes.old.items) }
    ensures kept { OnErr result (Keeps (L.seen link.old).incoming (L.seen link.new).incoming) }
    ensures acted_err { OnErr result (ActsOnce (L.seen link.old) (L.seen link.new) (Read None)) }
    ensures told { StaysTold (L.seen link.old).incoming (L.seen link.new).incoming }
    ensures sure { IsSure (L.seen link.old) → IsOk result }
    ensures others { OnlyReads (L.seen link.old) (L.seen link.new) }
    ensures cause { HasCause (L.seen link.old).faults (L.seen link.new).faults result }
{
    let len = bytes.len();
    bytes.advance_mut(PORTION);
    let read = read_at(link, bytes.as_mut_slice(), len);
    bytes.truncate(len + read.unwrap_or(0));
    read
}

// One read into the bytes from `at` on.
fn read_at<L: Link>(link: &mut L, bytes: &mut [u8], at: usize) -> Result<usize, Failed>
    requires { at ≤ length bytes.old }
    ensures front { take at bytes.new ≡ take at bytes.old }
    ensures bound { IfOk result (λ n. at + n ≤ length bytes.old) }
    ensures bytes { ReadConsumes (L.seen link.old).incoming (L.seen link.new).incoming
        result (drop at bytes.new) }
    ensures acted { ActsOnce (L.seen link.old) (L.seen link.new)
        (Read (brought_by result (drop at bytes.new))) }
    ensures told { StaysTold (L.seen link.old).incoming (L.seen link.new).incoming }
    ensures sure { IsSure (L.seen link.old) → IsOk result }
    ensures others { OnlyReads (L.seen link.old) (L.seen link.new) }
    ensures cause { HasCause (L.seen link.old).faults (L.seen link.new).faults result }
{
    link.read(&mut bytes[at..])
}
