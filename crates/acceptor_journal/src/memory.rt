//! A disk in memory, with calls that are listed to fail. It is for tests: it keeps what each write replaced.
ghost use Rattle.std.specs.Prelude.{◌≡◌, ◌≤◌, ◌↔◌, ◌∷◌, [], Some, length, IfErr, IfOk, IsErrOf, IsTrue, IsErr, OnErr, OnOk};
ghost use Rattle.route_io.specs.Calls.{IsFresh, NextIsListed};
ghost use Rattle.route_io.specs.Causes.{Rose, counted};
ghost use Rattle.acceptor_journal.specs.Disks.{Fails, ReadsFrom, opened, overlaid, synced, written};
ghost use Rattle.acceptor_journal.specs.Images.{IsDurable};
ghost use Rattle.acceptor_journal.specs.Memory.{FailsAsListed, told_by};
ghost use Rattle.acceptor_journal.specs.Views.{Opened, Settled, Wrote};

use crate::disk::{Disk, DiskEnd};
use route_io::Calls;
use std::alloc::{AllocError, Global};
use std::mem;

/// A call that was made on a disk in memory, with what must be known of it.
#[derive(Drop)]
pub enum Made {
    /// The file was opened with this name, or the opening failed.
    Opened(Vec<u8>),
    /// A piece was written from this place on; the last field is the file before.
    Wrote(u64, Vec<u8>, Vec<u8>),
    /// A write of a piece from this place on failed; the file is unchanged.
    Tried(u64, Vec<u8>),
    /// All that was written was made durable.
    Synced,
}

/// A file in memory. It records its calls, and tells from them what a crash may leave; for each write it keeps the file
/// as it was before. A failed call leaves the file unchanged, though a crash may then leave a part of what should have
/// been written. Opening, writing and syncing need memory for the record. So a listed call that opens or writes may end
/// with [`DiskEnd::NoMemory`]. Reading and the length need none.
#[derive(Drop)]
pub struct MemDisk {
    alloc: Global,
    file: Vec<u8>,
    made: Vec<Made>,
    calls: Calls,
}

impl MemDisk {
    /// A disk with this content, which a crash leaves. The calls with the numbers in `failing`, counted from 1 over all
    /// kinds, fail.
    pub fn new(alloc: Global, content: Vec<u8>, failing: Vec<u64>) -> MemDisk
        ensures seen { ⟦<MemDisk as Disk>⟧.seen result ≡ record {
          content = Some content.items;
          acts = Some (Settled content.items ∷ []);
          faults = 0;
        } }
        ensures durable { IsDurable (⟦<MemDisk as Disk>⟧.seen result) content.items }
        ensures calls { IsFresh result.calls failing.items }
    {
        MemDisk {
            alloc,
            file: content,
            made: Vec::new(alloc),
            calls: Calls::new(failing),
        }
    }

    /// The bytes of the file, as a read gives them.
    pub fn content(&self) -> &[u8]
        ensures { (⟦<MemDisk as Disk>⟧.seen self.now).content ≡ Some result.now }
    {
        &self.file
    }
}

impl Disk for MemDisk {
    ghost seen = { λ d. told_by d.file.items d.made.items d.calls.faults };

    fn open_file(&mut self, name: &str) -> Result<(), DiskEnd>
        ensures ok { OnOk result (⟦<MemDisk as Disk>⟧.seen self.new
            ≡ opened name.now (⟦<MemDisk as Disk>⟧.seen self.old)) }
        ensures failed { IsErrOf result DiskEnd.Failed → Fails (Opened name.now ∷ [])
            (⟦<MemDisk as Disk>⟧.seen self.old) (⟦<MemDisk as Disk>⟧.seen self.new) }
        ensures no_memory { IsErrOf result DiskEnd.NoMemory →
            ⟦<MemDisk as Disk>⟧.seen self.new ≡ ⟦<MemDisk as Disk>⟧.seen self.old }
        ensures kept { OnErr result ((⟦<MemDisk as Disk>⟧.seen self.new).content
            ≡ (⟦<MemDisk as Disk>⟧.seen self.old).content) }
        ensures listed { FailsAsListed self.old.calls self.new.calls result }
    {
        let listed = self.calls.begin();
        let Ok(name) = Vec::from_slice(self.alloc, name.as_bytes()) else {
            return Err(DiskEnd::NoMemory);
        };
        if self.made.reserve(1).is_err() {
            return Err(DiskEnd::NoMemory);
        }
        self.made.push_reserved(Made::Opened(name));
        answer(&mut self.calls, listed)
    }

    fn len(&mut self) -> Result<u64, DiskEnd>
        ensures count { IfOk result (λ n. n ≡ length self.old.file.items) }
        ensures ok { OnOk result (⟦<MemDisk as Disk>⟧.seen self.new
            ≡ ⟦<MemDisk as Disk>⟧.seen self.old) }
        ensures failed { IsErrOf result DiskEnd.Failed → Fails []
            (⟦<MemDisk as Disk>⟧.seen self.old) (⟦<MemDisk as Disk>⟧.seen self.new) }
        ensures no_memory { IsErrOf result DiskEnd.NoMemory →
            ⟦<MemDisk as Disk>⟧.seen self.new ≡ ⟦<MemDisk as Disk>⟧.seen self.old }
        ensures kept { OnErr result ((⟦<MemDisk as Disk>⟧.seen self.new).content
            ≡ (⟦<MemDisk as Disk>⟧.seen self.old).content) }
        ensures takes_no_memory { ¬ IsErrOf result DiskEnd.NoMemory }
        ensures listed { FailsAsListed self.old.calls self.new.calls result }
    {
        let listed = self.calls.begin();
        answer(&mut self.calls, listed)?;
        Ok(self.file.len() as u64)
    }

    fn read_at(&mut self, at: u64, buf: &mut [u8]) -> Result<usize, DiskEnd>
        ensures bound { IfOk result (λ n. n ≤ length buf.new) }
        ensures bytes { IfOk result (λ n. ReadsFrom self.old.file.items at buf.new n) }
        ensures ok { OnOk result (⟦<MemDisk as Disk>⟧.seen self.new
            ≡ ⟦<MemDisk as Disk>⟧.seen self.old) }
        ensures failed { IsErrOf result DiskEnd.Failed → Fails []
            (⟦<MemDisk as Disk>⟧.seen self.old) (⟦<MemDisk as Disk>⟧.seen self.new) }
        ensures no_memory { IsErrOf result DiskEnd.NoMemory →
            ⟦<MemDisk as Disk>⟧.seen self.new ≡ ⟦<MemDisk as Disk>⟧.seen self.old }
        ensures kept { OnErr result ((⟦<MemDisk as Disk>⟧.seen self.new).content
            ≡ (⟦<MemDisk as Disk>⟧.seen self.old).content) }
        ensures takes_no_memory { ¬ IsErrOf result DiskEnd.NoMemory }
        ensures listed { FailsAsListed self.old.calls self.new.calls result }
    {
        let listed = self.calls.begin();
        answer(&mut self.calls, listed)?;
        let start = self.file.len().min(at as usize);
        let count = buf.len().min(self.file.len() - start);
        buf[..count].copy_from_slice(&self.file[start..start + count]);
        Ok(count)
    }

    fn write_at(&mut self, at: u64, piece: &[u8]) -> Result<(), DiskEnd>
        ensures ok { OnOk result (⟦<MemDisk as Disk>⟧.seen self.new
            ≡ written at piece.now (⟦<MemDisk as Disk>⟧.seen self.old)) }
        ensures failed { IsErrOf result DiskEnd.Failed → Fails (Wrote at piece.now ∷ [])
            (⟦<MemDisk as Disk>⟧.seen self.old) (⟦<MemDisk as Disk>⟧.seen self.new) }
        ensures no_memory { IsErrOf result DiskEnd.NoMemory →
            ⟦<MemDisk as Disk>⟧.seen self.new ≡ ⟦<MemDisk as Disk>⟧.seen self.old }
        ensures kept { OnErr result ((⟦<MemDisk as Disk>⟧.seen self.new).content
            ≡ (⟦<MemDisk as Disk>⟧.seen self.old).content) }
        ensures listed { FailsAsListed self.old.calls self.new.calls result }
    {
        let listed = self.calls.begin();
        let Ok(copy) = Vec::from_slice(self.alloc, piece) else {
            return Err(DiskEnd::NoMemory);
        };
        if self.made.reserve(1).is_err() {
            return Err(DiskEnd::NoMemory);
        }
        if listed {
            self.made.push_reserved(Made::Tried(at, copy));
            self.calls.fail();
            return Err(DiskEnd::Failed);
        }
        let Ok(next) = with_piece(self.alloc, &self.file, at, piece) else {
            return Err(DiskEnd::NoMemory);
        };
        let was = mem::replace(&mut self.file, next);
        self.made.push_reserved(Made::Wrote(at, copy, was));
        Ok(())
    }

    fn sync(&mut self) -> Result<(), DiskEnd>
        ensures ok { OnOk result (⟦<MemDisk as Disk>⟧.seen self.new
            ≡ synced (⟦<MemDisk as Disk>⟧.seen self.old)) }
        ensures failed { IsErrOf result DiskEnd.Failed → Fails []
            (⟦<MemDisk as Disk>⟧.seen self.old) (⟦<MemDisk as Disk>⟧.seen self.new) }
        ensures no_memory { IsErrOf result DiskEnd.NoMemory →
            ⟦<MemDisk as Disk>⟧.seen self.new ≡ ⟦<MemDisk as Disk>⟧.seen self.old }
        ensures kept { OnErr result ((⟦<MemDisk as Disk>⟧.seen self.new).content
            ≡ (⟦<MemDisk as Disk>⟧.seen self.old).content) }
        ensures fails { NextIsListed self.old.calls → IsErrOf result DiskEnd.Failed }
        ensures listed { FailsAsListed self.old.calls self.new.calls result }
    {
        let listed = self.calls.begin();
        answer(&mut self.calls, listed)?;
        if self.made.reserve(1).is_err() {
            return Err(DiskEnd::NoMemory);
        }
        self.made.push_reserved(Made::Synced);
        Ok(())
    }
}

// Makes a listed call fail, and counts it.
fn answer(calls: &mut Calls, listed: bool) -> Result<(), DiskEnd>
    ensures fails { IsErr result ↔ IsTrue listed }
    ensures failed { IfErr result (λ why. why ≡ DiskEnd.Failed) }
    ensures counted { calls.new ≡ record calls.old { faults = counted listed calls.old.faults } }
    ensures later { calls.old.faults ≤ calls.new.faults }
    ensures rose { OnErr result (Rose calls.old.faults calls.new.faults) }
{
    if listed {
        calls.fail();
        return Err(DiskEnd::Failed);
    }
    Ok(())
}

// The file with this piece at this place.
fn with_piece(alloc: Global, file: &[u8], at: u64, piece: &[u8]) -> Result<Vec<u8>, AllocError>
    ensures { IfOk result (λ v. v.items ≡ overlaid file.now at piece.now) }
{
    let start = at as usize;
    let kept = start.min(file.len());
    let mut next = Vec::new(alloc);
    next.extend_from_slice(&file[..kept])?;
    next.resize(start, 0)?;
    next.extend_from_slice(piece)?;
    let end = next.len();
    if end < file.len() {
        next.extend_from_slice(&file[end..])?;
    }
    Ok(next)
}
