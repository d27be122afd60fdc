//! The file of a journal, and the calls that read it back and append to it.
//!
//! The file is a list of records, followed by a closed gate. A record is a gate byte, which is 1, then its length in
//! four bytes, the highest first, and then its bytes. A gate with any other byte is closed, and the records end there.
//! They also end where the length, the bytes and one further byte are not all there. A record is written after a
//! closed gate, with the next closed gate after it, and made durable before its own gate is opened, just as a log makes
//! a record durable before it counts (Gray and Reuter, 1993). So a crash leaves the record whole or not at all.
ghost use Rattle.std.specs.Prelude.{◌≡◌, ◌+◌, ◌<◌, ◌≤◌, ◌^◌, ◌↔◌, ◌++◌, [], ◌∷◌, true, get_or, length, take, drop, IfOk, IfSome, IsTrue};
ghost use Rattle.acceptor_journal.specs.Disks.{ReadsFrom};
ghost use Rattle.acceptor_journal.specs.Journals.{Appends, Finishes, Opens, Reads};
ghost use Rattle.acceptor_journal.specs.Parts.{IsRecordOrEnd, Fills, HasRecord, Looks, LooksUp, Rewrites, found_bytes, given_by};
ghost use Rattle.acceptor_journal.specs.Records.{body};

use crate::disk::{Disk, DiskEnd};
use std::alloc::{AllocError, Global};
use std::marker::Model;

/// The most bytes of a journal's file: 256 MiB.
pub const MOST_JOURNAL_BYTES: u64 = 268_435_456;

/// Why a call of a journal failed. After `NoMemory` or `Fault` the file must be opened again; only [`Reader::next`] may
/// be called again instead.
#[derive(Clone, Copy, Debug, PartialEq, Eq)]
pub enum JournalEnd {
    /// Memory ran out.
    NoMemory,
    /// A call of the disk failed, and its count of faults rose.
    Fault,
    /// The closed gate after the record would end above [`MOST_JOURNAL_BYTES`]. Nothing was done.
    Full,
}

/// The place that a reader has reached in a file, and whether the records end there. It holds no record.
#[derive(Drop)]
pub struct Reader {
    alloc: Global,
    place: u64,
    ended: bool,
}

impl Model for Reader {
    ghost use Rattle.acceptor_journal.specs.Places.{Place};

    ghost Value = { Place };

    ghost view = { λ r. record { at = r.place; ended = r.ended } };
}

/// The place of the closed gate after the records of a file. It holds no record.
#[derive(Drop)]
pub struct Journal {
    alloc: Global,
    gate: u64,
}

impl Model for Journal {
    ghost use Rattle.std.specs.Prelude.{ℕ};

    ghost Value = { ℕ };

    ghost view = { λ j. j.gate };
}

impl From<DiskEnd> for JournalEnd {
    ghost use Rattle.acceptor_journal.specs.Ends.{end_of};

    ghost from_gives = { λ why end. end ≡ end_of why };

    fn from(why: DiskEnd) -> Self {
        match why {
            DiskEnd::NoMemory => JournalEnd::NoMemory,
            DiskEnd::Failed => JournalEnd::Fault,
        }
    }
}

/// Opens the file with this name, creates it if there is none, and makes its present content durable. So what is read
/// back from now on is what a crash leaves.
pub fn open_journal<D: Disk>(alloc: Global, disk: &mut D, name: &str) -> Result<Reader, JournalEnd>
    ensures { Opens name.now (D.seen disk.old) result (D.seen disk.new) }
{
    disk.open_file(name)?;
    // What is read from here on is what a crash leaves.
    disk.sync()?;
    Ok(Reader {
        alloc,
        place: 0,
        ended: false,
    })
}

impl Reader {
    /// The next record, or `None` after the last one. The bytes of a record are as they were appended; there may be
    /// none. After a failure the place is unchanged.
    pub fn next<D: Disk>(&mut self, disk: &mut D) -> Result<Option<Vec<u8>>, JournalEnd>
        ensures { Reads self.old (D.seen disk.old) (given_by result) self.new (D.seen disk.new) }
    {
        let found = find(self.alloc, disk, self.place)?;
        match &found {
            Some(bytes) => {
                self.place += 5 + bytes.len() as u64;
                self.ended = false;
            }
            None => self.ended = true,
        }
        Ok(found)
    }

    /// Closes the gate after the records, and makes that durable. Condition: [`next`](Reader::next) has returned
    /// `None`. The bytes after the gate stay as they are.
    pub fn finish<D: Disk>(self, disk: &mut D) -> Result<Journal, JournalEnd>
        requires { self.ended ≡ true }
        ensures { Finishes self.at (D.seen disk.old) result (D.seen disk.new) }
    {
        let journal = Journal {
            alloc: self.alloc,
            gate: self.place,
        };
        if is_shut(disk, self.place)? {
            disk.sync()?;
            return Ok(journal);
        }
        write_through(disk, self.place, &[0])?;
        Ok(journal)
    }
}

impl Journal {
    /// Appends a record of these bytes. First their length, the bytes and a closed gate are written after the present
    /// gate and made durable. Only then the gate is opened. After `NoMemory` or `Fault` the record may be there or not.
    pub fn append<D: Disk>(self, disk: &mut D, piece: &[u8]) -> Result<Journal, JournalEnd>
        ensures { Appends self piece.now (D.seen disk.old) result (D.seen disk.new) }
    {
        let size = piece.len() as u64;
        if self.gate.saturating_add(6).saturating_add(size) > MOST_JOURNAL_BYTES {
            return Err(JournalEnd::Full);
        }
        let Ok(behind) = body_of(self.alloc, piece) else {
            return Err(JournalEnd::NoMemory);
        };
        write_through(disk, self.gate + 1, &behind)?;
        write_through(disk, self.gate, &[1])?;
        Ok(Journal {
            alloc: self.alloc,
            gate: self.gate + 5 + size,
        })
    }
}

// What follows the gate of a record: the length, the bytes, and a closed gate.
fn body_of(alloc: Global, piece: &[u8]) -> Result<Vec<u8>, AllocError>
    requires { length piece.now < 2 ^ 32 }
    ensures { IfOk result (λ v. v.items ≡ body piece.now ++ 0 ∷ []) }
{
    let mut behind = Vec::with_capacity(alloc, piece.len() + 5)?;
    behind.extend_from_slice(&(piece.len() as u32).to_be_bytes())?;
    behind.extend_from_slice(piece)?;
    behind.push(0)?;
    Ok(behind)
}

// Whether a closed gate stands at this place.
fn is_shut<D: Disk>(disk: &mut D, at: u64) -> Result<bool, DiskEnd>
    ensures gate { IfOk result (λ shut. IfSome (D.seen disk.old).content (λ file.
        IsTrue shut ↔ (get_or file at 1 ≡ 0))) }
    ensures looks { Looks (D.seen disk.old) result (D.seen disk.new) }
{
    let mut gate = [1u8];
    let count = disk.read_at(at, &mut gate)?;
    Ok(count == 1 && gate[0] == 0)
}

// Fills the buffer from this place on, as far as the file reaches.
fn fill<D: Disk>(disk: &mut D, at: u64, buf: &mut [u8]) -> Result<usize, DiskEnd>
    requires { at + length buf.old < 2 ^ 64 }
    ensures bound { IfOk result (λ n. n ≤ length buf.new) }
    ensures size { length buf.new ≡ length buf.old }
    ensures bytes { IfOk result (λ n. IfSome (D.seen disk.old).content (λ file. Fills file at buf.new n)) }
    ensures looks { Looks (D.seen disk.old) result (D.seen disk.new) }
{
    let mut done = 0;
    while done < buf.len() {
        let count = read_behind(disk, at, buf, done)?;
        if count == 0 {
            return Ok(done);
        }
        done += count;
    }
    Ok(done)
}

// One read into the buffer, after what it already has.
fn read_behind<D: Disk>(
    disk: &mut D,
    at: u64,
    buf: &mut [u8],
    done: usize,
) -> Result<usize, DiskEnd>
    requires place { at + length buf.old < 2 ^ 64 }
    requires within { done ≤ length buf.old }
    ensures front { take done buf.new ≡ take done buf.old }
    ensures size { length buf.new ≡ length buf.old }
    ensures bound { IfOk result (λ n. done + n ≤ length buf.old) }
    ensures bytes { IfOk result (λ n. IfSome (D.seen disk.old).content (λ file.
        ReadsFrom file (at + done) (drop done buf.new) n)) }
    ensures looks { Looks (D.seen disk.old) result (D.seen disk.new) }
{
    disk.read_at(at + done as u64, &mut buf[done..])
}

// Writes a piece, and makes it durable.
fn write_through<D: Disk>(disk: &mut D, at: u64, piece: &[u8]) -> Result<(), DiskEnd>
    ensures { Rewrites at piece.now (D.seen disk.old) result (D.seen disk.new) }
{
    disk.write_at(at, piece)?;
    // Before this a crash may leave any bytes there.
    disk.sync()?;
    Ok(())
}

// The length of the record at this place; `None` if there is no record.
fn length_at<D: Disk>(disk: &mut D, at: u64) -> Result<Option<u32>, DiskEnd>
    ensures record { IfOk result (λ found. IfSome (D.seen disk.old).content (λ file.
        IsRecordOrEnd file at found)) }
    ensures inside { IfOk result (λ found. IfSome found (λ n. at + (5 + n) < 2 ^ 64)) }
    ensures looks { Looks (D.seen disk.old) result (D.seen disk.new) }
{
    let size = disk.len()?;
    let left = size.saturating_sub(at);
    if left <= 5 {
        return Ok(None);
    }
    let mut head = [0u8; 5];
    let count = fill(disk, at, &mut head)?;
    if count < 5 {
        return Ok(None);
    }
    if head[0] != 1 {
        return Ok(None);
    }
    let len = u32::from_be_bytes([head[1], head[2], head[3], head[4]]);
    if left - 5 <= u64::from(len) {
        return Ok(None);
    }
    Ok(Some(len))
}

// The record at this place; `None` if there is none.
fn find<D: Disk>(alloc: Global, disk: &mut D, at: u64) -> Result<Option<Vec<u8>>, JournalEnd>
    ensures record { IfOk result (λ found. IfSome (D.seen disk.old).content (λ file.
        HasRecord file at (found_bytes found))) }
    ensures inside { IfOk result (λ found. IfSome found (λ bytes.
        at + (5 + length bytes.items) < 2 ^ 64)) }
    ensures looks { LooksUp (D.seen disk.old) result (D.seen disk.new) }
{
    let Some(len) = length_at(disk, at)? else {
        return Ok(None);
    };
    let Ok(mut bytes) = vec![in alloc; 0u8; len as usize] else {
        return Err(JournalEnd::NoMemory);
    };
    let count = fill(disk, at + 5, &mut bytes)?;
    if count < bytes.len() {
        return Ok(None);
    }
    Ok(Some(bytes))
}
