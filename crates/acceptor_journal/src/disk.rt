//! A disk with one file, and what a crash may leave of the file.
//!
//! A crash is the end of the process or of the machine at any moment, even inside a call. What was written since the
//! last successful [`sync`](Disk::sync) may be there after the crash, or not, or in part: each range that was written
//! may hold any bytes, and what was written beyond the old end may be missing. All other bytes stay. Right after a
//! sync, a crash leaves what a read gives.
ghost use Rattle.std.specs.Prelude.{◌≡◌, ◌≤◌, [], ◌∷◌, length, IfOk, OnOk, IfSome, IsErrOf, string_bytes};
ghost use Rattle.acceptor_journal.specs.Views.{DiskView, Opened, Wrote};
ghost use Rattle.acceptor_journal.specs.Disks.{Fails, ReadsFrom, opened, synced, written};

/// Why a call of a disk failed.
#[derive(Clone, Copy, Debug, PartialEq, Eq)]
pub enum DiskEnd {
    /// Memory ran out. The disk is unchanged.
    NoMemory,
    /// The call failed, and the disk's count of faults rose.
    Failed,
}

/// A disk with one file. Places and lengths count bytes, from 0. After a failed call, a read may give any file that a
/// crash may leave; a later sync makes durable what is then read. The count of faults stops at its highest value, 2^64
/// - 1; a count at that value counts as raised.
pub trait Disk {
    /// What contracts see of the disk: what a read gives of the file, what was done to it, and how often a call has
    /// failed. What a disk tells before a call it tells after it.
    ghost seen: { Self → DiskView };

    /// Opens the file with this name, and creates it if there is none. This must be the first call.
    fn open_file(&mut self, name: &str) -> Result<(), DiskEnd>
        ensures ok { OnOk result (seen self.new ≡ opened name.now (seen self.old)) }
        ensures failed { IsErrOf result DiskEnd.Failed →
            Fails (Opened name.now ∷ []) (seen self.old) (seen self.new) }
        ensures no_memory { IsErrOf result DiskEnd.NoMemory → seen self.new ≡ seen self.old };

    /// How many bytes the file has.
    fn len(&mut self) -> Result<u64, DiskEnd>
        ensures count { IfOk result (λ n. IfSome (seen self.old).content (λ file. n ≡ length file)) }
        ensures ok { OnOk result (seen self.new ≡ seen self.old) }
        ensures failed { IsErrOf result DiskEnd.Failed → Fails [] (seen self.old) (seen self.new) }
        ensures no_memory { IsErrOf result DiskEnd.NoMemory → seen self.new ≡ seen self.old };

    /// Reads bytes from place `at` on into the front of `buf`. Returns how many; if the buffer has room, 0 means the
    /// end of the file.
    fn read_at(&mut self, at: u64, buf: &mut [u8]) -> Result<usize, DiskEnd>
        ensures bound { IfOk result (λ n. n ≤ length buf.new) }
        ensures bytes { IfOk result (λ n. IfSome (seen self.old).content (λ file.
            ReadsFrom file at buf.new n)) }
        ensures ok { OnOk result (seen self.new ≡ seen self.old) }
        ensures failed { IsErrOf result DiskEnd.Failed → Fails [] (seen self.old) (seen self.new) }
        ensures no_memory { IsErrOf result DiskEnd.NoMemory → seen self.new ≡ seen self.old };

    /// Writes a piece from place `at` on, over what is there and beyond the end. A gap before the piece reads as zeros.
    fn write_at(&mut self, at: u64, piece: &[u8]) -> Result<(), DiskEnd>
        ensures ok { OnOk result (seen self.new ≡ written at piece.now (seen self.old)) }
        ensures failed { IsErrOf result DiskEnd.Failed →
            Fails (Wrote at piece.now ∷ []) (seen self.old) (seen self.new) }
        ensures no_memory { IsErrOf result DiskEnd.NoMemory → seen self.new ≡ seen self.old };

    /// Makes all that was written durable: until the next write, a crash leaves what a read gives.
    fn sync(&mut self) -> Result<(), DiskEnd>
        ensures ok { OnOk result (seen self.new ≡ synced (seen self.old)) }
        ensures failed { IsErrOf result DiskEnd.Failed → Fails [] (seen self.old) (seen self.new) }
        ensures no_memory { IsErrOf result DiskEnd.NoMemory → seen self.new ≡ seen self.old };
}
