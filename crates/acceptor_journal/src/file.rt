//! The trusted edge: a disk that is a file of the system.
//!
//! No contract says what the system reads and keeps. So the disk tells neither content nor acts.
ghost use Rattle.std.specs.Prelude.{◌≡◌, ◌≤◌, [], ◌∷◌, length, None, is_err, IfOk, IfSome, IsErrOf, OnOk};
ghost use Rattle.route_io.specs.Causes.{counted};
ghost use Rattle.acceptor_journal.specs.Views.{Opened, Wrote};
ghost use Rattle.acceptor_journal.specs.Disks.{CountsFault, Fails, ReadsFrom, opened, synced, written};

use crate::disk::{Disk, DiskEnd};
use std::fs::{File, OpenOptions};
use std::io;
use std::os::unix::fs::FileExt;
use std::path::Path;
use std::rt::Files;

/// A file of the system. Each error of the system is counted as a fault, and so is a call before a file was opened.
/// Only one process may use the file. The name is a path of the system, whose folder must exist.
#[derive(Drop)]
pub struct FileDisk<'a, R: Files<File = File>> {
    files: &'a R,
    file: Option<File>,
    faults: u64,
}

impl<'a, R: Files<File = File>> FileDisk<'a, R> {
    /// A disk without an open file.
    pub fn new(files: &'a R) -> FileDisk<'a, R>
        ensures { result.faults ≡ 0 }
    {
        FileDisk {
            files,
            file: None,
            faults: 0,
        }
    }

    fn fail<T>(&mut self) -> Result<T, DiskEnd>
        ensures { CountsFault self.old.faults self.new.faults result }
    {
        self.faults = self.faults.saturating_add(1);
        Err(DiskEnd::Failed)
    }
}

impl<'a, R: Files<File = File>> Disk for FileDisk<'a, R> {
    ghost seen = { λ d. record { content = None; acts = None; faults = d.faults } };

    fn open_file(&mut self, name: &str) -> Result<(), DiskEnd>
        ensures ok { OnOk result (⟦<FileDisk<'a, R> as Disk>⟧.seen self.new
            ≡ opened name.now (⟦<FileDisk<'a, R> as Disk>⟧.seen self.old)) }
        ensures failed { IsErrOf result DiskEnd.Failed → Fails (Opened name.now ∷ [])
            (⟦<FileDisk<'a, R> as Disk>⟧.seen self.old) (⟦<FileDisk<'a, R> as Disk>⟧.seen self.new) }
        ensures no_memory { IsErrOf result DiskEnd.NoMemory →
            ⟦<FileDisk<'a, R> as Disk>⟧.seen self.new ≡ ⟦<FileDisk<'a, R> as Disk>⟧.seen self.old }
        ensures counted { self.new.faults ≡ counted (is_err result) self.old.faults }
    {
        let Ok(file) = open(self.files, name) else {
            return self.fail();
        };
        self.file = Some(file);
        Ok(())
    }

    fn len(&mut self) -> Result<u64, DiskEnd>
        ensures count { IfOk result (λ n.
            IfSome (⟦<FileDisk<'a, R> as Disk>⟧.seen self.old).content (λ file. n ≡ length file)) }
        ensures ok { OnOk result (⟦<FileDisk<'a, R> as Disk>⟧.seen self.new
            ≡ ⟦<FileDisk<'a, R> as Disk>⟧.seen self.old) }
        ensures failed { IsErrOf result DiskEnd.Failed → Fails []
            (⟦<FileDisk<'a, R> as Disk>⟧.seen self.old) (⟦<FileDisk<'a, R> as Disk>⟧.seen self.new) }
        ensures no_memory { IsErrOf result DiskEnd.NoMemory →
            ⟦<FileDisk<'a, R> as Disk>⟧.seen self.new ≡ ⟦<FileDisk<'a, R> as Disk>⟧.seen self.old }
        ensures counted { self.new.faults ≡ counted (is_err result) self.old.faults }
    {
        let Some(file) = &self.file else {
            return self.fail();
        };
        let Ok(found) = file.metadata() else {
            return self.fail();
        };
        Ok(found.len())
    }

    fn read_at(&mut self, at: u64, buf: &mut [u8]) -> Result<usize, DiskEnd>
        ensures bound { IfOk result (λ n. n ≤ length buf.new) }
        ensures bytes { IfOk result (λ n.
            IfSome (⟦<FileDisk<'a, R> as Disk>⟧.seen self.old).content (λ file.
            ReadsFrom file at buf.new n)) }
        ensures ok { OnOk result (⟦<FileDisk<'a, R> as Disk>⟧.seen self.new
            ≡ ⟦<FileDisk<'a, R> as Disk>⟧.seen self.old) }
        ensures failed { IsErrOf result DiskEnd.Failed → Fails []
            (⟦<FileDisk<'a, R> as Disk>⟧.seen self.old) (⟦<FileDisk<'a, R> as Disk>⟧.seen self.new) }
        ensures no_memory { IsErrOf result DiskEnd.NoMemory →
            ⟦<FileDisk<'a, R> as Disk>⟧.seen self.new ≡ ⟦<FileDisk<'a, R> as Disk>⟧.seen self.old }
        ensures counted { self.new.faults ≡ counted (is_err result) self.old.faults }
    {
        let Some(file) = &self.file else {
            return self.fail();
        };
        let Ok(count) = file.read_at(buf, at) else {
            return self.fail();
        };
        Ok(count)
    }

    fn write_at(&mut self, at: u64, piece: &[u8]) -> Result<(), DiskEnd>
        ensures ok { OnOk result (⟦<FileDisk<'a, R> as Disk>⟧.seen self.new
            ≡ written at piece.now (⟦<FileDisk<'a, R> as Disk>⟧.seen self.old)) }
        ensures failed { IsErrOf result DiskEnd.Failed → Fails (Wrote at piece.now ∷ [])
            (⟦<FileDisk<'a, R> as Disk>⟧.seen self.old) (⟦<FileDisk<'a, R> as Disk>⟧.seen self.new) }
        ensures no_memory { IsErrOf result DiskEnd.NoMemory →
            ⟦<FileDisk<'a, R> as Disk>⟧.seen self.new ≡ ⟦<FileDisk<'a, R> as Disk>⟧.seen self.old }
        ensures counted { self.new.faults ≡ counted (is_err result) self.old.faults }
    {
        let Some(file) = &self.file else {
            return self.fail();
        };
        if file.write_all_at(piece, at).is_err() {
            return self.fail();
        }
        Ok(())
    }

    fn sync(&mut self) -> Result<(), DiskEnd>
        ensures ok { OnOk result (⟦<FileDisk<'a, R> as Disk>⟧.seen self.new
            ≡ synced (⟦<FileDisk<'a, R> as Disk>⟧.seen self.old)) }
        ensures failed { IsErrOf result DiskEnd.Failed → Fails []
            (⟦<FileDisk<'a, R> as Disk>⟧.seen self.old) (⟦<FileDisk<'a, R> as Disk>⟧.seen self.new) }
        ensures no_memory { IsErrOf result DiskEnd.NoMemory →
            ⟦<FileDisk<'a, R> as Disk>⟧.seen self.new ≡ ⟦<FileDisk<'a, R> as Disk>⟧.seen self.old }
        ensures counted { self.new.faults ≡ counted (is_err result) self.old.faults }
    {
        let Some(file) = &self.file else {
            return self.fail();
        };
        if file.sync_all().is_err() {
            return self.fail();
        }
        Ok(())
    }
}

// Opens or creates a file, and makes its name durable in its folder.
fn open<R: Files<File = File>>(files: &R, name: &str) -> io::Result<File> {
    let file = OpenOptions::new()
        .read(true)
        .write(true)
        .create(true)
        .open(files, name)?;
    let folder = match Path::new(name).parent() {
        Some(folder) if !folder.as_str().is_empty() => folder.as_str(),
        _ => ".",
    };
    File::open(files, folder)?.sync_all()?;
    Ok(file)
}
