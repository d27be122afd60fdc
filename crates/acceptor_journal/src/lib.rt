//! A journal in a file: the records that were appended are still there after a crash.
//!
//! [`open_journal`] opens a file, [`Reader::next`] gives its records one after another, [`Reader::finish`] turns a
//! reader that has reached the end into a [`Journal`], and [`Journal::append`] adds a record. They read and write
//! through a [`Disk`]. [`FileDisk`] is a file of the system, the trusted edge; [`MemDisk`] is a disk in memory, with
//! calls that are listed to fail.
//!
//! `specs/Images.antt` defines what a crash may leave of a file, `specs/Records.antt` the records of a file,
//! `specs/Journals.antt` what each call promises, and `specs/Histories.antt` what holds of any sequence of calls and
//! crashes ([`laws`]).
#![tactic(auto)]

pub mod disk;
pub mod file;
pub mod journal;
pub mod laws;
pub mod memory;

pub use disk::{Disk, DiskEnd};
pub use file::FileDisk;
pub use journal::{Journal, JournalEnd, MOST_JOURNAL_BYTES, Reader, open_journal};
pub use memory::MemDisk;
