//! A journal over memory, with calls that fail, and over a file of the system.
use acceptor_journal::{Disk, FileDisk, Journal, JournalEnd, MemDisk, Reader, open_journal};
use std::alloc::Global;
use std::fs;
use std::test::Fail;

// The record: a frame of six bytes.
const FRAME: [u8; 6] = [1, 6, 0, 0, 0, 0];

// The file with just this record.
const ONE: [u8; 12] = [1, 0, 0, 0, 6, 1, 6, 0, 0, 0, 0, 0];

// How many calls of the disk append a record to an empty file.
const CALLS: u64 = 10;

// Reads to the end of a file with at most two records. Returns the journal, and how many records there were.
fn finish_all<D: Disk>(mut reader: Reader, disk: &mut D) -> Result<(Journal, usize), JournalEnd> {
    for count in 0..3 {
        let None = reader.next(disk)? else {
            continue;
        };
        return Ok((reader.finish(disk)?, count));
    }
    Err(JournalEnd::Full)
}

// Opens the file of a journal, appends the record, and returns how many records there were.
fn append_once<D: Disk>(alloc: Global, disk: &mut D, name: &str) -> Result<usize, JournalEnd> {
    let reader = open_journal(alloc, disk, name)?;
    let (journal, count) = finish_all(reader, disk)?;
    journal.append(disk, &FRAME)?;
    Ok(count)
}

#[test]
fn a_record_is_appended_to_an_empty_file(rt: HostRuntime) -> Result<(), Fail> {
    let alloc = rt.alloc();
    let mut disk = MemDisk::new(alloc, Vec::new(alloc), Vec::new(alloc));
    assert!(rt; append_once(alloc, &mut disk, "journal")? == 0);
    assert!(rt; disk.content() == ONE.as_slice());
    Ok(())
}

#[test]
fn a_gate_that_is_neither_open_nor_closed_is_closed(rt: HostRuntime) -> Result<(), Fail> {
    let alloc = rt.alloc();
    let mut torn = ONE;
    torn[0] = 7;
    let mut disk = MemDisk::new(alloc, torn.to_vec(alloc)?, Vec::new(alloc));
    let reader = open_journal(alloc, &mut disk, "journal")?;
    let (_, count) = finish_all(reader, &mut disk)?;
    assert!(rt; count == 0);
    torn[0] = 0;
    assert!(rt; disk.content() == torn.as_slice());
    Ok(())
}

#[test]
fn a_record_is_read_back(rt: HostRuntime) -> Result<(), Fail> {
    let alloc = rt.alloc();
    let mut disk = MemDisk::new(alloc, ONE.to_vec(alloc)?, Vec::new(alloc));
    let mut reader = open_journal(alloc, &mut disk, "journal")?;
    let record = reader.next(&mut disk)?;
    assert!(rt; matches!(&record, Some(bytes) if bytes.as_slice() == FRAME.as_slice()));
    assert!(rt; reader.next(&mut disk)?.is_none());
    Ok(())
}

// Whether an append ends with a fault if this call of the disk fails, and how many records two further appends find.
fn after_fault(alloc: Global, call: u64) -> Result<(bool, usize, usize), Fail> {
    let mut disk = MemDisk::new(alloc, Vec::new(alloc), vec![in alloc; call]?);
    let faulted = matches!(
        append_once(alloc, &mut disk, "journal"),
        Err(JournalEnd::Fault)
    );
    let first = append_once(alloc, &mut disk, "journal")?;
    let second = append_once(alloc, &mut disk, "journal")?;
    Ok((faulted, first, second))
}

// How many records an append finds if only a later call fails.
fn found_before(alloc: Global, call: u64) -> Result<usize, Fail> {
    let mut disk = MemDisk::new(alloc, Vec::new(alloc), vec![in alloc; call]?);
    Ok(append_once(alloc, &mut disk, "journal")?)
}

#[test]
fn each_call_of_the_disk_may_fail(rt: HostRuntime) -> Result<(), Fail> {
    for call in 1..=CALLS {
        // Only the last sync comes after the write of the gate.
        let there = usize::from(call == CALLS);
        let (faulted, first, second) = after_fault(rt.alloc(), call)?;
        assert!(rt; faulted, "call {call}");
        assert!(rt; first == there, "call {call}");
        assert!(rt; second == there + 1, "call {call}");
    }
    assert!(rt; found_before(rt.alloc(), CALLS + 1)? == 0);
    Ok(())
}

#[test]
fn a_file_of_the_system_is_a_disk(rt: HostRuntime) -> Result<(), Fail> {
    let alloc = rt.alloc();
    let name = "text_calls_journal";
    let _ = fs::remove_file(&rt, name);
    let mut disk = FileDisk::new(&rt);
    assert!(rt; disk.sync().is_err(), "before a file is opened");
    assert_eq!(rt; append_once(alloc, &mut disk, name)?, 0);
    let bytes = fs::read(&rt, name)?;
    assert_eq!(rt; bytes.as_slice(), ONE.as_slice());
    let mut disk = FileDisk::new(&rt);
    assert_eq!(rt; append_once(alloc, &mut disk, name)?, 1);
    fs::remove_file(&rt, name)?;
    Ok(())
}
