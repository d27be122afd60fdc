//! Bytes worked out by hand from the format, one row for each kind and each fault.
use std::alloc::Global;
use std::test::Fail;
use topology::NoMemory;
use wire_frames::{Decoded, FrameKind, decode, encode, has_spelling, to_owned};

// Whether the bytes are one frame, and are written again as they were.
pub(super) fn comes_back(alloc: Global, bytes: &[u8]) -> Result<bool, NoMemory> {
    match decode(bytes) {
        Decoded::Frame(frame, length) => {
            let owned = to_owned(alloc, &frame)?;
            if length != bytes.len() || !has_spelling(&owned) {
                return Ok(false);
            }
            let again = encode(alloc, &owned)?;
            Ok(again.as_slice() == bytes)
        }
        _ => Ok(false),
    }
}

#[test]
fn inputs_come_back(rt: HostRuntime) -> Result<(), Fail> {
    let rows: [&[u8]; 8] = [
        &[1, 1, 0, 0, 0, 2, 0, 0],
        &[1, 2, 0, 0, 0, 2, 0, 255],
        &[1, 3, 0, 0, 0, 6, 1, 2, 0, 15, 66, 64],
        &[1, 4, 0, 0, 0, 2, 0, 7],
        &[1, 5, 0, 0, 0, 6, 0, 7, 0, 0, 0, 2],
        &[1, 6, 0, 0, 0, 0],
        &[1, 7, 0, 0, 0, 4, 0, 0, 0, 32],
        &[1, 21, 0, 0, 0, 6, 0, 0, 0, 1, 0, 2],
    ];
    for row in rows {
        assert!(rt; comes_back(rt.alloc(), row)?);
    }
    Ok(())
}

#[test]
fn sessions_and_ballots_come_back(rt: HostRuntime) -> Result<(), Fail> {
    let rows: [&[u8]; 7] = [
        // update 2 of session 1 of node 1: trigger 3.4, the prefix at place 5, the path 1 3
        &[
            1, 8, 0, 0, 0, 23, 0, 1, 0, 0, 0, 1, 0, 0, 0, 2, 0, 3, 0, 0, 0, 4, 0, 5, 2, 0, 1, 0, 3,
        ],
        // the same as a withdrawal
        &[
            1, 8, 0, 0, 0, 19, 0, 1, 0, 0, 0, 1, 0, 0, 0, 2, 0, 3, 0, 0, 0, 4, 0, 5, 0,
        ],
        &[1, 9, 0, 0, 0, 10, 0, 2, 0, 0, 0, 3, 0, 0, 0, 1],
        // a hello before any epoch
        &[1, 10, 0, 0, 0, 10, 0, 2, 0, 0, 0, 3, 0, 0, 0, 0],
        &[1, 12, 0, 0, 0, 12, 0, 3, 0, 0, 0, 1, 0, 0, 0, 1, 0, 3],
        // a promise that names nothing
        &[1, 13, 0, 0, 0, 13, 0, 3, 0, 0, 0, 1, 0, 0, 0, 1, 0, 3, 0],
        &[1, 15, 0, 0, 0, 12, 0, 3, 0, 0, 0, 1, 0, 0, 0, 1, 0, 3],
    ];
    for row in rows {
        assert!(rt; comes_back(rt.alloc(), row)?);
    }
    Ok(())
}

#[test]
fn reports_values_and_packets_come_back(rt: HostRuntime) -> Result<(), Fail> {
    let rows: [&[u8]; 8] = [
        // a row for trigger 1.1 with one item, and a session whose Down has trigger 2.3
        &[
            1, 11, 0, 0, 0, 49, 0, 1, 0, 1, 0, 0, 0, 1, 0, 1, 0, 1, 0, 0, 0, 1, 0, 0, 0, 1, 0, 2,
            0, 0, 0, 1, 0, 0, 0, 1, 0, 1, 0, 2, 0, 0, 0, 1, 0, 0, 0, 5, 1, 0, 2, 0, 0, 0, 3,
        ],
        // a promise that names ballot 1/2 and the value of node 1 with trigger 1.1
        &[
            1, 13, 0, 0, 0, 30, 0, 3, 0, 0, 0, 1, 0, 0, 0, 1, 0, 3, 1, 0, 0, 0, 1, 0, 2, 1, 0, 1,
            0, 1, 0, 1, 0, 0, 0, 1,
        ],
        &[
            1, 14, 0, 0, 0, 23, 0, 3, 0, 0, 0, 1, 0, 0, 0, 1, 0, 3, 1, 0, 1, 0, 1, 0, 1, 0, 0, 0, 1,
        ],
        &[
            1, 16, 0, 0, 0, 17, 0, 3, 0, 0, 0, 1, 1, 0, 1, 0, 1, 0, 1, 0, 0, 0, 1,
        ],
        // packet 1 on the tables of epoch 1, with the links to 2 and 3 up
        &[
            1, 17, 0, 0, 0, 29, 0, 0, 0, 1, 0, 0, 0, 0, 0, 1, 0, 0, 128, 0, 0, 0, 0, 0, 0, 0, 0, 3,
            0, 0, 2, 0, 2, 0, 3,
        ],
        // packet 1 off the tables, back along node 1
        &[
            1, 18, 0, 0, 0, 28, 0, 2, 0, 0, 0, 1, 0, 0, 0, 0, 0, 1, 1, 0, 128, 1, 0, 0, 0, 0, 0, 0,
            0, 3, 1, 0, 1, 0,
        ],
        &[1, 19, 0, 0, 0, 5, 0, 0, 0, 0, 3],
        // the table of epoch 1: no path, and the path 1
        &[1, 20, 0, 0, 0, 10, 0, 0, 0, 1, 0, 2, 0, 1, 0, 1],
    ];
    for row in rows {
        assert!(rt; comes_back(rt.alloc(), row)?);
    }
    Ok(())
}

pub(super) fn wrong(input: &[u8]) -> Option<FrameKind> {
    match decode(input) {
        Decoded::Bad(kind) => Some(kind),
        _ => None,
    }
}

pub(super) fn waits(input: &[u8]) -> bool {
    matches!(decode(input), Decoded::More)
}

#[test]
fn a_head_tells_first(rt: HostRuntime) {
    let short: [&[u8]; 5] = [
        &[],
        &[1],
        &[1, 6, 0, 0, 0],
        &[1, 1, 0, 0, 0, 2, 0],
        &[1, 11, 0, 16, 0, 0],
    ];
    for input in short {
        assert!(rt; waits(input));
    }
    assert!(rt; wrong(&[3]) == Some(FrameKind::Version));
    // the kind is wrong already, although the length is still to come
    assert!(rt; wrong(&[1, 0]) == Some(FrameKind::Kind));
    assert!(rt; wrong(&[1, 22]) == Some(FrameKind::Kind));
    assert!(rt; wrong(&[1, 6, 0, 1, 0, 1]) == Some(FrameKind::Length));
    assert!(rt; wrong(&[1, 11, 0, 16, 0, 1]) == Some(FrameKind::Length));
}

#[test]
fn the_first_fault_of_a_body_is_named(rt: HostRuntime) {
    // bytes left over, a field past the end, a value out of range
    assert!(rt; wrong(&[1, 6, 0, 0, 0, 1, 9]) == Some(FrameKind::Length));
    assert!(rt; wrong(&[1, 1, 0, 0, 0, 1, 0]) == Some(FrameKind::Length));
    assert!(rt; wrong(&[1, 1, 0, 0, 0, 2, 1, 0]) == Some(FrameKind::Value));
    // the path 1 2 1
    let update: [u8; 31] = [
        1, 8, 0, 0, 0, 25, 0, 1, 0, 0, 0, 1, 0, 0, 0, 2, 0, 3, 0, 0, 0, 4, 0, 5, 3, 0, 1, 0, 2, 0,
        1,
    ];
    assert!(rt; wrong(&update) == Some(FrameKind::Order));
    // trigger 2.1 before 1.1, and before 1.0, whose counter is out of range
    let mut decision: [u8; 27] = [
        1, 16, 0, 0, 0, 21, 0, 3, 0, 0, 0, 1, 0, 0, 2, 0, 2, 0, 0, 0, 1, 0, 1, 0, 0, 0, 1,
    ];
    assert!(rt; wrong(&decision) == Some(FrameKind::Order));
    decision[26] = 0;
    assert!(rt; wrong(&decision) == Some(FrameKind::Value));
}

#[test]
fn a_session_out_of_order_is_judged_at_its_number(rt: HostRuntime) {
    // sessions 2.1 and 1.1, the second with flag 2
    let report: [u8; 40] = [
        1, 11, 0, 0, 0, 34, 0, 1, 0, 1, 0, 0, 0, 1, 0, 0, 0, 2, 0, 2, 0, 0, 0, 1, 0, 0, 0, 0, 0, 0,
        1, 0, 0, 0, 1, 0, 0, 0, 0, 2,
    ];
    assert!(rt; wrong(&report) == Some(FrameKind::Order));
}
