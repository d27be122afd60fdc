//! Frames of version 2, worked out by hand from the format.
use super::frames::{comes_back, waits, wrong};
use std::test::Fail;
use wire_frames::FrameKind;

#[test]
fn lists_come_back(rt: HostRuntime) -> Result<(), Fail> {
    let rows: [&[u8]; 4] = [
        // update 1 of session 1 of node 2, for 1.1 and 1.2: a withdrawal of the first prefix
        &[
            2, 8, 0, 0, 0, 27, 0, 2, 0, 0, 0, 1, 0, 0, 0, 1, 0, 2, 0, 1, 0, 0, 0, 1, 0, 1, 0, 0, 0,
            2, 0, 0, 0,
        ],
        // node 2 is flushed: it should be sent what is held back from it
        &[2, 22, 0, 0, 0, 2, 0, 2],
        // node 2: a row of 1.1 and 1.2, a row of 1.2 with an item, and a session with node 1
        &[
            2, 11, 0, 0, 0, 73, 0, 2, 0, 2, 0, 0, 0, 1, 0, 2, 0, 2, 0, 1, 0, 0, 0, 1, 0, 1, 0, 0,
            0, 2, 0, 0, 0, 0, 0, 1, 0, 1, 0, 0, 0, 2, 0, 0, 0, 1, 0, 1, 0, 0, 0, 1, 0, 0, 0, 1, 0,
            1, 0, 1, 0, 0, 0, 2, 0, 1, 0, 1, 0, 0, 0, 1, 0, 0, 0, 0, 0, 0, 0,
        ],
        // node 1: a row of 1.1; a flush, which lists nothing, with an item for 1.1; and 1.2 held back
        &[
            2, 11, 0, 0, 0, 66, 0, 1, 0, 1, 0, 0, 0, 1, 0, 2, 0, 1, 0, 1, 0, 0, 0, 1, 0, 0, 0, 0,
            0, 0, 255, 254, 0, 1, 0, 2, 0, 0, 0, 1, 0, 0, 0, 1, 0, 1, 0, 1, 0, 0, 0, 1, 0, 0, 0, 1,
            0, 2, 0, 0, 0, 0, 0, 1, 0, 1, 0, 1, 0, 0, 0, 2,
        ],
    ];
    for row in rows {
        assert!(rt; comes_back(rt.alloc(), row)?);
    }
    Ok(())
}

#[test]
fn each_version_has_kinds_of_its_own(rt: HostRuntime) {
    assert!(rt; waits(&[2]));
    assert!(rt; wrong(&[2, 1]) == Some(FrameKind::Kind));
    assert!(rt; wrong(&[2, 9]) == Some(FrameKind::Kind));
    assert!(rt; wrong(&[1, 22]) == Some(FrameKind::Kind));
    assert!(rt; wrong(&[2, 23]) == Some(FrameKind::Kind));
    assert!(rt; wrong(&[2, 22, 0, 1, 0, 1]) == Some(FrameKind::Length));
    assert!(rt; wrong(&[2, 11, 0, 16, 0, 1]) == Some(FrameKind::Length));
}

#[test]
fn a_list_has_one_spelling(rt: HostRuntime) {
    let rows: [(&[u8], FrameKind); 8] = [
        // an update for one trigger, and a report without rows; both have a spelling in version 1
        (
            &[
                2, 8, 0, 0, 0, 21, 0, 2, 0, 0, 0, 1, 0, 0, 0, 1, 0, 1, 0, 1, 0, 0, 0, 1, 0, 0, 0,
            ],
            FrameKind::Value,
        ),
        (
            &[2, 11, 0, 0, 0, 14, 0, 1, 0, 1, 0, 0, 0, 1, 0, 0, 0, 0, 0, 0],
            FrameKind::Value,
        ),
        // triggers that descend, and a trigger that occurs twice
        (
            &[
                2, 8, 0, 0, 0, 27, 0, 2, 0, 0, 0, 1, 0, 0, 0, 1, 0, 2, 0, 1, 0, 0, 0, 2, 0, 1, 0,
                0, 0, 1, 0, 0, 0,
            ],
            FrameKind::Order,
        ),
        (
            &[
                2, 8, 0, 0, 0, 27, 0, 2, 0, 0, 0, 1, 0, 0, 0, 1, 0, 2, 0, 1, 0, 0, 0, 2, 0, 1, 0,
                0, 0, 2, 0, 0, 0,
            ],
            FrameKind::Order,
        ),
        // a row of a prefix that lists no trigger, and a row of nothing that lists one
        (
            &[
                2, 11, 0, 0, 0, 20, 0, 1, 0, 1, 0, 0, 0, 1, 0, 1, 0, 0, 0, 0, 0, 0, 0, 0, 0, 0,
            ],
            FrameKind::Value,
        ),
        (
            &[
                2, 11, 0, 0, 0, 26, 0, 1, 0, 1, 0, 0, 0, 1, 0, 1, 0, 1, 0, 1, 0, 0, 0, 1, 255, 254,
                0, 0, 0, 0, 0, 0,
            ],
            FrameKind::Value,
        ),
        // an item that lists no trigger
        (
            &[
                2, 11, 0, 0, 0, 38, 0, 1, 0, 1, 0, 0, 0, 1, 0, 1, 0, 1, 0, 1, 0, 0, 0, 1, 0, 0, 0,
                1, 0, 2, 0, 0, 0, 1, 0, 0, 0, 1, 0, 0, 0, 0, 0, 0,
            ],
            FrameKind::Value,
        ),
        // pending rows of the second prefix, then of the first
        (
            &[
                2, 11, 0, 0, 0, 46, 0, 1, 0, 1, 0, 0, 0, 1, 0, 0, 0, 0, 0, 2, 0, 2, 0, 1, 0, 0, 0,
                1, 0, 1, 0, 1, 0, 0, 0, 1, 0, 2, 0, 0, 0, 0, 0, 1, 0, 1, 0, 1, 0, 0, 0, 2,
            ],
            FrameKind::Order,
        ),
    ];
    for (bytes, kind) in rows {
        assert!(rt; wrong(bytes) == Some(kind));
    }
}
