//! Which frames have a spelling.
ghost use Rattle.std.specs.Prelude.{◌≡◌, ◌+◌, true, nat_le, length};
ghost use Rattle.wire_frames.specs.Listing.{spelled_report};
ghost use Rattle.wire_frames.specs.Frames.{body, fields_fit, fits, limit_of, tag_of};

use crate::Frame;
use crate::kinds::all_fit;
use crate::listed_runs::{ListedRows, PendingRun};
use crate::plain::is_plain;
use crate::series::{ReportRows, ReportSessions, length_many};
use incomplete_closure::Report;

// Whether the report is no longer than its kind allows, after the two bytes of the peer.
fn report_is_short(report: &Report) -> bool
    ensures { result ≡ nat_le (2 + length (spelled_report report.now)) 1048576 }
{
    let sessions = length_many::<ReportSessions>(report.sessions.as_slice());
    if is_plain(report) {
        let rows = length_many::<ReportRows>(report.rows.as_slice());
        return rows.saturating_add(sessions) <= 1_048_564;
    }
    let rows = length_many::<ListedRows>(report.rows.as_slice());
    let pending = length_many::<PendingRun>(report.pending.as_slice());
    rows.saturating_add(sessions).saturating_add(pending) <= 1_048_562
}

// Whether the body is no longer than its kind allows. Only the body of a report can be longer.
fn is_short(frame: &Frame) -> bool
    ensures { fields_fit frame.now ≡ true → result
        ≡ nat_le (length (body frame.now)) (limit_of (tag_of frame.now)) }
{
    match frame {
        Frame::Report { report, .. } => report_is_short(report),
        _ => true,
    }
}

/// Whether the frame has a spelling: each field is in its range, each list is in order, and the body is no longer than
/// its kind allows. Takes no memory.
#[tactic(auto, unfolding(crate::specs::Frames::fits))]
pub fn has_spelling(frame: &Frame) -> bool
    ensures { result ≡ fits frame.now }
{
    all_fit(frame) && is_short(frame)
}
