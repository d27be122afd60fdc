//! Writes frames as bytes.
ghost use Rattle.std.specs.Prelude.{◌≡◌, true, IfOk, if◌then◌else◌};
ghost use Rattle.wire_frames.specs.declared.tags.Tag.TheVariants as of;
ghost use Rattle.wire_frames.specs.Fields.{is_one};
ghost use Rattle.wire_frames.specs.Listing.{is_plain as plain_report};
ghost use Rattle.wire_frames.specs.Frames.{tag_of, fits, spell};

use crate::Frame;
use crate::kinds::put_body;
use crate::plain::is_plain;
use crate::tags::Tag;
use crate::writing::{put_u8, put_u32};
use incomplete_closure::Report;
use std::alloc::Global;
use topology::{NoMemory, Triggers};

fn update_tag(triggers: &Triggers) -> Tag
    ensures { result ≡ (if is_one triggers.now then of.Update else of.ListedUpdate) }
{
    match triggers.as_slice() {
        [_] => Tag::Update,
        _ => Tag::ListedUpdate,
    }
}

fn report_tag(report: &Report) -> Tag
    ensures { result ≡ (if plain_report report.now then of.Report else of.ListedReport) }
{
    if is_plain(report) {
        Tag::Report
    } else {
        Tag::ListedReport
    }
}

impl Tag {
    /// The kind of a frame, in version 1 if it has a kind there.
    pub fn of(frame: &Frame) -> Tag
        ensures { result ≡ tag_of frame.now }
    {
        match frame {
            Frame::Originate { .. } => Tag::Originate,
            Frame::Withdraw { .. } => Tag::Withdraw,
            Frame::Prefer { .. } => Tag::Prefer,
            Frame::Notice { .. } => Tag::Notice,
            Frame::OpenSession { .. } => Tag::OpenSession,
            Frame::Snap => Tag::Snap,
            Frame::Propose { .. } => Tag::Propose,
            Frame::Update { triggers, .. } => update_tag(triggers),
            Frame::Marker { .. } => Tag::Marker,
            Frame::Hello { .. } => Tag::Hello,
            Frame::Report { report, .. } => report_tag(report),
            Frame::Prepare { .. } => Tag::Prepare,
            Frame::Promise { .. } => Tag::Promise,
            Frame::Accept { .. } => Tag::Accept,
            Frame::Accepted { .. } => Tag::Accepted,
            Frame::Decision { .. } => Tag::Decision,
            Frame::Hop { .. } => Tag::Hop,
            Frame::Forward { .. } => Tag::Forward,
            Frame::Ended { .. } => Tag::Ended,
            Frame::Published { .. } => Tag::Published,
            Frame::Inject { .. } => Tag::Inject,
            Frame::Flush { .. } => Tag::Flush,
        }
    }
}

/// The spelling of a frame, in version 1 if it has one there.
#[tactic(auto, unfolding(crate::specs::Frames::spell))]
pub fn encode(alloc: Global, frame: &Frame) -> Result<Vec<u8>, NoMemory>
    requires { fits frame.now ≡ true }
    ensures { IfOk result (λ bytes. bytes.items ≡ spell frame.now) }
{
    let mut text = Vec::new(alloc);
    put_body(frame, &mut text)?;
    let mut out = Vec::new(alloc);
    let tag = Tag::of(frame);
    put_u8(&mut out, tag.version())?;
    put_u8(&mut out, tag.number())?;
    put_u32(&mut out, text.len() as u32)?;
    out.extend_from_slice(&text)?;
    Ok(out)
}
