//! The bodies of frames, with one function for each kind of several fields. Nothing here takes memory.
#![tactic(auto, unfolding(crate::specs::Reading::body_at))]

ghost use Rattle.std.specs.Prelude.{◌≡◌, [], Err, MatchResult};
ghost use Rattle.wire_frames.specs.Reading.{all_read, body_at};
ghost use Rattle.wire_frames.specs.Bodies.{Begins};
ghost use Rattle.wire_frames.specs.Shown.{Shows};
ghost use Rattle.wire_frames.specs.declared.frames.Frame.{Frame as AnyFrame};
ghost use Rattle.wire_frames.specs.declared.tags.Tag.TheVariants as of;

use crate::parts::{Links, OneTrigger, SeveralTriggers};
use crate::paths::Paths;
use crate::reading::Fields;
use crate::reports::{ListedReport, PlainReport};
use crate::tags::Tag;
use crate::{FrameKind, FrameRef};
use epoch_packet::Packet;
use incomplete_closure::Value;
use topology::Path;

impl<'a> Fields<'a> {
    /// Checks that no bytes are left over.
    pub(crate) fn finish(&self) -> Result<(), FrameKind>
        ensures { MatchResult result (λ _. self.now ≡ []) (λ wrong. (f : AnyFrame)
            → all_read f self.now ≡ Err wrong) }
    {
        match self.rest() {
            [] => Ok(()),
            [_, ..] => Err(FrameKind::Length),
        }
    }
}

fn prefer<'a>(fields: &mut Fields<'a>) -> Result<FrameRef<'a>, FrameKind>
    ensures { Begins of.Prefer fields.old result fields.new }
{
    Ok(FrameRef::Prefer {
        nbr: fields.node()?,
        value: fields.preference()?,
    })
}

fn open_session<'a>(fields: &mut Fields<'a>) -> Result<FrameRef<'a>, FrameKind>
    ensures { Begins of.OpenSession fields.old result fields.new }
{
    Ok(FrameRef::OpenSession {
        nbr: fields.node()?,
        session: fields.session()?,
    })
}

fn update<'a>(fields: &mut Fields<'a>) -> Result<FrameRef<'a>, FrameKind>
    ensures { Begins of.Update fields.old result fields.new }
{
    Ok(FrameRef::Update {
        version: 1,
        peer: fields.node()?,
        session: fields.session()?,
        seq: fields.positive()?,
        triggers: fields.part::<OneTrigger>()?,
        prefix: fields.prefix()?,
        path: fields.part::<Option<Path>>()?,
    })
}

fn listed_update<'a>(fields: &mut Fields<'a>) -> Result<FrameRef<'a>, FrameKind>
    ensures { Begins of.ListedUpdate fields.old result fields.new }
{
    Ok(FrameRef::Update {
        version: 2,
        peer: fields.node()?,
        session: fields.session()?,
        seq: fields.positive()?,
        triggers: fields.part::<SeveralTriggers>()?,
        prefix: fields.prefix()?,
        path: fields.part::<Option<Path>>()?,
    })
}

fn marker<'a>(fields: &mut Fields<'a>) -> Result<FrameRef<'a>, FrameKind>
    ensures { Begins of.Marker fields.old result fields.new }
{
    Ok(FrameRef::Marker {
        peer: fields.node()?,
        session: fields.session()?,
        epoch: fields.epoch()?,
    })
}

fn hello<'a>(fields: &mut Fields<'a>) -> Result<FrameRef<'a>, FrameKind>
    ensures { Begins of.Hello fields.old result fields.new }
{
    Ok(FrameRef::Hello {
        peer: fields.node()?,
        session: fields.session()?,
        epoch: fields.epoch_or_none()?,
    })
}

fn report<'a>(fields: &mut Fields<'a>) -> Result<FrameRef<'a>, FrameKind>
    ensures { Begins of.Report fields.old result fields.new }
{
    Ok(FrameRef::Report {
        version: 1,
        peer: fields.node()?,
        report: fields.part::<PlainReport>()?,
    })
}

fn listed_report<'a>(fields: &mut Fields<'a>) -> Result<FrameRef<'a>, FrameKind>
    ensures { Begins of.ListedReport fields.old result fields.new }
{
    Ok(FrameRef::Report {
        version: 2,
        peer: fields.node()?,
        report: fields.part::<ListedReport>()?,
    })
}

fn prepare<'a>(fields: &mut Fields<'a>) -> Result<FrameRef<'a>, FrameKind>
    ensures { Begins of.Prepare fields.old result fields.new }
{
    Ok(FrameRef::Prepare {
        peer: fields.node()?,
        epoch: fields.epoch()?,
        ballot: fields.ballot()?,
    })
}

#[tactic(auto, unfolding(crate::specs::Reading::body_at, crate::specs::Fields::named))]
fn promise<'a>(fields: &mut Fields<'a>) -> Result<FrameRef<'a>, FrameKind>
    ensures { Begins of.Promise fields.old result fields.new }
{
    let peer = fields.node()?;
    let epoch = fields.epoch()?;
    let ballot = fields.ballot()?;
    if fields.number8(0, 1)? == 0 {
        return Ok(FrameRef::Promise {
            peer,
            epoch,
            ballot,
            named: None,
        });
    }
    let accepted = fields.ballot()?;
    let value = fields.part::<Value>()?;
    let named = Some((accepted, value));
    Ok(FrameRef::Promise {
        peer,
        epoch,
        ballot,
        named,
    })
}

fn accept<'a>(fields: &mut Fields<'a>) -> Result<FrameRef<'a>, FrameKind>
    ensures { Begins of.Accept fields.old result fields.new }
{
    Ok(FrameRef::Accept {
        peer: fields.node()?,
        epoch: fields.epoch()?,
        ballot: fields.ballot()?,
        value: fields.part::<Value>()?,
    })
}

fn accepted<'a>(fields: &mut Fields<'a>) -> Result<FrameRef<'a>, FrameKind>
    ensures { Begins of.Accepted fields.old result fields.new }
{
    Ok(FrameRef::Accepted {
        peer: fields.node()?,
        epoch: fields.epoch()?,
        ballot: fields.ballot()?,
    })
}

fn decision<'a>(fields: &mut Fields<'a>) -> Result<FrameRef<'a>, FrameKind>
    ensures { Begins of.Decision fields.old result fields.new }
{
    Ok(FrameRef::Decision {
        peer: fields.node()?,
        epoch: fields.epoch()?,
        value: fields.part::<Value>()?,
    })
}

fn hop<'a>(fields: &mut Fields<'a>) -> Result<FrameRef<'a>, FrameKind>
    ensures { Begins of.Hop fields.old result fields.new }
{
    Ok(FrameRef::Hop {
        packet: fields.part::<Packet>()?,
        up: fields.part::<Links>()?,
    })
}

fn forward<'a>(fields: &mut Fields<'a>) -> Result<FrameRef<'a>, FrameKind>
    ensures { Begins of.Forward fields.old result fields.new }
{
    Ok(FrameRef::Forward {
        next: fields.node()?,
        packet: fields.part::<Packet>()?,
    })
}

fn ended<'a>(fields: &mut Fields<'a>) -> Result<FrameRef<'a>, FrameKind>
    ensures { Begins of.Ended fields.old result fields.new }
{
    Ok(FrameRef::Ended {
        id: fields.any32()?,
        end: fields.end()?,
    })
}

fn published<'a>(fields: &mut Fields<'a>) -> Result<FrameRef<'a>, FrameKind>
    ensures { Begins of.Published fields.old result fields.new }
{
    Ok(FrameRef::Published {
        epoch: fields.epoch()?,
        paths: fields.part::<Paths>()?,
    })
}

fn inject<'a>(fields: &mut Fields<'a>) -> Result<FrameRef<'a>, FrameKind>
    ensures { Begins of.Inject fields.old result fields.new }
{
    Ok(FrameRef::Inject {
        id: fields.positive()?,
        prefix: fields.prefix()?,
    })
}

// The fields of a body of this kind.
fn read_fields<'a>(tag: Tag, fields: &mut Fields<'a>) -> Result<FrameRef<'a>, FrameKind>
    ensures { Begins tag fields.old result fields.new }
{
    match tag {
        Tag::Originate => Ok(FrameRef::Originate {
            prefix: fields.prefix()?,
        }),
        Tag::Withdraw => Ok(FrameRef::Withdraw {
            prefix: fields.prefix()?,
        }),
        Tag::Prefer => prefer(fields),
        Tag::Notice => Ok(FrameRef::Notice {
            nbr: fields.node()?,
        }),
        Tag::OpenSession => open_session(fields),
        Tag::Snap => Ok(FrameRef::Snap),
        Tag::Propose => Ok(FrameRef::Propose {
            epoch: fields.epoch()?,
        }),
        Tag::Update => update(fields),
        Tag::Marker => marker(fields),
        Tag::Hello => hello(fields),
        Tag::Report => report(fields),
        Tag::Prepare => prepare(fields),
        Tag::Promise => promise(fields),
        Tag::Accept => accept(fields),
        Tag::Accepted => accepted(fields),
        Tag::Decision => decision(fields),
        Tag::Hop => hop(fields),
        Tag::Forward => forward(fields),
        Tag::Ended => ended(fields),
        Tag::Published => published(fields),
        Tag::Inject => inject(fields),
        Tag::ListedUpdate => listed_update(fields),
        Tag::ListedReport => listed_report(fields),
        Tag::Flush => Ok(FrameRef::Flush {
            nbr: fields.node()?,
        }),
    }
}

/// The frame of this kind that the body spells, or the first fault of the body.
pub(crate) fn read_body(tag: Tag, body: &[u8]) -> Result<FrameRef<'_>, FrameKind>
    ensures { Shows result (body_at tag body.now) }
{
    let mut fields = Fields::new(body);
    match read_fields(tag, &mut fields) {
        Ok(frame) => {
            fields.finish()?;
            Ok(frame)
        }
        Err(wrong) => Err(wrong),
    }
}
