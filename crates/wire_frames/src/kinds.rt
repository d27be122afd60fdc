//! The fields of each kind of frame, in the order of its body. Nothing here takes memory.
ghost use Rattle.std.specs.Prelude.{◌≡◌, ◌++◌, OnOk};
ghost use Rattle.std.specs.List.{flat_map, list_all};
ghost use Rattle.wire_frames.specs.Kinds.{spelling, fitting, spelled_all, all_fitting, early_body, early_fit, late_body, late_fit};
ghost use Rattle.wire_frames.specs.Frames.{body, fields_fit};

use crate::Frame;
use crate::fitting::*;
use crate::layouts::Layout;
use crate::parts::{Links, named_fits, put_named, put_update_triggers, update_triggers_fit};
use crate::paths::Paths;
use crate::reports::{put_report, report_fits};
use crate::writing::*;
use epoch_packet::{End, NodeList, Packet};
use incomplete_closure::{Report, Value};
use topology::{Ballot, Epoch, NoMemory, NodeId, Path, PrefixId, Session, Triggers};

/// A field of a frame in memory. Nothing has no bytes.
#[derive(Clone, Copy)]
pub(crate) enum Field<'a> {
    Nothing,
    Node(NodeId),
    Prefix(PrefixId),
    Session(Session),
    Positive(u32),
    Preference(u32),
    Epoch(Epoch),
    EpochOrNone(Epoch),
    Ballot(Ballot),
    Number(u32),
    End(End),
    Triggers(&'a Triggers),
    Path(&'a Option<Path>),
    Report(&'a Report),
    Named(&'a Option<(Ballot, Value)>),
    Value(&'a Value),
    Packet(&'a Packet),
    Links(&'a NodeList),
    Paths(&'a Paths),
}

impl<'a> Field<'a> {
    // Whether the field is in its range, and each list in order.
    fn fits(&self) -> bool
        ensures { result ≡ fitting self.now }
    {
        match self {
            Field::Nothing => true,
            Field::Node(id) => node_fits(*id),
            Field::Prefix(id) => prefix_fits(*id),
            Field::Session(session) => session_fits(*session),
            Field::Positive(number) => positive_fits(*number),
            Field::Preference(number) => preference_fits(*number),
            Field::Epoch(epoch) => epoch_fits(*epoch),
            Field::EpochOrNone(epoch) => epoch_or_none_fits(*epoch),
            Field::Ballot(ballot) => ballot_fits(*ballot),
            Field::Number(number) => any32_fits(*number),
            Field::End(end) => end_fits(*end),
            Field::Triggers(triggers) => update_triggers_fit(triggers),
            Field::Path(path) => <Option<Path>>::fits(path),
            Field::Report(report) => report_fits(report),
            Field::Named(named) => named_fits(named),
            Field::Value(value) => Value::fits(value),
            Field::Packet(packet) => Packet::fits(packet),
            Field::Links(links) => Links::fits(links),
            Field::Paths(paths) => Paths::fits(paths),
        }
    }

    // Writes the field at the end.
    fn put(&self, out: &mut Vec<u8>) -> Result<(), NoMemory>
        ensures { OnOk result (out.new.items ≡ out.old.items ++ spelling self.now) }
    {
        match self {
            Field::Nothing => Ok(()),
            Field::Node(id) => put_node(out, *id),
            Field::Prefix(id) => put_prefix(out, *id),
            Field::Session(session) => put_session(out, *session),
            Field::Positive(number) => put_positive(out, *number),
            Field::Preference(number) => put_preference(out, *number),
            Field::Epoch(epoch) => put_epoch(out, *epoch),
            Field::EpochOrNone(epoch) => put_epoch_or_none(out, *epoch),
            Field::Ballot(ballot) => put_ballot(out, *ballot),
            Field::Number(number) => put_any32(out, *number),
            Field::End(end) => put_end(out, *end),
            Field::Triggers(triggers) => put_update_triggers(triggers, out),
            Field::Path(path) => <Option<Path>>::put(path, out),
            Field::Report(report) => put_report(report, out),
            Field::Named(named) => put_named(named, out),
            Field::Value(value) => Value::put(value, out),
            Field::Packet(packet) => Packet::put(packet, out),
            Field::Links(links) => Links::put(links, out),
            Field::Paths(paths) => Paths::put(paths, out),
        }
    }
}

// Six fields. The places before those that are given have nothing.
macro_rules! six {
    ($a:expr, $b:expr, $c:expr, $d:expr, $e:expr, $f:expr) => {
        [$a, $b, $c, $d, $e, $f]
    };
    ($($field:expr),*) => {
        six![Field::Nothing $(, $field)*]
    };
}

// At most six fields of a frame.
macro_rules! fields {
    ($($kind:ident($value:expr)),*) => {
        six![$(Field::$kind($value)),*]
    };
}

// The fields of inputs and of items of a session; other frames have none here.
#[tactic(auto, unfolding(crate::specs::Frames::body, crate::specs::Kinds::early_body, crate::specs::Kinds::early_fit))]
fn early_fields(frame: &Frame) -> [Field<'_>; 6]
    ensures spelled { spelled_all result ≡ early_body frame.now }
    ensures fit { all_fitting result ≡ early_fit frame.now }
{
    match frame {
        Frame::Originate { prefix } => fields![Prefix(*prefix)],
        Frame::Withdraw { prefix } => fields![Prefix(*prefix)],
        Frame::Prefer { nbr, value } => fields![Node(*nbr), Preference(*value)],
        Frame::Notice { nbr } => fields![Node(*nbr)],
        Frame::OpenSession { nbr, session } => fields![Node(*nbr), Session(*session)],
        Frame::Propose { epoch } => fields![Epoch(*epoch)],
        Frame::Update {
            peer,
            session,
            seq,
            triggers,
            prefix,
            path,
        } => fields![
            Node(*peer),
            Session(*session),
            Positive(*seq),
            Triggers(triggers),
            Prefix(*prefix),
            Path(path)
        ],
        Frame::Marker {
            peer,
            session,
            epoch,
        } => fields![Node(*peer), Session(*session), Epoch(*epoch)],
        Frame::Hello {
            peer,
            session,
            epoch,
        } => fields![Node(*peer), Session(*session), EpochOrNone(*epoch)],
        _ => fields![],
    }
}

// The fields of all other frames; inputs and items of a session have none here.
#[tactic(auto, unfolding(crate::specs::Frames::body, crate::specs::Kinds::late_body, crate::specs::Kinds::late_fit))]
fn late_fields(frame: &Frame) -> [Field<'_>; 6]
    ensures spelled { spelled_all result ≡ late_body frame.now }
    ensures fit { all_fitting result ≡ late_fit frame.now }
{
    match frame {
        Frame::Report { peer, report } => fields![Node(*peer), Report(report)],
        Frame::Prepare {
            peer,
            epoch,
            ballot,
        } => fields![Node(*peer), Epoch(*epoch), Ballot(*ballot)],
        Frame::Promise {
            peer,
            epoch,
            ballot,
            named,
        } => fields![Node(*peer), Epoch(*epoch), Ballot(*ballot), Named(named)],
        Frame::Accept {
            peer,
            epoch,
            ballot,
            value,
        } => fields![Node(*peer), Epoch(*epoch), Ballot(*ballot), Value(value)],
        Frame::Accepted {
            peer,
            epoch,
            ballot,
        } => fields![Node(*peer), Epoch(*epoch), Ballot(*ballot)],
        Frame::Decision { peer, epoch, value } => fields![Node(*peer), Epoch(*epoch), Value(value)],
        Frame::Hop { packet, up } => fields![Packet(packet), Links(up)],
        Frame::Forward { next, packet } => fields![Node(*next), Packet(packet)],
        Frame::Ended { id, end } => fields![Number(*id), End(*end)],
        Frame::Published { epoch, paths } => fields![Epoch(*epoch), Paths(paths)],
        Frame::Inject { id, prefix } => fields![Positive(*id), Prefix(*prefix)],
        Frame::Flush { nbr } => fields![Node(*nbr)],
        _ => fields![],
    }
}

fn fit_each(fields: &[Field<'_>]) -> bool
    ensures { result ≡ list_all fitting fields.now }
{
    fields.iter().all(|field| field.fits())
}

fn put_each(fields: &[Field<'_>], out: &mut Vec<u8>) -> Result<(), NoMemory>
    ensures { OnOk result (out.new.items ≡ out.old.items ++ flat_map spelling fields.now) }
{
    for field in fields {
        field.put(out)?;
    }
    Ok(())
}

/// Whether each field is in its range, and each list in order.
pub(crate) fn all_fit(frame: &Frame) -> bool
    ensures { result ≡ fields_fit frame.now }
{
    if !fit_each(&early_fields(frame)) {
        return false;
    }
    fit_each(&late_fields(frame))
}

/// Writes the body of a frame at the end.
pub(crate) fn put_body(frame: &Frame, out: &mut Vec<u8>) -> Result<(), NoMemory>
    ensures { OnOk result (out.new.items ≡ out.old.items ++ body frame.now) }
{
    put_each(&early_fields(frame), out)?;
    put_each(&late_fields(frame), out)
}
