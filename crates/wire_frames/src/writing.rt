//! Writes the fields of frames at the end of bytes.
#![tactic(auto, unfolding(crate::specs::Fields::node, crate::specs::Fields::prefix, crate::specs::Fields::positive, crate::specs::Fields::epoch, crate::specs::Fields::epoch_or_none, crate::specs::Fields::preference, crate::specs::Fields::any32, crate::specs::Fields::flag, crate::specs::Fields::scope, crate::specs::Fields::mode, crate::specs::Fields::end, crate::specs::Fields::trigger, crate::specs::Fields::ballot))]

ghost use Rattle.std.specs.Prelude.{◌≡◌, ◌++◌, OnOk};
ghost use Rattle.std.specs.Int.{w8, w16, w32, w64, to_be_bytes};
ghost use Rattle.wire_frames.specs.Formats.{spelled_behind};
ghost use Rattle.wire_frames.specs.Fields.{node, prefix, positive, epoch, epoch_or_none, preference, any32, flag, scope, mode, end, trigger, ballot};

use epoch_packet::{End, Mode};
use topology::{Ballot, Epoch, NoMemory, NodeId, PrefixId, Scope, Session, Trigger};

pub(crate) fn put_u8(out: &mut Vec<u8>, number: u8) -> Result<(), NoMemory>
    ensures { OnOk result (out.new.items ≡ out.old.items ++ to_be_bytes w8 number) }
{
    out.extend_from_slice(&number.to_be_bytes())?;
    Ok(())
}

pub(crate) fn put_u16(out: &mut Vec<u8>, number: u16) -> Result<(), NoMemory>
    ensures { OnOk result (out.new.items ≡ out.old.items ++ to_be_bytes w16 number) }
{
    out.extend_from_slice(&number.to_be_bytes())?;
    Ok(())
}

pub(crate) fn put_u32(out: &mut Vec<u8>, number: u32) -> Result<(), NoMemory>
    ensures { OnOk result (out.new.items ≡ out.old.items ++ to_be_bytes w32 number) }
{
    out.extend_from_slice(&number.to_be_bytes())?;
    Ok(())
}

pub(crate) fn put_u64(out: &mut Vec<u8>, number: u64) -> Result<(), NoMemory>
    ensures { OnOk result (out.new.items ≡ out.old.items ++ to_be_bytes w64 number) }
{
    out.extend_from_slice(&number.to_be_bytes())?;
    Ok(())
}

pub(crate) fn put_node(out: &mut Vec<u8>, id: NodeId) -> Result<(), NoMemory>
    ensures { OnOk result (out.new.items ≡ out.old.items ++ node.spells id) }
{
    put_u16(out, id.number())
}

pub(crate) fn put_prefix(out: &mut Vec<u8>, id: PrefixId) -> Result<(), NoMemory>
    ensures { OnOk result (out.new.items ≡ out.old.items ++ prefix.spells id) }
{
    put_u16(out, id.place())
}

pub(crate) fn put_positive(out: &mut Vec<u8>, number: u32) -> Result<(), NoMemory>
    ensures { OnOk result (out.new.items ≡ out.old.items ++ positive.spells number) }
{
    put_u32(out, number)
}

pub(crate) fn put_session(out: &mut Vec<u8>, session: Session) -> Result<(), NoMemory>
    ensures { OnOk result (out.new.items ≡ out.old.items ++ positive.spells session) }
{
    put_positive(out, session.number())
}

pub(crate) fn put_epoch(out: &mut Vec<u8>, number: Epoch) -> Result<(), NoMemory>
    ensures { OnOk result (out.new.items ≡ out.old.items ++ epoch.spells number) }
{
    put_u32(out, number.number())
}

pub(crate) fn put_epoch_or_none(out: &mut Vec<u8>, number: Epoch) -> Result<(), NoMemory>
    ensures { OnOk result (out.new.items ≡ out.old.items ++ epoch_or_none.spells number) }
{
    put_u32(out, number.number())
}

pub(crate) fn put_preference(out: &mut Vec<u8>, number: u32) -> Result<(), NoMemory>
    ensures { OnOk result (out.new.items ≡ out.old.items ++ preference.spells number) }
{
    put_u32(out, number)
}

pub(crate) fn put_any32(out: &mut Vec<u8>, number: u32) -> Result<(), NoMemory>
    ensures { OnOk result (out.new.items ≡ out.old.items ++ any32.spells number) }
{
    put_u32(out, number)
}

pub(crate) fn put_flag(out: &mut Vec<u8>, yes_no: bool) -> Result<(), NoMemory>
    ensures { OnOk result (out.new.items ≡ out.old.items ++ flag.spells yes_no) }
{
    if yes_no {
        return put_u8(out, 1);
    }
    put_u8(out, 0)
}

pub(crate) fn put_scope(out: &mut Vec<u8>, whole: Scope) -> Result<(), NoMemory>
    ensures { OnOk result (out.new.items ≡ out.old.items ++ scope.spells whole) }
{
    match whole {
        Scope::One(id) => put_u16(out, id.place()),
        Scope::All => put_u16(out, 65_535),
        Scope::Nothing => put_u16(out, 65_534),
    }
}

pub(crate) fn put_mode(out: &mut Vec<u8>, how: Mode) -> Result<(), NoMemory>
    ensures { OnOk result (out.new.items ≡ out.old.items ++ mode.spells how) }
{
    match how {
        Mode::Stable => put_u8(out, 0),
        Mode::Transient => put_u8(out, 1),
    }
}

pub(crate) fn put_end(out: &mut Vec<u8>, how: End) -> Result<(), NoMemory>
    ensures { OnOk result (out.new.items ≡ out.old.items ++ end.spells how) }
{
    match how {
        End::Delivered => put_u8(out, 1),
        End::Expired => put_u8(out, 2),
        End::Stuck => put_u8(out, 3),
    }
}

pub(crate) fn put_trigger(out: &mut Vec<u8>, named_trigger: Trigger) -> Result<(), NoMemory>
    ensures { OnOk result (out.new.items ≡ out.old.items ++ trigger.spells named_trigger) }
{
    put_node(out, named_trigger.node)?;
    put_positive(out, named_trigger.count)
}

pub(crate) fn put_ballot(out: &mut Vec<u8>, attempt: Ballot) -> Result<(), NoMemory>
    ensures { OnOk result (out.new.items ≡ out.old.items ++ ballot.spells attempt) }
{
    put_positive(out, attempt.round)?;
    put_node(out, attempt.node)
}

pub(crate) fn put_down(out: &mut Vec<u8>, named_trigger: Option<Trigger>) -> Result<(), NoMemory>
    ensures { OnOk result (out.new.items ≡ out.old.items ++ spelled_behind trigger.spells named_trigger) }
{
    match named_trigger {
        None => put_u8(out, 0),
        Some(named_trigger) => {
            put_u8(out, 1)?;
            put_trigger(out, named_trigger)
        }
    }
}
