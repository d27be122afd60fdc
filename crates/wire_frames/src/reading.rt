//! Reads the fields of frames from the front of bytes. Nothing here takes memory.
ghost use Rattle.std.specs.Prelude.{◌≡◌, ◌≤◌, IfOk};
ghost use Rattle.std.specs.Int.{w8, w16, w32, w64};
ghost use Rattle.wire_frames.specs.Shown.{Gives};
ghost use Rattle.wire_frames.specs.Formats.{IsBytes, word_at, number, ordered, optional};
ghost use Rattle.wire_frames.specs.Fields.{node, prefix, positive, epoch, epoch_or_none, preference, any16, any32, any64, flag, scope, mode, end, trigger, ballot, sent, session_key, above};
ghost use Rattle.wire_frames.specs.Listing.{scope_beside, pending_key};

use crate::FrameKind;
use epoch_packet::{End, Mode};
use std::marker::Model;
use topology::limits::{HIGHEST_EPOCH, HIGHEST_NODE, HIGHEST_PREFERENCE};
use topology::{Ballot, Epoch, NodeId, PrefixId, Scope, Sent, Session, Trigger, Triggers};

/// The rest of a body. Each call takes its field from the front, or returns the first fault there.
#[derive(Drop)]
pub(crate) struct Fields<'a> {
    rest: &'a [u8],
}

impl<'a> Model for Fields<'a> {
    ghost use Rattle.std.specs.Prelude.{ℕ, List};

    ghost Value = { List ℕ };

    ghost view = { λ f. f.rest.now };
}

// The type says this; the contract passes it on.
pub(crate) fn are_bytes(bytes: &[u8])
    ensures { IsBytes bytes.now }
{
    let _length = bytes.len();
}

pub(crate) fn u32_at(bytes: &[u8]) -> Result<(u32, &[u8]), FrameKind>
    ensures { Gives (λ x. (x.0, x.1.now)) result (word_at w32 bytes.now) }
{
    if bytes.len() < 4 {
        return Err(FrameKind::Length);
    }
    let (front, rest) = bytes.split_at(4);
    let number = u32::from_be_bytes([front[0], front[1], front[2], front[3]]);
    Ok((number, rest))
}

impl<'a> Fields<'a> {
    /// The fields of these bytes.
    pub(crate) fn new(bytes: &'a [u8]) -> Fields<'a>
        ensures { result ≡ bytes.now }
    {
        Fields { rest: bytes }
    }

    /// The bytes that are left.
    pub(crate) fn rest(&self) -> &'a [u8]
        ensures left { result.now ≡ self.now }
        ensures bytes { IsBytes result.now }
    {
        are_bytes(self.rest);
        self.rest
    }

    /// The next byte.
    pub(crate) fn word8(&mut self) -> Result<u8, FrameKind>
        ensures { Gives (λ n. (n, self.new)) result (word_at w8 self.old) }
    {
        if self.rest.len() < 1 {
            return Err(FrameKind::Length);
        }
        let (front, rest) = self.rest.split_at(1);
        self.rest = rest;
        Ok(front[0])
    }

    /// The number in the next two bytes.
    pub(crate) fn word16(&mut self) -> Result<u16, FrameKind>
        ensures { Gives (λ n. (n, self.new)) result (word_at w16 self.old) }
    {
        if self.rest.len() < 2 {
            return Err(FrameKind::Length);
        }
        let (front, rest) = self.rest.split_at(2);
        self.rest = rest;
        Ok(u16::from_be_bytes([front[0], front[1]]))
    }

    pub(crate) fn number8(&mut self, low: usize, high: usize) -> Result<u8, FrameKind>
        ensures number { Gives (λ x. (x, self.new)) result ((number w8 low high).reads self.old) }
        ensures small { IfOk result (λ n. n ≤ high) }
    {
        let number = self.word8()?;
        if (number as usize) < low || high < number as usize {
            return Err(FrameKind::Value);
        }
        Ok(number)
    }

    fn number16(&mut self, low: u32, high: u32) -> Result<u16, FrameKind>
        ensures number { Gives (λ x. (x, self.new)) result ((number w16 low high).reads self.old) }
        ensures small { IfOk result (λ n. n ≤ high) }
    {
        let number = self.word16()?;
        if u32::from(number) < low || high < u32::from(number) {
            return Err(FrameKind::Value);
        }
        Ok(number)
    }

    fn number32(&mut self, low: u32, high: u32) -> Result<u32, FrameKind>
        ensures { Gives (λ x. (x, self.new)) result ((number w32 low high).reads self.old) }
    {
        let (number, rest) = u32_at(self.rest)?;
        self.rest = rest;
        if number < low || high < number {
            return Err(FrameKind::Value);
        }
        Ok(number)
    }
}

#[tactic(auto, unfolding(crate::specs::Fields::node, crate::specs::Fields::prefix, crate::specs::Fields::positive, crate::specs::Fields::epoch, crate::specs::Fields::epoch_or_none, crate::specs::Fields::preference, crate::specs::Fields::any16, crate::specs::Fields::any32, crate::specs::Fields::any64))]
impl<'a> Fields<'a> {
    pub(crate) fn node(&mut self) -> Result<NodeId, FrameKind>
        ensures { Gives (λ x. (x, self.new)) result (node.reads self.old) }
    {
        Ok(NodeId::new(self.number16(1, HIGHEST_NODE)?))
    }

    pub(crate) fn prefix(&mut self) -> Result<PrefixId, FrameKind>
        ensures { Gives (λ x. (x, self.new)) result (prefix.reads self.old) }
    {
        Ok(PrefixId::new(self.number16(0, 255)?))
    }

    pub(crate) fn positive(&mut self) -> Result<u32, FrameKind>
        ensures { Gives (λ x. (x, self.new)) result (positive.reads self.old) }
    {
        self.number32(1, 4_294_967_295)
    }

    pub(crate) fn session(&mut self) -> Result<Session, FrameKind>
        ensures { Gives (λ x. (x, self.new)) result (positive.reads self.old) }
    {
        Ok(Session::new(self.positive()?))
    }

    pub(crate) fn epoch(&mut self) -> Result<Epoch, FrameKind>
        ensures { Gives (λ x. (x, self.new)) result (epoch.reads self.old) }
    {
        Ok(Epoch::new(self.number32(1, HIGHEST_EPOCH)?))
    }

    pub(crate) fn epoch_or_none(&mut self) -> Result<Epoch, FrameKind>
        ensures { Gives (λ x. (x, self.new)) result (epoch_or_none.reads self.old) }
    {
        Ok(Epoch::new(self.number32(0, HIGHEST_EPOCH)?))
    }

    pub(crate) fn preference(&mut self) -> Result<u32, FrameKind>
        ensures { Gives (λ x. (x, self.new)) result (preference.reads self.old) }
    {
        self.number32(0, HIGHEST_PREFERENCE)
    }

    pub(crate) fn any16(&mut self) -> Result<u16, FrameKind>
        ensures { Gives (λ x. (x, self.new)) result (any16.reads self.old) }
    {
        self.number16(0, 65_535)
    }

    pub(crate) fn any32(&mut self) -> Result<u32, FrameKind>
        ensures { Gives (λ x. (x, self.new)) result (any32.reads self.old) }
    {
        self.number32(0, 4_294_967_295)
    }

    pub(crate) fn any64(&mut self) -> Result<u64, FrameKind>
        ensures { Gives (λ x. (x, self.new)) result (any64.reads self.old) }
    {
        if self.rest.len() < 8 {
            return Err(FrameKind::Length);
        }
        let (front, rest) = self.rest.split_at(8);
        self.rest = rest;
        Ok(u64::from_be_bytes([
            front[0], front[1], front[2], front[3], front[4], front[5], front[6], front[7],
        ]))
    }
}

#[tactic(auto, unfolding(crate::specs::Fields::flag, crate::specs::Fields::scope, crate::specs::Listing::scope_beside, crate::specs::Fields::mode, crate::specs::Fields::end, crate::specs::Fields::trigger, crate::specs::Fields::ballot, crate::specs::Fields::sent))]
impl<'a> Fields<'a> {
    pub(crate) fn flag(&mut self) -> Result<bool, FrameKind>
        ensures { Gives (λ x. (x, self.new)) result (flag.reads self.old) }
    {
        Ok(self.number8(0, 1)? == 1)
    }

    pub(crate) fn scope(&mut self) -> Result<Scope, FrameKind>
        ensures { Gives (λ x. (x, self.new)) result (scope.reads self.old) }
    {
        let number = self.word16()?;
        if number == 65_535 {
            return Ok(Scope::All);
        }
        if number > 255 {
            return Err(FrameKind::Value);
        }
        Ok(Scope::One(PrefixId::new(number)))
    }

    /// The scope of a row; `none` says that the row lists no triggers.
    pub(crate) fn scope_beside(&mut self, none: bool) -> Result<Scope, FrameKind>
        ensures { Gives (λ x. (x, self.new)) result ((scope_beside none).reads self.old) }
    {
        let number = self.word16()?;
        if none {
            if number != 65_534 {
                return Err(FrameKind::Value);
            }
            return Ok(Scope::Nothing);
        }
        if number == 65_535 {
            return Ok(Scope::All);
        }
        if number > 255 {
            return Err(FrameKind::Value);
        }
        Ok(Scope::One(PrefixId::new(number)))
    }

    pub(crate) fn mode(&mut self) -> Result<Mode, FrameKind>
        ensures { Gives (λ x. (x, self.new)) result (mode.reads self.old) }
    {
        if self.number8(0, 1)? == 0 {
            return Ok(Mode::Stable);
        }
        Ok(Mode::Transient)
    }

    pub(crate) fn end(&mut self) -> Result<End, FrameKind>
        ensures { Gives (λ x. (x, self.new)) result (end.reads self.old) }
    {
        let number = self.number8(1, 3)?;
        if number == 1 {
            return Ok(End::Delivered);
        }
        if number == 2 {
            return Ok(End::Expired);
        }
        Ok(End::Stuck)
    }

    pub(crate) fn trigger(&mut self) -> Result<Trigger, FrameKind>
        ensures { Gives (λ x. (x, self.new)) result (trigger.reads self.old) }
    {
        let node = self.node()?;
        let count = self.positive()?;
        Ok(Trigger { node, count })
    }

    pub(crate) fn ballot(&mut self) -> Result<Ballot, FrameKind>
        ensures { Gives (λ x. (x, self.new)) result (ballot.reads self.old) }
    {
        let round = self.positive()?;
        let node = self.node()?;
        Ok(Ballot { round, node })
    }

    /// An item that lists exactly this trigger.
    pub(crate) fn sent(&mut self, trigger: Trigger) -> Result<Sent, FrameKind>
        ensures { Gives (λ x. (x, self.new)) result ((sent trigger).reads self.old) }
    {
        let to = self.node()?;
        let session = self.session()?;
        let seq = self.positive()?;
        Ok(Sent {
            to,
            session,
            seq,
            triggers: Triggers::one(trigger),
        })
    }

    /// The neighbour and the number of a session, which must be above those of the last one.
    pub(crate) fn session_key(
        &mut self,
        nbr: NodeId,
        session: Session,
    ) -> Result<(NodeId, Session), FrameKind>
        ensures { Gives (λ x. (x, self.new)) result
            ((ordered session_key (above (nbr, session))).reads self.old) }
    {
        let next = self.node()?;
        let number = self.session()?;
        if next < nbr || (next == nbr && number <= session) {
            return Err(FrameKind::Order);
        }
        Ok((next, number))
    }

    pub(crate) fn optional_trigger(&mut self) -> Result<Option<Trigger>, FrameKind>
        ensures { Gives (λ x. (x, self.new)) result ((optional trigger).reads self.old) }
    {
        if self.number8(0, 1)? == 0 {
            return Ok(None);
        }
        Ok(Some(self.trigger()?))
    }

    /// The neighbour and the prefix of a pending row, which must be above those of the last one.
    pub(crate) fn pending_key(
        &mut self,
        nbr: NodeId,
        prefix: PrefixId,
    ) -> Result<(NodeId, PrefixId), FrameKind>
        ensures { Gives (λ x. (x, self.new)) result
            ((ordered pending_key (above (nbr, prefix))).reads self.old) }
    {
        let next = self.node()?;
        let place = self.prefix()?;
        if next < nbr || (next == nbr && place <= prefix) {
            return Err(FrameKind::Order);
        }
        Ok((next, place))
    }
}
