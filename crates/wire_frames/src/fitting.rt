//! Tests of which fields have a spelling. Nothing here takes memory.
#![tactic(auto, unfolding(crate::specs::Fields::node, crate::specs::Fields::prefix, crate::specs::Fields::positive, crate::specs::Fields::epoch, crate::specs::Fields::epoch_or_none, crate::specs::Fields::preference, crate::specs::Fields::any32, crate::specs::Fields::scope, crate::specs::Fields::end, crate::specs::Fields::trigger, crate::specs::Fields::ballot, crate::specs::Listing::scope_beside))]

ghost use Rattle.std.specs.Prelude.{◌≡◌};
ghost use Rattle.wire_frames.specs.Formats.{fits_behind, ordered};
ghost use Rattle.wire_frames.specs.Fields.{node, prefix, positive, epoch, epoch_or_none, preference, any32, scope, end, trigger, ballot, session_key, above};
ghost use Rattle.wire_frames.specs.Listing.{scope_beside, pending_key};

use epoch_packet::End;
use topology::limits::{HIGHEST_EPOCH, HIGHEST_PREFERENCE};
use topology::{Ballot, Epoch, NodeId, PrefixId, Scope, Session, Trigger};

pub(crate) fn node_fits(id: NodeId) -> bool
    ensures { result ≡ node.fits id }
{
    id.number() >= 1
}

pub(crate) fn prefix_fits(id: PrefixId) -> bool
    ensures { result ≡ prefix.fits id }
{
    id.place() <= 255
}

pub(crate) fn positive_fits(number: u32) -> bool
    ensures { result ≡ positive.fits number }
{
    number >= 1
}

pub(crate) fn session_fits(session: Session) -> bool
    ensures { result ≡ positive.fits session }
{
    positive_fits(session.number())
}

pub(crate) fn epoch_fits(number: Epoch) -> bool
    ensures { result ≡ epoch.fits number }
{
    let number = number.number();
    1 <= number && number <= HIGHEST_EPOCH
}

pub(crate) fn epoch_or_none_fits(number: Epoch) -> bool
    ensures { result ≡ epoch_or_none.fits number }
{
    number.number() <= HIGHEST_EPOCH
}

pub(crate) fn preference_fits(number: u32) -> bool
    ensures { result ≡ preference.fits number }
{
    number <= HIGHEST_PREFERENCE
}

pub(crate) fn any32_fits(number: u32) -> bool
    ensures { result ≡ any32.fits number }
{
    let _any = number;
    true
}

pub(crate) fn scope_fits(whole: Scope) -> bool
    ensures { result ≡ scope.fits whole }
{
    match whole {
        Scope::One(id) => id.place() <= 255,
        Scope::All => true,
        Scope::Nothing => false,
    }
}

pub(crate) fn end_fits(how: End) -> bool
    ensures { result ≡ end.fits how }
{
    match how {
        End::Delivered => true,
        End::Expired => true,
        End::Stuck => true,
    }
}

pub(crate) fn trigger_fits(named_trigger: Trigger) -> bool
    ensures { result ≡ trigger.fits named_trigger }
{
    node_fits(named_trigger.node) && positive_fits(named_trigger.count)
}

pub(crate) fn ballot_fits(attempt: Ballot) -> bool
    ensures { result ≡ ballot.fits attempt }
{
    positive_fits(attempt.round) && node_fits(attempt.node)
}

pub(crate) fn down_fits(named_trigger: Option<Trigger>) -> bool
    ensures { result ≡ fits_behind trigger.fits named_trigger }
{
    match named_trigger {
        None => true,
        Some(named_trigger) => trigger_fits(named_trigger),
    }
}

pub(crate) fn session_key_fits(next: NodeId, number: Session, nbr: NodeId, session: Session) -> bool
    ensures { result ≡ (ordered session_key (above (nbr, session))).fits (next, number) }
{
    if !node_fits(next) || !session_fits(number) {
        return false;
    }
    nbr < next || (nbr == next && session < number)
}

/// Whether the scope may stand in a row; `none` says that the row lists no triggers.
pub(crate) fn scope_fits_beside(whole: Scope, none: bool) -> bool
    ensures { result ≡ (scope_beside none).fits whole }
{
    match whole {
        Scope::One(id) => !none && id.place() <= 255,
        Scope::All => !none,
        Scope::Nothing => none,
    }
}

pub(crate) fn pending_key_fits(next: NodeId, place: PrefixId, nbr: NodeId, prefix: PrefixId) -> bool
    ensures { result ≡ (ordered pending_key (above (nbr, prefix))).fits (next, place) }
{
    if !node_fits(next) || !prefix_fits(place) {
        return false;
    }
    nbr < next || (nbr == next && prefix < place)
}
