//! The acts of a node.
ghost use Rattle.std.specs.Prelude.{◌≡◌, ◌≤◌, ◌∷◌, [], ℕ, Some, true, List, length, IfOk, OnOk};
ghost use Rattle.topology.specs.declared.names.Scope.TheVariants.{All};
ghost use Rattle.topology.specs.Lists.{has};
ghost use Rattle.topology.specs.Net.{Net, neighbours};
ghost use Rattle.path_vector.specs.declared.causes.Cause.TheVariants.{Ready};
ghost use Rattle.path_vector.specs.History.{ready};
ghost use Rattle.trigger_log.specs.Entries.{Entry, entry, local, reads};
ghost use Rattle.trigger_log.specs.Standing.{StandsFor as LogStandsFor, dropped_of};
ghost use Rattle.chronicle.specs.Facts.{Chronicle};
ghost use Rattle.chronicle.specs.Logs.{log_of};
ghost use Rattle.chronicle.specs.Run.{held_with};
ghost use Rattle.chronicle.specs.Steps.{Carried, unless_ready, write};
ghost use Rattle.node_core.specs.Acting.{AtRest, HandsAct, InMidst, KeepsAct};
ghost use Rattle.node_core.specs.Agreeing.{AgreesAs};
ghost use Rattle.node_core.specs.Counting.{AreCounts};
ghost use Rattle.node_core.specs.Deciding.{MayDo, acted};
ghost use Rattle.node_core.specs.Keeping.{Keeps, MayEnter};
ghost use Rattle.node_core.specs.Outputs.{Hands, Send};
ghost use Rattle.node_core.specs.Standing.{StandsFor};

use crate::counts::Counts;
use crate::duties::Duty;
use crate::node::Node;
use crate::outputs::{Output, OutputList};
use path_vector::{Cause, Policy};
use topology::{Item, NoMemory, NodeId, Scope, Session, Triggers};
use trigger_log::{NodeLog, Outgoing};

// Counts the newest entry of the log, which the log still keeps. Answers `NoMemory` where a count would overflow.
#[inline(always)]
fn count_newest<P: Policy + Copy>(counts: &mut Counts, log: &NodeLog<P>) -> Result<(), NoMemory>
    ensures { OnOk result ((policy : P) (net : Net) (u : ℕ) (k : Entry) (h : List Entry) →
        LogStandsFor policy (P.rules policy) net u log.now (k ∷ h) → dropped_of log.now ≤ length h →
        AreCounts (P.rules policy) net u h counts.old → AreCounts (P.rules policy) net u (k ∷ h) counts.new) }
{
    match log.entry(log.len()) {
        None => Ok(()),
        Some(entry) => Ok(counts.add(entry)?),
    }
}

impl<P: Policy + Copy> Node<P> {
    /// The node makes an entry, and hands out the entry and the items that go out with it.
    #[inline(always)]
    fn enter(
        self,
        triggers: Triggers,
        scope: Scope,
        cause: Cause,
        outputs: &mut OutputList,
    ) -> Result<Node<P>, NoMemory>
        ensures agreement { IfOk result (λ node. AgreesAs self.parts.value.agreement node.parts.value.agreement) }
        ensures node { IfOk result (λ node. (policy : P) (net : Net) (u : ℕ) (carried : Carried) (past : Chronicle) →
            Keeps policy (P.rules policy) net u self past → MayEnter net u (log_of u past) (entry triggers scope cause) →
            Keeps policy (P.rules policy) net u node
            (write (P.rules policy) net carried u (entry triggers scope cause) past)) }
        ensures outputs { OnOk result ((policy : P) (net : Net) (u : ℕ) (carried : Carried) (past first : Chronicle) →
            Keeps policy (P.rules policy) net u self past → MayEnter net u (log_of u past) (entry triggers scope cause) →
            Hands first outputs.old past → Hands first outputs.new
            (write (P.rules policy) net carried u (entry triggers scope cause) past)) }
    {
        let Node { log, mut parts } = self;
        let log = outputs.enter(log, &parts.topology, triggers, scope, cause)?;
        count_newest(&mut parts.counts, &log)?;
        Ok(Node { log, parts })
    }

    // The node makes an entry that lists its own next trigger.
    fn enter_own(
        self,
        scope: Scope,
        cause: Cause,
        outputs: &mut OutputList,
    ) -> Result<Node<P>, NoMemory>
        ensures agreement { IfOk result (λ node. AgreesAs self.parts.value.agreement node.parts.value.agreement) }
        ensures node { IfOk result (KeepsAct P.rules (InMidst P.rules self) (Duty.Enter scope cause)) }
        ensures outputs { OnOk result (HandsAct P.rules (InMidst P.rules self) (Duty.Enter scope cause) outputs.old outputs.new) }
    {
        let triggers = Triggers::one(self.log.next_trigger());
        self.enter(triggers, scope, cause, outputs)
    }

    // The node opens a session, and sends its neighbour a greeting with its epoch.
    fn open(
        self,
        nbr: NodeId,
        session: Session,
        outputs: &mut OutputList,
    ) -> Result<Node<P>, NoMemory>
        ensures agreement { IfOk result (λ node. AgreesAs self.parts.value.agreement node.parts.value.agreement) }
        ensures node { IfOk result (KeepsAct P.rules (AtRest P.rules self) (Duty.Open nbr session)) }
        ensures outputs { OnOk result (HandsAct P.rules (AtRest P.rules self) (Duty.Open nbr session) outputs.old outputs.new) }
    {
        trigger_log::laws::an_opening_says_nothing();
        let epoch = self.parts.snapshots.epoch();
        let scope = Scope::All;
        let node = self.enter_own(scope, Cause::Up { nbr, session }, outputs)?;
        outputs.push(Output::Send(Outgoing {
            to: nbr,
            session,
            item: Item::Hello(epoch),
        }))?;
        Ok(node)
    }

    // The node is greeted in the session that it holds. It enters that the other end is ready, unless the log says so
    // already.
    fn greet(
        self,
        nbr: NodeId,
        session: Session,
        outputs: &mut OutputList,
    ) -> Result<Node<P>, NoMemory>
        ensures agreement { IfOk result (λ node. AgreesAs self.parts.value.agreement node.parts.value.agreement) }
        ensures node { IfOk result (λ node. (policy : P) (net : Net) (u : ℕ) (carried : Carried) (past : Chronicle) →
            Keeps policy (P.rules policy) net u self past → has (neighbours net u) nbr ≡ true →
            held_with u nbr past ≡ Some session →
            Keeps policy (P.rules policy) net u node
            (unless_ready (ready (reads (log_of u past)) nbr) past
            (write (P.rules policy) net carried u (local u (log_of u past) All (Ready nbr session)) past))) }
        ensures outputs { OnOk result ((policy : P) (net : Net) (u : ℕ) (carried : Carried) (past first : Chronicle) →
            Keeps policy (P.rules policy) net u self past → has (neighbours net u) nbr ≡ true →
            held_with u nbr past ≡ Some session → Hands first outputs.old past →
            Hands first outputs.new
            (unless_ready (ready (reads (log_of u past)) nbr) past
            (write (P.rules policy) net carried u (local u (log_of u past) All (Ready nbr session)) past))) }
    {
        if self.log.ready(nbr) {
            return Ok(self);
        }
        let scope = Scope::All;
        self.enter_own(scope, Cause::Ready { nbr, session }, outputs)
    }

    // The node sends the updates that it holds back from the neighbour, and makes an entry for it, without triggers.
    fn flush(self, nbr: NodeId, outputs: &mut OutputList) -> Result<Node<P>, NoMemory>
        ensures agreement { IfOk result (λ node. AgreesAs self.parts.value.agreement node.parts.value.agreement) }
        ensures node { IfOk result (KeepsAct P.rules (InMidst P.rules self) (Duty.Flush nbr)) }
        ensures outputs { OnOk result (HandsAct P.rules (InMidst P.rules self) (Duty.Flush nbr) outputs.old outputs.new) }
    {
        let triggers = Triggers::none();
        let scope = Scope::Nothing;
        self.enter(triggers, scope, Cause::Flush { nbr }, outputs)
    }

    // The node takes an item in the session that it holds. It enters an update with the triggers of the update. It meets
    // a marker. It meets the epoch of a greeting, and is then greeted.
    #[inline(always)]
    fn take(
        self,
        from: NodeId,
        session: Session,
        item: Item,
        outputs: &mut OutputList,
    ) -> Result<Node<P>, NoMemory>
        ensures agreement { IfOk result (λ node. AgreesAs self.parts.value.agreement node.parts.value.agreement) }
        ensures node { IfOk result (KeepsAct P.rules (AtRest P.rules self) (Duty.Take from session item)) }
        ensures outputs { OnOk result (HandsAct P.rules (AtRest P.rules self) (Duty.Take from session item) outputs.old outputs.new) }
    {
        match item {
            Item::Update {
                prefix,
                seq,
                triggers,
                path,
            } => {
                let mut node = self;
                node.parts.snapshots.on_update(from, session, seq);
                let scope = Scope::One(prefix);
                let cause = Cause::Recv {
                    from,
                    session,
                    seq,
                    path,
                };
                node.enter(triggers, scope, cause, outputs)
            }
            Item::Marker(epoch) => self.meet(from, session, epoch, outputs),
            Item::Hello(epoch) => {
                let node = self.meet(from, session, epoch, outputs)?;
                node.greet(from, session, outputs)
            }
        }
    }

    /// The node does an act, and hands out its outputs.
    #[inline(always)]
    pub(crate) fn act(self, act: Duty, outputs: &mut OutputList) -> Result<Node<P>, NoMemory>
        ensures agreement { IfOk result (λ node. AgreesAs self.parts.value.agreement node.parts.value.agreement) }
        ensures node { IfOk result (KeepsAct P.rules (AtRest P.rules self) act) }
        ensures outputs { OnOk result ((policy : P) (net : Net) (u : ℕ) (carried : Carried) (past : Chronicle) →
            StandsFor policy (P.rules policy) net u self past → MayDo net u past act → outputs.old ≡ [] →
            Hands past outputs.new (acted (P.rules policy) net carried u past act)) }
    {
        match act {
            Duty::Enter { scope, cause } => self.enter_own(scope, cause, outputs),
            Duty::Open { nbr, session } => self.open(nbr, session, outputs),
            Duty::Take {
                from,
                session,
                item,
            } => self.take(from, session, item, outputs),
            Duty::Flush { nbr } => self.flush(nbr, outputs),
            Duty::Rise { epoch } => self.raise(epoch, outputs),
        }
    }
}
