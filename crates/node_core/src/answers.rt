//! The answer of a node to an input, before it publishes a table.
ghost use Rattle.std.specs.Prelude.{◌≡◌, ◌==◌, ◌++◌, [], ℕ, None, Some, map, IfOk, IfErr, OnOk, if◌then◌else◌};
ghost use Rattle.topology.specs.Net.{Net};
ghost use Rattle.consolidator.specs.Facts as consolidator;
ghost use Rattle.consolidator.specs.Seen.{mails_seen};
ghost use Rattle.consolidator.specs.Standing.{StandsFor as PartStandsFor};
ghost use Rattle.chronicle.specs.Facts.{Chronicle};
ghost use Rattle.trigger_log.specs.Going.{item_of};
ghost use Rattle.chronicle.specs.Giving.{answer};
ghost use Rattle.chronicle.specs.Inputs.{Arrive, Input as RunInput};
ghost use Rattle.chronicle.specs.Run.{chronicle_of};
ghost use Rattle.chronicle.specs.Steps.{Carried, Goes};
ghost use Rattle.node_core.specs.Answering.{Consults, Says, decided_by, posts};
ghost use Rattle.node_core.specs.Coming.{MayCome};
ghost use Rattle.node_core.specs.Deciding.{IsDecided, MayDo, acted, asked_of};
ghost use Rattle.node_core.specs.Inputs.{input_of};
ghost use Rattle.node_core.specs.NodeLimits.{limit_before_marks, StopsAt};
ghost use Rattle.node_core.specs.Outputs.{output_of};
ghost use Rattle.node_core.specs.Standing.{Follows, StandsFor};

use crate::agreement::Agreement;
use crate::duties::{Asked, Duty, Passing};
use crate::inputs::Input;
use crate::limits::proposes_large;
use crate::node::Node;
use crate::outputs::{Output, OutputList, Stop};
use crate::parts::NodeParts;
use consolidator::{Consolidator, Outbox, Reply};
use path_vector::{Cause, Policy};
use topology::limits::MOST_TRIGGERS;
use topology::{Epoch, Item, LimitKind, NoMemory, NodeId, Reason, Scope, Session, Topology};

/// The answer of a node to an input.
#[derive(Drop)]
pub enum Answer {
    /// The node acted, and added to the outputs. It may now have both the cut and the decision of this epoch, if one is
    /// named. It had not both before.
    Did(Option<Epoch>),
    Idle(Reason),
}

// The epoch after the act, where the act raised it.
fn risen(before: Epoch, now: Epoch) -> Option<Epoch>
    ensures { result ≡ (if now == before then None else Some now) }
{
    if now == before {
        return None;
    }
    Some(now)
}

// Adds the control messages to the outputs.
fn mail_all(mails: Outbox, outputs: &mut OutputList) -> Result<(), NoMemory>
    ensures { OnOk result (map output_of outputs.new ≡ map output_of outputs.old ++ posts (mails_seen mails)) }
{
    let list = mails.into_list();
    for mail in list {
        outputs.push(Output::Mail(mail))?;
    }
    Ok(())
}

impl Asked {
    // The epoch whose decision the input brings, if it brings one.
    fn decides(&self) -> Option<Epoch>
        ensures { result ≡ decided_by (asked_of self.now) }
    {
        match self {
            Asked::Propose(_) => None,
            Asked::Hear { message, .. } => {
                if message.is_for_all() {
                    return Some(message.epoch());
                }
                None
            }
        }
    }
}

// The part in the agreements handles the input, and replies.
fn consult(
    part: Consolidator,
    topology: &Topology,
    asked: Asked,
) -> Result<(Consolidator, Reply), NoMemory>
    ensures { IfOk result (λ done. (past : consolidator.Chronicle) (u : ℕ) →
        PartStandsFor topology.now part past u → Consults topology.now done.1 done.0 past u (asked_of asked)) }
{
    match asked {
        Asked::Propose(epoch) => part.propose(topology, epoch),
        Asked::Hear { from, message } => part.handle(topology, from, message),
    }
}

// The part in the agreements, among the parts of a node, handles the input. No other part changes.
#[inline(always)]
fn consult_parts(parts: NodeParts, asked: Asked) -> Result<(NodeParts, Reply), NoMemory>
    ensures part { IfOk result (λ done. (past : consolidator.Chronicle) (u : ℕ) →
        PartStandsFor parts.topology.value parts.agreement.consolidator past u →
        Consults parts.topology.value done.1 done.0.agreement.consolidator past u (asked_of asked)) }
    ensures rest { IfOk result (λ done. done.0
        ≡ record parts { agreement = record parts.agreement { consolidator = done.0.agreement.consolidator } }) }
{
    let NodeParts {
        alloc,
        topology,
        id,
        counts,
        snapshots,
        agreement,
    } = parts;
    let Agreement {
        reports,
        consolidator,
        tables,
    } = agreement;
    let (consolidator, reply) = consult(consolidator, &topology, asked)?;
    let agreement = Agreement {
        reports,
        consolidator,
        tables,
    };
    let parts = NodeParts {
        alloc,
        topology,
        id,
        counts,
        snapshots,
        agreement,
    };
    Ok((parts, reply))
}

impl<P: Policy + Copy> Node<P> {
    /// Does the act.
    #[inline(always)]
    fn perform(self, act: Duty, outputs: &mut OutputList) -> Result<(Node<P>, Answer), NoMemory>
        ensures node { IfOk result (λ r. (policy : P) (net : Net) (u : ℕ) (carried : Carried) (past : Chronicle) →
            StandsFor policy (P.rules policy) net u self past → MayDo net u past act →
            Follows policy (P.rules policy) net u r.0 (acted (P.rules policy) net carried u past act)) }
        ensures says { IfOk result (λ r. (policy : P) (net : Net) (u : ℕ) (carried : Carried) (past : Chronicle) →
            StandsFor policy (P.rules policy) net u self past → MayDo net u past act → outputs.old ≡ [] →
            Says u past (Goes (acted (P.rules policy) net carried u past act)) r.1 outputs.new) }
    {
        let before = self.parts.snapshots.epoch();
        let node = self.act(act, outputs)?;
        let due = risen(before, node.parts.snapshots.epoch());
        Ok((node, Answer::Did(due)))
    }

    /// Does the act that was decided, or answers the reason.
    fn follow(
        self,
        decided: Result<Duty, Reason>,
        outputs: &mut OutputList,
    ) -> Result<(Node<P>, Answer), NoMemory>
        ensures node { IfOk result (λ r. (policy : P) (net : Net) (u : ℕ) (carried : Carried) (past : Chronicle) (input : RunInput) →
            StandsFor policy (P.rules policy) net u self past → IsDecided (P.rules policy) net u past input decided →
            Follows policy (P.rules policy) net u r.0
            (chronicle_of past (answer (P.rules policy) net carried u past input))) }
        ensures says { IfOk result (λ r. (policy : P) (net : Net) (u : ℕ) (carried : Carried) (past : Chronicle) (input : RunInput) →
            StandsFor policy (P.rules policy) net u self past → IsDecided (P.rules policy) net u past input decided → outputs.old ≡ [] →
            Says u past (answer (P.rules policy) net carried u past input) r.1 outputs.new) }
    {
        match decided {
            Ok(act) => self.perform(act, outputs),
            Err(reason) => Ok((self, Answer::Idle(reason))),
        }
    }

    /// Takes an item of a neighbour, where the node holds the session and the item is the next one.
    #[inline(always)]
    fn receive(
        self,
        from: NodeId,
        session: Session,
        item: Item,
        outputs: &mut OutputList,
    ) -> Result<(Node<P>, Answer), NoMemory>
        ensures node { IfOk result (λ r. (policy : P) (net : Net) (u : ℕ) (carried : Carried) (past : Chronicle) →
            StandsFor policy (P.rules policy) net u self past → MayCome net u (Arrive from session (item_of item)) →
            Follows policy (P.rules policy) net u r.0
            (chronicle_of past (answer (P.rules policy) net carried u past (Arrive from session (item_of item))))) }
        ensures says { IfOk result (λ r. (policy : P) (net : Net) (u : ℕ) (carried : Carried) (past : Chronicle) →
            StandsFor policy (P.rules policy) net u self past → MayCome net u (Arrive from session (item_of item)) → outputs.old ≡ [] →
            Says u past (answer (P.rules policy) net carried u past (Arrive from session (item_of item))) r.1 outputs.new) }
    {
        if let Some(reason) = self.declines(from, session, &item) {
            return Ok((self, Answer::Idle(reason)));
        }
        self.perform(
            Duty::Take {
                from,
                session,
                item,
            },
            outputs,
        )
    }

    /// The part in the agreements handles the input, and its messages go out. Stops where it would propose a value with
    /// more triggers than one may have.
    fn ask(self, asked: Asked, outputs: &mut OutputList) -> Result<(Node<P>, Answer), Stop>
        ensures node { IfOk result (λ r. (policy : P) (net : Net) (u : ℕ) (carried : Carried) (past : Chronicle) →
            StandsFor policy (P.rules policy) net u self past →
            Follows policy (P.rules policy) net u r.0
            (chronicle_of past (answer (P.rules policy) net carried u past (asked_of asked)))) }
        ensures says { IfOk result (λ r. (policy : P) (net : Net) (u : ℕ) (carried : Carried) (past : Chronicle) →
            StandsFor policy (P.rules policy) net u self past → outputs.old ≡ [] →
            Says u past (answer (P.rules policy) net carried u past (asked_of asked)) r.1 outputs.new) }
        ensures stopped { IfErr result (λ stop. (policy : P) (net : Net) (u : ℕ) (carried : Carried) (past : Chronicle) →
            StandsFor policy (P.rules policy) net u self past →
            StopsAt (limit_before_marks (P.rules policy) net u (answer (P.rules policy) net carried u past (asked_of asked))) stop) }
    {
        let due = asked.decides();
        let Node { log, parts } = self;
        let (parts, reply) = consult_parts(Box::into_inner(parts), asked)?;
        if proposes_large(&reply) {
            return Err(Stop::Limit(LimitKind::Triggers, MOST_TRIGGERS));
        }
        let parts = parts.boxed()?;
        let node = Node { log, parts };
        match reply {
            Reply::Idle(reason) => Ok((node, Answer::Idle(reason))),
            Reply::Sent(mails) => {
                mail_all(mails, outputs)?;
                Ok((node, Answer::Did(due)))
            }
        }
    }

    /// The answer of the node to an input, before it publishes a table.
    #[inline(always)]
    pub(crate) fn answer(
        self,
        input: Input,
        outputs: &mut OutputList,
    ) -> Result<(Node<P>, Answer), Stop>
        ensures node { IfOk result (λ r. (policy : P) (net : Net) (u : ℕ) (carried : Carried) (past : Chronicle) →
            StandsFor policy (P.rules policy) net u self past → MayCome net u (input_of input) →
            Follows policy (P.rules policy) net u r.0
            (chronicle_of past (answer (P.rules policy) net carried u past (input_of input)))) }
        ensures says { IfOk result (λ r. (policy : P) (net : Net) (u : ℕ) (carried : Carried) (past : Chronicle) →
            StandsFor policy (P.rules policy) net u self past → MayCome net u (input_of input) → outputs.old ≡ [] →
            Says u past (answer (P.rules policy) net carried u past (input_of input)) r.1 outputs.new) }
        ensures stopped { IfErr result (λ stop. (policy : P) (net : Net) (u : ℕ) (carried : Carried) (past : Chronicle) →
            StandsFor policy (P.rules policy) net u self past → MayCome net u (input_of input) →
            StopsAt (limit_before_marks (P.rules policy) net u (answer (P.rules policy) net carried u past (input_of input))) stop) }
    {
        match input {
            Input::Arrive {
                from,
                session,
                item,
            } => Ok(self.receive(from, session, item, outputs)?),
            Input::Propose(epoch) => self.ask(Asked::Propose(epoch), outputs),
            Input::Control { from, message } => self.ask(Asked::Hear { from, message }, outputs),
            Input::Inject { id, prefix } => Ok(self.pass(Passing::Enter { id, prefix }, outputs)?),
            Input::Hop { packet, up } => Ok(self.pass(Passing::GoOn { packet, up }, outputs)?),
            Input::Originate(prefix) => {
                let decided = self.decide_originating(prefix);
                Ok(self.follow(decided, outputs)?)
            }
            Input::Withdraw(prefix) => {
                let decided = self.decide_withdrawing(prefix);
                Ok(self.follow(decided, outputs)?)
            }
            Input::Prefer { nbr, value } => {
                let scope = Scope::All;
                let cause = Cause::Prefer { nbr, value };
                let decided = Ok(Duty::Enter { scope, cause });
                Ok(self.follow(decided, outputs)?)
            }
            Input::Notice(nbr) => {
                let decided = self.decide_closing(nbr);
                Ok(self.follow(decided, outputs)?)
            }
            Input::OpenSession { nbr, session } => {
                let decided = self.decide_opening(nbr, session);
                Ok(self.follow(decided, outputs)?)
            }
            Input::Flush(nbr) => {
                let decided = self.decide_flushing(nbr);
                Ok(self.follow(decided, outputs)?)
            }
            Input::Snap => {
                let epoch = self.next_epoch();
                let decided = Ok(Duty::Rise { epoch });
                Ok(self.follow(decided, outputs)?)
            }
        }
    }
}
