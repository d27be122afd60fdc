//! Gives a node of the network an input.
ghost use Rattle.std.specs.Prelude.{ℕ, ◌≡◌, ◌<◌, ◌≤◌, true, false, Some, length, slice_get, OnOk, IfOk, IfErr};
ghost use Rattle.topology.specs.Lists.{ascending, has};
ghost use Rattle.topology.specs.Net.{Net};
ghost use Rattle.chronicle.specs.Control.{mailed};
ghost use Rattle.chronicle.specs.Facts.{Chronicle};
ghost use Rattle.chronicle.specs.Run.{chronicle_of, given};
ghost use Rattle.topology.specs.declared.limits.TheConstants.{MOST_CONTROL, MOST_MARKS, MOST_PACKETS};
ghost use Rattle.node_core.specs.Inputs.{input_of};
ghost use Rattle.node_core.specs.NodeLimits.{has_more_marks};
ghost use Rattle.world_core.specs.Happening.{IsAfterStep, IsAsWas, MayHand, Stops};
ghost use Rattle.world_core.specs.Matching.{AreMails, AreNodes, Counts, Stands};
ghost use Rattle.world_core.specs.Places.{HasPlaces};
ghost use Rattle.chronicle.specs.Walks.{packets};
ghost use Rattle.run_record.specs.Walks.{AreWalks};

use crate::network::Network;
use crate::network::limits::{counted, is_local, stop_of};
use crate::network::turns::turn;
use node_core::{Input, Stop};
use path_vector::Policy;
use run_record::{Effects, Outcome, Wanted};
use topology::limits::{MOST_CONTROL, MOST_MARKS, MOST_PACKETS};
use topology::{LimitKind, NodeId};

impl<P: Policy + Copy> Network<P> {
    // Stops where more control messages were sent than a run may have.
    fn check_control(&self) -> Result<(), Stop>
        ensures ok { OnOk result ((past : Chronicle) (counts : Counts) →
            AreMails self.now.topology.value past counts self.now.mails → length (mailed past) ≤ MOST_CONTROL) }
        ensures stopped { IfErr result (λ stop. (stop ≡ Stop.Limit LimitKind.Control MOST_CONTROL) × ((past : Chronicle) (counts : Counts) →
            AreMails self.now.topology.value past counts self.now.mails → MOST_CONTROL < length (mailed past))) }
    {
        if self.mails.count() > MOST_CONTROL {
            return Err(Stop::Limit(LimitKind::Control, MOST_CONTROL));
        }
        Ok(())
    }

    // Stops where more packets entered the network than a run may have.
    fn check_packets(&self) -> Result<(), Stop>
        ensures ok { OnOk result ((past : Chronicle) → AreWalks self.now.topology.value past self.now.walks → packets past ≤ MOST_PACKETS) }
        ensures stopped { IfErr result (λ stop. (stop ≡ Stop.Limit LimitKind.Packets MOST_PACKETS) × ((past : Chronicle) →
            AreWalks self.now.topology.value past self.now.walks → MOST_PACKETS < packets past)) }
    {
        if self.walks.count() > MOST_PACKETS as usize {
            return Err(Stop::Limit(LimitKind::Packets, MOST_PACKETS));
        }
        Ok(())
    }

    // Stops where the node at this rank has more marks than it may.
    #[inline(always)]
    fn check_marks(&self, rank: usize) -> Result<(), Stop>
        requires { rank < length self.now.nodes.items }
        ensures ok { OnOk result ((policy : P) (net : Net) (past : Chronicle) (u : ℕ) →
            AreNodes policy (P.rules policy) net past self.now.nodes.items → slice_get (ascending net.nodes) rank ≡ Some u →
            has_more_marks (P.rules policy) net u past ≡ false) }
        ensures stopped { IfErr result (λ stop. (stop ≡ Stop.Limit LimitKind.Marks MOST_MARKS) × ((policy : P) (net : Net) (past : Chronicle) (u : ℕ) →
            AreNodes policy (P.rules policy) net past self.now.nodes.items → slice_get (ascending net.nodes) rank ≡ Some u →
            has_more_marks (P.rules policy) net u past ≡ true)) }
    {
        match self.nodes[rank].check_marks() {
            Ok(()) => Ok(()),
            Err(_) => Err(Stop::Limit(LimitKind::Marks, MOST_MARKS)),
        }
    }

    /// The node handles the input, and the network handles the node's outputs. Lists the effects where the caller wants
    /// them. After an `Err` the network is of no use.
    #[inline(always)]
    pub fn give(&mut self, node: NodeId, input: Input, wanted: Wanted) -> Result<Outcome, Stop>
        requires node { has self.old.topology.value.nodes node ≡ true }
        requires places { HasPlaces self.old.topology.value (length self.old.nodes.items) }
        ensures others { OnOk result (IsAsWas self.old self.new) }
        ensures stands { OnOk result ((past : Chronicle) (counts : Counts) →
            MayHand (P.rules self.old.policy) past counts node (input_of input) self.old →
            Stands (P.rules self.old.policy)
            (chronicle_of past (given (P.rules self.old.policy) self.old.topology.value past node (input_of input))) counts self.new) }
        ensures comes { IfOk result (λ outcome. wanted ≡ Wanted.Effects → (past : Chronicle) (counts : Counts) →
            MayHand (P.rules self.old.policy) past counts node (input_of input) self.old →
            IsAfterStep (P.rules self.old.policy) past counts (given (P.rules self.old.policy) self.old.topology.value past node (input_of input)) self.new outcome) }
        ensures stopped { IfErr result (λ stop. (past : Chronicle) (counts : Counts) →
            MayHand (P.rules self.old.policy) past counts node (input_of input) self.old →
            Stops (P.rules self.old.policy) self.old.topology.value past
            (given (P.rules self.old.policy) self.old.topology.value past node (input_of input)) stop) }
    {
        node_core::laws::others_change_nothing_of_what_a_node_stands_for::<P>();
        let rank = self.topology.rank_of(node).unwrap();
        let is_local = is_local(&input);
        let before = self.nodes[rank].log().next_trigger().count;
        let idle = match turn(&mut self.nodes, rank, input, &mut self.outputs) {
            Ok(idle) => idle,
            Err(stop) => return Err(stop_of(self.triggers, is_local, stop)),
        };
        if let Some(reason) = idle {
            return Ok(Outcome::Idle(reason));
        }
        let after = self.nodes[rank].log().next_trigger().count;
        self.triggers = counted(self.triggers, before, after)?;
        let effects = self.hand_all(node, wanted)?;
        self.check_control()?;
        self.check_packets()?;
        self.check_marks(rank)?;
        Ok(Outcome::Did(effects))
    }
}
