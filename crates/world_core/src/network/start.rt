//! A network before its first event.
ghost use Rattle.std.specs.Prelude.{◌≡◌, [], IfOk};
ghost use Rattle.world_core.specs.Matching.{AreCrashed, AreNodes, Stands};
ghost use Rattle.world_core.specs.Counting.{no_deliveries};

use crate::network::Network;
use control_mail::Mails;
use link_model::Links;
use node_core::{Node, OutputList};
use path_vector::Policy;
use run_record::Walks;
use std::alloc::Global;
use std::rc::Rc;
use topology::{NoMemory, Topology};

// The nodes before the first event, each at its rank.
fn fresh_nodes<P: Policy + Copy>(
    alloc: Global,
    topology: &Rc<Topology>,
    policy: P,
) -> Result<Vec<Node<P>>, NoMemory>
    ensures { IfOk result (λ nodes. AreNodes policy (P.rules policy) topology.now.value [] nodes.items) }
{
    let mut nodes = Vec::new(alloc);
    for id in topology.nodes() {
        nodes.push(Node::new(alloc, topology.clone()?, *id, policy)?)?;
    }
    Ok(nodes)
}

// The flags of crashed nodes before the first event: no node is crashed.
fn running(alloc: Global, topology: &Topology) -> Result<Vec<bool>, NoMemory>
    ensures { IfOk result (λ flags. AreCrashed topology.now [] flags.items) }
{
    Ok(vec![in alloc; false; topology.nodes().len()]?)
}

impl<P: Policy + Copy> Network<P> {
    /// The network before its first event.
    pub fn new(alloc: Global, topology: Rc<Topology>, policy: P) -> Result<Network<P>, NoMemory>
        ensures stands { IfOk result (λ network. Stands (P.rules network.policy) [] no_deliveries network) }
        ensures policy { IfOk result (λ network. network.policy ≡ policy) }
        ensures topology { IfOk result (λ network. network.topology.value ≡ topology.value) }
    {
        let nodes = fresh_nodes(alloc, &topology, policy)?;
        let crashed = running(alloc, &topology)?;
        let links = Links::new(alloc, &topology)?;
        let mails = Mails::new(alloc, &topology)?;
        Ok(Network {
            alloc,
            topology,
            policy,
            nodes,
            crashed,
            links,
            mails,
            publications: Vec::new(alloc),
            walks: Walks::new(alloc),
            triggers: 0,
            outputs: OutputList::new(alloc),
        })
    }
}
