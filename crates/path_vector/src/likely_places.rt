//! Guesses at the places of a node's neighbours.
ghost use Rattle.std.specs.Prelude.{◌<◌};

use topology::NodeId;

// The number of guesses.
const SLOTS: usize = 64;

/// Guesses at the place of each node in a list, found by the low bits of the node's number. All guesses are right if no
/// two nodes share these bits. The caller must check a guess, and search where it is wrong.
#[derive(Clone, Copy, Debug)]
pub struct LikelyPlaces {
    places: [u8; SLOTS],
}

// The index of the guess for a node.
fn slot_of(node: NodeId) -> usize
    ensures { result < 64 }
{
    node.number() as usize % SLOTS
}

impl LikelyPlaces {
    /// The guesses for the nodes of a list.
    pub fn of(nodes: &[NodeId]) -> LikelyPlaces {
        let mut places = [0; SLOTS];
        for place in 0..nodes.len().min(256) {
            places[slot_of(nodes[place])] = place as u8;
        }
        LikelyPlaces { places }
    }

    /// The place of the node, if it is in the list and no other node has overwritten its guess.
    pub fn guess(&self, node: NodeId) -> usize
        ensures { result < 256 }
    {
        self.places[slot_of(node)] as usize
    }
}
