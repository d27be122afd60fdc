//! Laws of links. A call of a law gives the caller's proof what the law says.
ghost use Rattle.std.specs.Prelude.{ℕ, ◌≡◌, ◌≤◌, ◌++◌, ◌∷◌, [], false};
ghost use Rattle.topology.specs.declared.items.Item.{Item};
ghost use Rattle.topology.specs.Lists.{Begins};
ghost use Rattle.topology.specs.LinkStates.{is_up, number_of};
ghost use Rattle.link_model.specs.Acts.{LinkActs, Push, Restore};
ghost use Rattle.link_model.specs.Readings.{state, channel_after};

/// Both ends see the same state of the link.
pub fn both_ends_see_one_link()
    ensures { (a b : ℕ) (acts : LinkActs) → state a b acts ≡ state b a acts }
{}

/// The session number of a link never falls.
pub fn sessions_rise()
    ensures { (a b : ℕ) (newer acts : LinkActs) → number_of (state a b acts) ≤ number_of (state a b (newer ++ acts)) }
{}

/// Nothing is on its way over a link that is down.
pub fn a_link_that_is_down_is_empty()
    ensures { (a b : ℕ) (acts : LinkActs) → is_up (state a b acts) ≡ false → channel_after a b acts ≡ [] }
{}

/// A push and a restore take nothing out of a channel.
pub fn only_a_take_and_a_failure_empty()
    ensures push { (a b from to session : ℕ) (item : Item) (acts : LinkActs) →
        Begins (channel_after a b acts) (channel_after a b (Push from to session item ∷ acts)) }
    ensures restore { (a b c d : ℕ) (acts : LinkActs) →
        channel_after a b (Restore c d ∷ acts) ≡ channel_after a b acts }
{}
