//! Laws of every run of a world. A call of a law brings its statement into the caller's proof.
ghost use Rattle.std.specs.Prelude.{◌≡◌, ◌<◌, None, List, length};
ghost use Rattle.topology.specs.Net.{Net, IsValid};
ghost use Rattle.path_vector.specs.Rules.{Rules};
ghost use Rattle.chronicle.specs.declared.events.Event.{Event};
ghost use Rattle.chronicle.specs.Run.{chronicle_of, run, step};
ghost use Rattle.topology.specs.declared.limits.TheConstants.{MOST_EVENTS};
ghost use Rattle.run_record.specs.declared.outcomes.Outcome.{Outcome};
ghost use Rattle.run_record.specs.Effects.{Tells};
ghost use Rattle.world_core.specs.Happening.{IsRegular, ListsAreShort};
ghost use Rattle.world_core.specs.Limits.{limit_of};
ghost use Rattle.world_core.specs.Sound.{IsNoStray, IsSound};
ghost use Rattle.world_core.specs.Stepping.{IsStep};
ghost use Rattle.world_core.specs.Throughout.{HoldsThroughout};

use agreement_laws::laws as of_agreement;
use cut_laws::laws;
use delivery_laws::laws as of_delivery;
use drop_laws::laws as of_drops;
use rest_laws::laws as of_rest;
use walk_laws::laws as of_walks;

/// After any events, the network is sound.
pub fn every_run_is_sound()
    ensures { (rules : Rules) (net : Net) (events : List Event) → IsValid net →
        IsSound rules net (run rules net events) }
{
    laws::a_node_says_what_its_log_sends();
    laws::a_link_keeps_the_order();
    laws::a_channel_is_what_was_queued_and_not_taken();
    laws::a_link_is_up_where_failures_and_restorings_are_even();
    laws::both_ends_see_one_link();
    laws::received_paths_begin_with_their_senders();
    laws::the_cuts_of_an_epoch_fit_together();
    laws::a_recording_lists_what_is_missing();
    of_drops::the_cuts_of_an_epoch_are_at_rest_as_told();
    of_drops::what_was_dropped_is_not_seen();
    of_rest::the_tables_of_a_value_continue();
    of_drops::a_run_is_agreed();
    of_walks::a_run_is_walked();
    of_delivery::deflection_delivers();
}

/// The network is sound at each moment of a run. A node publishes a table in the step that completes its cut and the
/// decision, and in no other step.
pub fn a_run_holds_throughout()
    ensures { (rules : Rules) (net : Net) (events : List Event) → IsValid net → HoldsThroughout rules net events }
{
    every_run_is_sound();
    of_agreement::a_table_is_published_in_time();
}

/// What the code of a step rests on, while the run has fewer events than it may have: the receiver may enter the first
/// item of each way, and no list of triggers is too long. What holds of the step: its outcome is no reason that only a
/// node without a world meets, and within the limits it is a step as `IsStep` says.
pub fn a_step_is_lawful()
    ensures regular { (rules : Rules) (net : Net) (events : List Event) → IsValid net → length events < MOST_EVENTS →
        IsRegular net (run rules net events) }
    ensures lists { (rules : Rules) (net : Net) (events : List Event) (event : Event) → IsValid net →
        let past = run rules net events in ListsAreShort rules net (chronicle_of past (step rules net past event)) }
    ensures reasons { (rules : Rules) (net : Net) (events : List Event) (event : Event) (what : Outcome) → IsValid net →
        length events < MOST_EVENTS →
        let past = run rules net events in Tells past (step rules net past event) what → IsNoStray what }
    ensures step { (rules : Rules) (net : Net) (events : List Event) (event : Event) → IsValid net →
        limit_of rules net events event ≡ None → IsStep rules net events event }
{
    every_run_is_sound();
    laws::the_front_item_is_the_next();
    laws::what_arrives_may_be_heard();
    laws::sessions_are_few();
    laws::no_world_is_out_of_turn();
    of_agreement::rounds_are_few();
    of_agreement::values_have_few_triggers();
    of_agreement::triggers_are_given();
    of_agreement::a_table_is_published_in_time();
}
