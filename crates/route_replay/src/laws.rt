//! What holds of the text of each run. A call of a law brings what it says into the caller's proof.
ghost use Rattle.std.specs.Prelude.{ℕ, ◌≡◌, List};
ghost use Rattle.std.specs.List.{concat};
ghost use Rattle.topology.specs.Net.{Net};
ghost use Rattle.path_vector.specs.Rules.{Rules};
ghost use Rattle.chronicle.specs.declared.events.Event.{Event};
ghost use Rattle.schedule_file.specs.declared.lines.Numbered.{Numbered};
ghost use Rattle.route_replay.specs.Text.{text, texts};

/// The texts of the directives, one behind the other, are the text of the run.
pub fn the_texts_are_the_text()
    ensures { (rules : Rules) (net : Net) (events : List Event) (lines : List Numbered) →
        concat (texts rules net events lines) ≡ text rules net events lines }
{}
