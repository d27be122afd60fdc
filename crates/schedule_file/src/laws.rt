//! Laws of every schedule file. A call of a law gives the caller's proof what the law says.
ghost use Rattle.std.specs.Prelude.{ℕ, ◌≡◌, ◌↔◌, None, List, [], IsTrue};
ghost use Rattle.topology.specs.declared.status.BadKind.{BadKind};
ghost use Rattle.topology.specs.Net.{Net, IsValid};
ghost use Rattle.schedule_file.specs.Spelling.{words_by_line};
ghost use Rattle.schedule_file.specs.Lines.{Spells};
ghost use Rattle.schedule_file.specs.Grammar.{IsFile, IsTopologyFile, ReadsIn, allowed};
ghost use Rattle.schedule_file.specs.Refusals.{refusal, FirstBad, FirstBadIn, FirstBadOfTopology};
ghost use Rattle.schedule_file.specs.Printing.{printed, IsSame, IsFileAgain};
ghost use Rattle.schedule_file.specs.declared.lines.Line.{Line};
ghost use Rattle.schedule_file.specs.declared.lines.Schedule.{Schedule};
ghost use Rattle.schedule_file.specs.declared.table.Part.{Part};

/// Words have no fault exactly where they spell a line that may follow the earlier ones.
#[tactic(auto, using(crate::proofs::Steps::allowed_line, crate::proofs::Steps::refused_none))]
pub fn refused_is_not_allowed()
    ensures { (behind : Part) (earlier : List Line) (words : List (List ℕ))
        → (refusal behind earlier words ≡ None) ↔ ((line : Line) × Spells words line × IsTrue (allowed behind earlier line)) }
{}

/// Words spell at most one line, and a text at most one list of lines. So a file has at most one schedule.
#[tactic(auto, using(crate::proofs::Spellings::one_line, crate::proofs::Readings::one_list, crate::proofs::Readings::same_topology, crate::proofs::Readings::same_directives, crate::proofs::Readings::same_network))]
pub fn readings_are_unique()
    ensures line { (words : List (List ℕ)) (line other : Line)
        → Spells words line → Spells words other → line ≡ other }
    ensures lines { (behind : Part) (text : List ℕ) (lines others : List Line)
        → ReadsIn behind [] (words_by_line text) lines → ReadsIn behind [] (words_by_line text) others
        → lines ≡ others }
    ensures topology { (text : List ℕ) (schedule other : Schedule)
        → IsFile text schedule → IsFile text other → schedule.topology ≡ other.topology }
    ensures directives { (text : List ℕ) (schedule other : Schedule)
        → IsFile text schedule → IsFile text other → schedule.lines.items ≡ other.lines.items }
    ensures network { (text : List ℕ) (net other : Net)
        → IsTopologyFile text net → IsTopologyFile text other → net ≡ other }
{}

/// The file of a schedule has no first bad line, and every other text has at most one.
#[tactic(auto, using(crate::proofs::Readings::no_file, crate::proofs::Readings::no_topology, crate::proofs::Readings::same_number, crate::proofs::Readings::same_kind))]
pub fn bad_lines_are_first()
    ensures file { (text : List ℕ) (schedule : Schedule) (line : ℕ) (kind : BadKind)
        → IsFile text schedule → FirstBad text line kind → ⊥ }
    ensures topology { (text : List ℕ) (net : Net) (line : ℕ) (kind : BadKind)
        → IsTopologyFile text net → FirstBadOfTopology text line kind → ⊥ }
    ensures line { (behind : Part) (text : List ℕ) (line other : ℕ) (kind last : BadKind)
        → FirstBadIn behind text line kind → FirstBadIn behind text other last → line ≡ other }
    ensures kind { (behind : Part) (text : List ℕ) (line other : ℕ) (kind last : BadKind)
        → FirstBadIn behind text line kind → FirstBadIn behind text other last → kind ≡ last }
{}

/// A printed schedule is read back as the same schedule, except for the line numbers.
pub fn printed_is_read_again()
    ensures printed { (schedule : Schedule) (bytes : List ℕ) → IsValid schedule.topology → IsFile bytes schedule
        → IsFileAgain (printed schedule.topology schedule.lines.items) schedule }
    ensures same { (text : List ℕ) (schedule other : Schedule)
        → IsFileAgain text schedule → IsFile text other → IsSame schedule other }
    ensures good { (text : List ℕ) (schedule : Schedule) (line : ℕ) (kind : BadKind)
        → IsFileAgain text schedule → FirstBad text line kind → ⊥ }
{}
