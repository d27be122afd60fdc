//! The table of the grammar: the words that begin a line, how many words such a line has, on which side of `begin` it
//! stands, and the words after `show` and `transient`. `specs/Table.antt` is its definition.
ghost use Rattle.std.specs.Prelude.{◌≡◌, ◌≢◌, true, false, Some, IfSome, IfNone};
ghost use Rattle.std.specs.List.{AllByRecursion};
ghost use Rattle.schedule_file.specs.Directives.{plain_directive, epoch_directive};
ghost use Rattle.schedule_file.specs.Spelling.{relation_text};
ghost use Rattle.schedule_file.specs.Table.{keyword_in, keyword_text, keyword_words, network_keywords, event_keywords, order_keywords, view_text, scheme_text, plain_text, epoch_text, shape_of, may_stand};

use crate::directives::{Directive, node_event, origin_event, pair_event};
use topology::{Epoch, NodeId, Prefix, Relation};

/// What `show` writes about the run so far.
#[derive(Clone, Copy, Debug, PartialEq, Eq)]
pub enum PlainView {
    Rib,
    Log,
    Control,
}

/// What `show` writes about one epoch.
#[derive(Clone, Copy, Debug, PartialEq, Eq)]
pub enum EpochView {
    Cut,
    Closure,
    Tables,
}

/// The word after `show`.
#[derive(Clone, Copy, Debug, PartialEq, Eq)]
pub enum View {
    Plain(PlainView),
    OfEpoch(EpochView),
    /// The walk of one packet.
    Walk,
}

/// The word after `transient`.
#[derive(Clone, Copy, Debug, PartialEq, Eq)]
pub enum SchemeName {
    Deflect,
    /// The word is followed by a node.
    Detour,
    Backup,
}

/// The kinds of lines, by first word.
#[derive(Clone, Copy, Debug, PartialEq, Eq)]
pub enum Keyword {
    Node,
    Link,
    Pref,
    Hold,
    Prefix,
    Hops,
    Transient,
    Begin,
    /// An event of a node and a prefix, or a probe.
    Origin,
    /// An event of one node.
    Single,
    /// An event of two nodes.
    Pair,
    Prefer,
    Propose,
    Drain,
    Control,
    Inject,
    Hop,
    Show,
}

/// Which lines are allowed at a place of a file.
#[derive(Clone, Copy, Debug, PartialEq, Eq)]
pub enum Part {
    /// Lines that describe the network, up to `begin`.
    Network,
    /// Lines that say what happens.
    Run,
    /// No line with words.
    Over,
}

/// Where lines of one keyword stand, and how many words they have.
#[derive(Clone, Copy, Debug, PartialEq, Eq)]
pub struct Shape {
    /// Whether they stand after `begin`.
    pub directs: bool,
    /// The least and the greatest number of words, including the first.
    pub least: usize,
    pub most: usize,
}

/// The kind of line that the word begins.
pub fn keyword_named(word: &[u8]) -> Option<Keyword>
    ensures { result ≡ keyword_in word.now }
{
    if let Some(keyword) = declaring_named(word) {
        return Some(keyword);
    }
    if let Some(keyword) = event_named(word) {
        return Some(keyword);
    }
    ordering_named(word)
}

// The kind of line that the word begins, if such lines stand up to `begin`.
fn declaring_named(word: &[u8]) -> Option<Keyword>
    ensures some { IfSome result (λ keyword. word.now ≡ keyword_text keyword) }
    ensures none { IfNone result (AllByRecursion (λ keyword. word.now ≢ keyword_text keyword) network_keywords) }
{
    match word {
        b"node" => Some(Keyword::Node),
        b"link" => Some(Keyword::Link),
        b"pref" => Some(Keyword::Pref),
        b"hold" => Some(Keyword::Hold),
        b"prefix" => Some(Keyword::Prefix),
        b"hops" => Some(Keyword::Hops),
        b"transient" => Some(Keyword::Transient),
        b"begin" => Some(Keyword::Begin),
        _ => None,
    }
}

// The kind of line that the word begins, if only names follow the word.
fn event_named(word: &[u8]) -> Option<Keyword>
    ensures some { IfSome result (λ keyword. keyword_in word.now ≡ Some keyword) }
    ensures none { IfNone result (AllByRecursion
        (λ keyword. AllByRecursion (λ text. word.now ≢ text) (keyword_words keyword)) event_keywords) }
{
    // the kind does not depend on the names
    let node = NodeId::default();
    let prefix = Prefix { bits: 0, len: 0 };
    if origin_event(word, node, prefix).is_some() {
        return Some(Keyword::Origin);
    }
    if node_event(word, node).is_some() {
        return Some(Keyword::Single);
    }
    if pair_event(word, node, node).is_some() {
        return Some(Keyword::Pair);
    }
    None
}

// The kind of line after `begin` that the word begins, if more than names may follow the word.
fn ordering_named(word: &[u8]) -> Option<Keyword>
    ensures some { IfSome result (λ keyword. word.now ≡ keyword_text keyword) }
    ensures none { IfNone result (AllByRecursion (λ keyword. word.now ≢ keyword_text keyword) order_keywords) }
{
    match word {
        b"prefer" => Some(Keyword::Prefer),
        b"propose" => Some(Keyword::Propose),
        b"drain" => Some(Keyword::Drain),
        b"ctl" => Some(Keyword::Control),
        b"inject" => Some(Keyword::Inject),
        b"hop" => Some(Keyword::Hop),
        b"show" => Some(Keyword::Show),
        _ => None,
    }
}

/// The view that the word after `show` names.
pub fn view_named(word: &[u8]) -> Option<View>
    ensures some { IfSome result (λ view. word.now ≡ view_text view) }
    ensures none { IfNone result ((view : View) → word.now ≢ view_text view) }
{
    if let Some(view) = PlainView::named(word) {
        return Some(View::Plain(view));
    }
    if let Some(view) = EpochView::named(word) {
        return Some(View::OfEpoch(view));
    }
    match word {
        b"walk" => Some(View::Walk),
        _ => None,
    }
}

/// The scheme that the word after `transient` names.
pub fn scheme_named(word: &[u8]) -> Option<SchemeName>
    ensures some { IfSome result (λ name. word.now ≡ scheme_text name) }
    ensures none { IfNone result ((name : SchemeName) → word.now ≢ scheme_text name) }
{
    match word {
        b"deflect" => Some(SchemeName::Deflect),
        b"detour" => Some(SchemeName::Detour),
        b"backup" => Some(SchemeName::Backup),
        _ => None,
    }
}

/// The relation that the word names.
pub fn relation_named(word: &[u8]) -> Option<Relation>
    ensures some { IfSome result (λ relation. word.now ≡ relation_text relation) }
    ensures none { IfNone result ((relation : Relation) → word.now ≢ relation_text relation) }
{
    match word {
        b"customer" => Some(Relation::Customer),
        b"provider" => Some(Relation::Provider),
        b"peer" => Some(Relation::Peer),
        b"any" => Some(Relation::Any),
        _ => None,
    }
}

/// The word for the relation.
pub fn relation_word(relation: Relation) -> &'static str
    ensures { result.now ≡ relation_text relation }
{
    match relation {
        Relation::Customer => "customer",
        Relation::Provider => "provider",
        Relation::Peer => "peer",
        Relation::Any => "any",
    }
}

impl Part {
    /// Whether such a line may stand here.
    pub fn takes(self, shape: &Shape) -> bool
        ensures { result ≡ may_stand self shape.now }
    {
        match self {
            Part::Network => !shape.directs,
            Part::Run => shape.directs,
            Part::Over => false,
        }
    }
}

impl Shape {
    // A line before `begin`.
    fn declares(least: usize, most: usize) -> Shape
        ensures { result ≡ record { directs = false; least = least; most = most } }
    {
        Shape {
            directs: false,
            least,
            most,
        }
    }

    // A line after `begin`.
    fn directs(least: usize, most: usize) -> Shape
        ensures { result ≡ record { directs = true; least = least; most = most } }
    {
        Shape {
            directs: true,
            least,
            most,
        }
    }
}

impl Keyword {
    /// The shape of its lines. Which words may follow the first is decided where they are read.
    pub fn shape(self) -> Shape
        ensures { result ≡ shape_of self }
    {
        match self {
            Keyword::Node => Shape::declares(2, 3),
            Keyword::Link | Keyword::Pref => Shape::declares(4, 4),
            Keyword::Hold => Shape::declares(3, 3),
            Keyword::Prefix | Keyword::Hops => Shape::declares(2, 2),
            Keyword::Transient => Shape::declares(2, 3),
            Keyword::Begin => Shape::declares(1, 1),
            Keyword::Origin | Keyword::Pair | Keyword::Propose => Shape::directs(3, 3),
            Keyword::Prefer | Keyword::Inject => Shape::directs(4, 4),
            Keyword::Single | Keyword::Drain => Shape::directs(2, 2),
            Keyword::Control | Keyword::Hop | Keyword::Show => Shape::directs(2, 3),
        }
    }
}

impl PlainView {
    // The view that the word names.
    fn named(word: &[u8]) -> Option<PlainView>
        ensures some { IfSome result (λ view. word.now ≡ plain_text view) }
        ensures none { IfNone result ((view : PlainView) → word.now ≢ plain_text view) }
    {
        match word {
            b"rib" => Some(PlainView::Rib),
            b"log" => Some(PlainView::Log),
            b"ctl" => Some(PlainView::Control),
            _ => None,
        }
    }

    /// The word for the view.
    pub fn word(self) -> &'static str
        ensures { result.now ≡ plain_text self }
    {
        match self {
            PlainView::Rib => "rib",
            PlainView::Log => "log",
            PlainView::Control => "ctl",
        }
    }

    pub fn directive(self) -> Directive<Prefix>
        ensures { result ≡ plain_directive self }
    {
        match self {
            PlainView::Rib => Directive::ShowRib,
            PlainView::Log => Directive::ShowLog,
            PlainView::Control => Directive::ShowControl,
        }
    }
}

impl EpochView {
    // The view that the word names.
    fn named(word: &[u8]) -> Option<EpochView>
        ensures some { IfSome result (λ view. word.now ≡ epoch_text view) }
        ensures none { IfNone result ((view : EpochView) → word.now ≢ epoch_text view) }
    {
        match word {
            b"cut" => Some(EpochView::Cut),
            b"closure" => Some(EpochView::Closure),
            b"tables" => Some(EpochView::Tables),
            _ => None,
        }
    }

    /// The word for the view.
    pub fn word(self) -> &'static str
        ensures { result.now ≡ epoch_text self }
    {
        match self {
            EpochView::Cut => "cut",
            EpochView::Closure => "closure",
            EpochView::Tables => "tables",
        }
    }

    /// The directive of this epoch.
    pub fn directive(self, epoch: Epoch) -> Directive<Prefix>
        ensures { result ≡ epoch_directive self epoch }
    {
        match self {
            EpochView::Cut => Directive::ShowCut(epoch),
            EpochView::Closure => Directive::ShowClosure(epoch),
            EpochView::Tables => Directive::ShowTables(epoch),
        }
    }
}

impl SchemeName {
    /// The first word of its lines.
    pub fn word(self) -> &'static str
        ensures { result.now ≡ scheme_text self }
    {
        match self {
            SchemeName::Deflect => "deflect",
            SchemeName::Detour => "detour",
            SchemeName::Backup => "backup",
        }
    }
}
