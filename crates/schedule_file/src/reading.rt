//! Reads one line from its words.
ghost use Rattle.std.specs.Prelude.{ℕ, ◌≡◌, true, List, [], ◌∷◌, IfOk, IfErr, OnOk, Some};
ghost use Rattle.schedule_file.specs.declared.lines.Line.TheVariants.{Declares};
ghost use Rattle.schedule_file.specs.declared.lines.Declaration.TheVariants as declares;
ghost use Rattle.schedule_file.specs.declared.table.Keyword.TheVariants as keyword;
ghost use Rattle.schedule_file.specs.Lines.{Spells};
ghost use Rattle.schedule_file.specs.Table.{keyword_in, shape_of, may_have};
ghost use Rattle.schedule_file.specs.Grammar.{stands};
ghost use Rattle.schedule_file.specs.Refusals.{word_fault};
ghost use Rattle.schedule_file.specs.Standing.{Holds, ReadsFrom, ReadsAs, HasForm};

use crate::directives::{Directive, node_event, origin_event, pair_event};
use crate::lines::{Declaration, Line};
use crate::table::{Keyword, Part, SchemeName, Shape, View};
use crate::words::{
    Words, epoch_of, hops_of, keyword_of, message_of, node_of, packet_of, prefix_of, relation_of,
    scheme_of, times_of, value_of, view_of,
};
use topology::{BadKind, Scheme};

// Whether such a line may have so many words.
fn may_have(shape: &Shape, count: usize) -> bool
    ensures { result ≡ may_have shape.now count }
{
    shape.least <= count && count <= shape.most
}

// Checks that the line may stand here and has a permitted number of words.
fn check_form(keyword: Keyword, words: &Words<'_>, part: Part) -> Result<(), BadKind>
    ensures count { OnOk result (may_have (shape_of keyword) words.now.count ≡ true) }
    ensures form { (word : List ℕ) (rest : List (List ℕ)) → Holds words.now (word ∷ rest)
        → HasForm part keyword rest result }
{
    let shape = keyword.shape();
    if !part.takes(&shape) {
        return Err(BadKind::NotHere);
    }
    if !may_have(&shape, words.count) {
        return Err(BadKind::WrongCount);
    }
    Ok(())
}

// The line `node` with one more word.
fn node_line(id: &[u8]) -> Result<Line, BadKind>
    ensures { ReadsAs keyword.Node (id.now ∷ []) result }
{
    let id = node_of(id)?;
    Ok(Line::Declares(Declaration::Node {
        id,
        consolidator: false,
    }))
}

// The line `node` with two more words.
fn consolidator_line(id: &[u8], mark: &[u8]) -> Result<Line, BadKind>
    ensures { ReadsAs keyword.Node (id.now ∷ mark.now ∷ []) result }
{
    let id = node_of(id)?;
    if mark != b"consolidator".as_slice() {
        return Err(BadKind::UnknownWord);
    }
    Ok(Line::Declares(Declaration::Node {
        id,
        consolidator: true,
    }))
}

// The line `link` from the words after it.
fn link_line(a: &[u8], b: &[u8], relation: &[u8]) -> Result<Line, BadKind>
    ensures { ReadsAs keyword.Link (a.now ∷ b.now ∷ relation.now ∷ []) result }
{
    let a = node_of(a)?;
    let b = node_of(b)?;
    let relation = relation_of(relation)?;
    Ok(Line::Declares(Declaration::Link { a, b, relation }))
}

// The line `pref` from the words after it.
fn pref_line(a: &[u8], b: &[u8], value: &[u8]) -> Result<Line, BadKind>
    ensures { ReadsAs keyword.Pref (a.now ∷ b.now ∷ value.now ∷ []) result }
{
    let a = node_of(a)?;
    let b = node_of(b)?;
    let value = value_of(value)?;
    Ok(Line::Declares(Declaration::Pref { a, b, value }))
}

// The line `hold` from the words after it.
fn hold_line(a: &[u8], b: &[u8]) -> Result<Line, BadKind>
    ensures { ReadsAs keyword.Hold (a.now ∷ b.now ∷ []) result }
{
    let a = node_of(a)?;
    let b = node_of(b)?;
    Ok(Line::Declares(Declaration::Hold { a, b }))
}

// The line `prefix` from the word after it.
fn prefix_line(prefix: &[u8]) -> Result<Line, BadKind>
    ensures { ReadsAs keyword.Prefix (prefix.now ∷ []) result }
{
    let prefix = prefix_of(prefix)?;
    Ok(Line::Declares(Declaration::Prefix { prefix }))
}

// The line `hops` from the word after it.
fn hops_line(hops: &[u8]) -> Result<Line, BadKind>
    ensures { ReadsAs keyword.Hops (hops.now ∷ []) result }
{
    let hops = hops_of(hops)?;
    Ok(Line::Declares(Declaration::Hops { hops }))
}

// The line that sets this scheme.
fn set(scheme: Scheme) -> Line
    ensures { result ≡ Declares (declares.Transient scheme) }
{
    Line::Declares(Declaration::Transient { scheme })
}

// The line `transient` with one more word.
fn transient_line(name: &[u8]) -> Result<Line, BadKind>
    ensures { ReadsAs keyword.Transient (name.now ∷ []) result }
{
    match scheme_of(name)? {
        SchemeName::Deflect => Ok(set(Scheme::Deflect)),
        SchemeName::Detour => Err(BadKind::WrongCount),
        SchemeName::Backup => Ok(set(Scheme::Backup)),
    }
}

// The line `transient` with two more words.
fn transient_more_line(name: &[u8], more: &[u8]) -> Result<Line, BadKind>
    ensures { ReadsAs keyword.Transient (name.now ∷ more.now ∷ []) result }
{
    match scheme_of(name)? {
        SchemeName::Deflect => Err(BadKind::WrongCount),
        SchemeName::Detour => {
            let node = node_of(more)?;
            Ok(set(Scheme::Detour(node)))
        }
        SchemeName::Backup => Err(BadKind::WrongCount),
    }
}

// The line of an event of a node and a prefix, from its words.
fn origin_line(word: &[u8], node: &[u8], prefix: &[u8]) -> Result<Line, BadKind>
    requires { keyword_in word.now ≡ Some keyword.Origin }
    ensures { ReadsFrom keyword.Origin word.now (node.now ∷ prefix.now ∷ []) result }
{
    let node = node_of(node)?;
    let prefix = prefix_of(prefix)?;
    match origin_event(word, node, prefix) {
        Some(event) => Ok(Line::Directs(event)),
        None => Err(BadKind::UnknownWord),
    }
}

// The line of an event of one node, from its words.
fn single_line(word: &[u8], node: &[u8]) -> Result<Line, BadKind>
    requires { keyword_in word.now ≡ Some keyword.Single }
    ensures { ReadsFrom keyword.Single word.now (node.now ∷ []) result }
{
    let node = node_of(node)?;
    match node_event(word, node) {
        Some(event) => Ok(Line::Directs(event)),
        None => Err(BadKind::UnknownWord),
    }
}

// The line of an event of two nodes, from its words.
fn pair_line(word: &[u8], a: &[u8], b: &[u8]) -> Result<Line, BadKind>
    requires { keyword_in word.now ≡ Some keyword.Pair }
    ensures { ReadsFrom keyword.Pair word.now (a.now ∷ b.now ∷ []) result }
{
    let a = node_of(a)?;
    let b = node_of(b)?;
    match pair_event(word, a, b) {
        Some(event) => Ok(Line::Directs(event)),
        None => Err(BadKind::UnknownWord),
    }
}

// The line `prefer` from the words after it.
fn prefer_line(node: &[u8], nbr: &[u8], value: &[u8]) -> Result<Line, BadKind>
    ensures { ReadsAs keyword.Prefer (node.now ∷ nbr.now ∷ value.now ∷ []) result }
{
    let node = node_of(node)?;
    let nbr = node_of(nbr)?;
    let value = value_of(value)?;
    Ok(Line::Directs(Directive::Prefer { node, nbr, value }))
}

// The line `propose` from the words after it.
fn propose_line(node: &[u8], epoch: &[u8]) -> Result<Line, BadKind>
    ensures { ReadsAs keyword.Propose (node.now ∷ epoch.now ∷ []) result }
{
    let node = node_of(node)?;
    let epoch = epoch_of(epoch)?;
    Ok(Line::Directs(Directive::Propose { node, epoch }))
}

// The line `drain` from the word after it.
fn drain_line(times: &[u8]) -> Result<Line, BadKind>
    ensures { ReadsAs keyword.Drain (times.now ∷ []) result }
{
    let times = times_of(times)?;
    Ok(Line::Directs(Directive::Drain { times }))
}

// The line `ctl` with one more word.
fn control_line(number: &[u8]) -> Result<Line, BadKind>
    ensures { ReadsAs keyword.Control (number.now ∷ []) result }
{
    let number = message_of(number)?;
    Ok(Line::Directs(Directive::Control { number }))
}

// The line `ctl` with two more words.
fn control_all_line(all: &[u8], times: &[u8]) -> Result<Line, BadKind>
    ensures { ReadsAs keyword.Control (all.now ∷ times.now ∷ []) result }
{
    if all != b"all".as_slice() {
        return Err(BadKind::UnknownWord);
    }
    let times = times_of(times)?;
    Ok(Line::Directs(Directive::ControlAll { times }))
}

// The line `inject` from the words after it.
fn inject_line(packet: &[u8], node: &[u8], prefix: &[u8]) -> Result<Line, BadKind>
    ensures { ReadsAs keyword.Inject (packet.now ∷ node.now ∷ prefix.now ∷ []) result }
{
    let packet = packet_of(packet)?;
    let node = node_of(node)?;
    let prefix = prefix_of(prefix)?;
    Ok(Line::Directs(Directive::Inject {
        packet,
        node,
        prefix,
    }))
}

// The line `hop` with one more word.
fn hop_line(packet: &[u8]) -> Result<Line, BadKind>
    ensures { ReadsAs keyword.Hop (packet.now ∷ []) result }
{
    let packet = packet_of(packet)?;
    Ok(Line::Directs(Directive::Hop {
        packet,
        times: None,
    }))
}

// The line `hop` with two more words.
fn hop_times_line(packet: &[u8], times: &[u8]) -> Result<Line, BadKind>
    ensures { ReadsAs keyword.Hop (packet.now ∷ times.now ∷ []) result }
{
    let packet = packet_of(packet)?;
    let times = times_of(times)?;
    Ok(Line::Directs(Directive::Hop {
        packet,
        times: Some(times),
    }))
}

// The line `show` with one more word.
fn show_line(view: &[u8]) -> Result<Line, BadKind>
    ensures { ReadsAs keyword.Show (view.now ∷ []) result }
{
    match view_of(view)? {
        View::Plain(view) => Ok(Line::Directs(view.directive())),
        View::OfEpoch(_) => Err(BadKind::WrongCount),
        View::Walk => Err(BadKind::WrongCount),
    }
}

// The line `show` with two more words.
fn show_more_line(view: &[u8], more: &[u8]) -> Result<Line, BadKind>
    ensures { ReadsAs keyword.Show (view.now ∷ more.now ∷ []) result }
{
    match view_of(view)? {
        View::Plain(_) => Err(BadKind::WrongCount),
        View::OfEpoch(view) => {
            let epoch = epoch_of(more)?;
            Ok(Line::Directs(view.directive(epoch)))
        }
        View::Walk => {
            let packet = packet_of(more)?;
            Ok(Line::Directs(Directive::ShowWalk(packet)))
        }
    }
}

// The line of a keyword, whose number of words was checked.
fn line_of(keyword: Keyword, words: &Words<'_>) -> Result<Line, BadKind>
    requires named { keyword_in words.now.first.now ≡ Some keyword }
    requires count { may_have (shape_of keyword) words.now.count ≡ true }
    ensures { (word : List ℕ) (rest : List (List ℕ)) → Holds words.now (word ∷ rest)
        → ReadsFrom keyword word rest result }
{
    match keyword {
        Keyword::Node if words.count == 3 => consolidator_line(words.second, words.third),
        Keyword::Node => node_line(words.second),
        Keyword::Link => link_line(words.second, words.third, words.fourth),
        Keyword::Pref => pref_line(words.second, words.third, words.fourth),
        Keyword::Hold => hold_line(words.second, words.third),
        Keyword::Prefix => prefix_line(words.second),
        Keyword::Hops => hops_line(words.second),
        Keyword::Transient if words.count == 3 => transient_more_line(words.second, words.third),
        Keyword::Transient => transient_line(words.second),
        Keyword::Begin => Ok(Line::Begin),
        Keyword::Origin => origin_line(words.first, words.second, words.third),
        Keyword::Single => single_line(words.first, words.second),
        Keyword::Pair => pair_line(words.first, words.second, words.third),
        Keyword::Prefer => prefer_line(words.second, words.third, words.fourth),
        Keyword::Propose => propose_line(words.second, words.third),
        Keyword::Drain => drain_line(words.second),
        Keyword::Control if words.count == 3 => control_all_line(words.second, words.third),
        Keyword::Control => control_line(words.second),
        Keyword::Inject => inject_line(words.second, words.third, words.fourth),
        Keyword::Hop if words.count == 3 => hop_times_line(words.second, words.third),
        Keyword::Hop => hop_line(words.second),
        Keyword::Show if words.count == 3 => show_more_line(words.second, words.third),
        Keyword::Show => show_line(words.second),
    }
}

/// The line that the words spell, if it may stand in this part; otherwise the first fault of the words. Names are not
/// looked up.
pub fn read_line(words: &Words<'_>, part: Part) -> Result<Line, BadKind>
    ensures ok { IfOk result (λ line. (all : List (List ℕ)) → Holds words.now all → Spells all line) }
    ensures stands { IfOk result (λ line. (all : List (List ℕ)) → Holds words.now all → stands part line ≡ true) }
    ensures err { IfErr result (λ kind. (all : List (List ℕ))
        → Holds words.now all → word_fault part all ≡ Some kind) }
{
    if words.count == 0 {
        return Ok(Line::Blank);
    }
    let keyword = keyword_of(words.first)?;
    check_form(keyword, words, part)?;
    line_of(keyword, words)
}
