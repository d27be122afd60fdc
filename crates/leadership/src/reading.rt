//! Reads one line of a script from its words.
ghost use Rattle.std.specs.Prelude.{ℕ, ◌≡◌, ◌≢◌, true, false, suc, List, [], ◌∷◌, length, IfOk, IfErr, IfSome, IfNone, OnOk, OnErr, None, Some};
ghost use Rattle.topology.specs.declared.status.BadKind.TheVariants.{BadNumber, UnknownWord};
ghost use Rattle.schedule_file.specs.Standing.{Holds};
ghost use Rattle.schedule_file.specs.Words.{number_of, spells_number};
ghost use Rattle.topology.specs.declared.limits.TheConstants.{HIGHEST_VALUE};
ghost use Rattle.leadership.specs.declared.scripts.Keyword.{Keyword as Word};
ghost use Rattle.leadership.specs.declared.scripts.Keyword.TheVariants as keyword;
ghost use Rattle.leadership.specs.Scripts.{directs, keyword_in, keyword_text, line_of, may_have, word_fault};
ghost use Rattle.leadership.specs.Parsing.{HasForm, ReadsAs};

use crate::events::LeadEvent;
use crate::scripts::{Directive, Keyword, Line};
use schedule_file::words::{Words, epoch_of, message_of, node_of, times_of};
use text_lines::read_number;
use topology::BadKind;
use topology::limits::HIGHEST_VALUE;

// The kind of line that the word begins.
fn keyword_named(word: &[u8]) -> Option<Keyword>
    ensures some { IfSome result (λ keyword. word.now ≡ keyword_text keyword) }
    ensures none { IfNone result ((keyword : Word) → word.now ≢ keyword_text keyword) }
{
    if let Some(keyword) = declaring_named(word) {
        return Some(keyword);
    }
    directing_named(word)
}

// The kind of line that the word begins, if such lines stand up to `begin`.
fn declaring_named(word: &[u8]) -> Option<Keyword>
    ensures some { IfSome result (λ keyword. word.now ≡ keyword_text keyword) }
    ensures none { IfNone result ((keyword : Word) → directs keyword ≡ false → word.now ≢ keyword_text keyword) }
{
    match word {
        b"member" => Some(Keyword::Member),
        b"begin" => Some(Keyword::Begin),
        _ => None,
    }
}

// The kind of line that the word begins, if such lines stand after `begin`.
fn directing_named(word: &[u8]) -> Option<Keyword>
    ensures some { IfSome result (λ keyword. word.now ≡ keyword_text keyword) }
    ensures none { IfNone result ((keyword : Word) → directs keyword ≡ true → word.now ≢ keyword_text keyword) }
{
    match word {
        b"lead" => Some(Keyword::Lead),
        b"offer" => Some(Keyword::Offer),
        b"ctl" => Some(Keyword::Control),
        b"crash" => Some(Keyword::Crash),
        b"restart" => Some(Keyword::Restart),
        b"show" => Some(Keyword::Show),
        _ => None,
    }
}

// The kind of line that the word begins, or the fault of the word.
fn keyword_of(word: &[u8]) -> Result<Keyword, BadKind>
    ensures ok { IfOk result (λ keyword. keyword_in word.now ≡ Some keyword) }
    ensures err { OnErr result (keyword_in word.now ≡ None) }
    ensures kind { IfErr result (λ kind. kind ≡ UnknownWord) }
{
    match keyword_named(word) {
        Some(keyword) => Ok(keyword),
        None => Err(BadKind::UnknownWord),
    }
}

// Whether lines of the keyword stand after `begin`.
fn directs(keyword: Keyword) -> bool
    ensures { result ≡ directs keyword }
{
    match keyword {
        Keyword::Member | Keyword::Begin => false,
        Keyword::Lead
        | Keyword::Offer
        | Keyword::Control
        | Keyword::Crash
        | Keyword::Restart
        | Keyword::Show => true,
    }
}

// Whether such a line may have so many words.
fn may_have(keyword: Keyword, count: usize) -> bool
    ensures { result ≡ may_have keyword count }
{
    match keyword {
        Keyword::Begin => count == 1,
        Keyword::Member | Keyword::Crash | Keyword::Restart => count == 2,
        Keyword::Lead => count == 3,
        Keyword::Offer => count == 4,
        Keyword::Control | Keyword::Show => count == 2 || count == 3,
    }
}

// Checks that the line stands on its side of `begin` and has a permitted number of words.
fn check_form(keyword: Keyword, words: &Words<'_>, begun: bool) -> Result<(), BadKind>
    ensures count { OnOk result (may_have keyword words.now.count ≡ true) }
    ensures form { (word : List ℕ) (rest : List (List ℕ)) → Holds words.now (word ∷ rest)
        → HasForm begun keyword rest result }
{
    let here = if directs(keyword) { begun } else { !begun };
    if !here {
        return Err(BadKind::NotHere);
    }
    if !may_have(keyword, words.count) {
        return Err(BadKind::WrongCount);
    }
    Ok(())
}

// A value.
fn value_of(word: &[u8]) -> Result<u32, BadKind>
    ensures ok { IfOk result (λ value. value ≡ number_of word.now) }
    ensures fine { OnOk result (spells_number 0 HIGHEST_VALUE word.now ≡ true) }
    ensures err { OnErr result (spells_number 0 HIGHEST_VALUE word.now ≡ false) }
    ensures kind { IfErr result (λ kind. kind ≡ BadNumber) }
{
    match read_number(word, HIGHEST_VALUE) {
        Some(value) => Ok(value),
        None => Err(BadKind::BadNumber),
    }
}

// The line `member` from the word after it.
fn member_line(node: &[u8]) -> Result<Line, BadKind>
    ensures { ReadsAs keyword.Member (node.now ∷ []) result }
{
    let node = node_of(node)?;
    Ok(Line::Member(node))
}

// The line `lead` from the words after it.
fn lead_line(node: &[u8], epoch: &[u8]) -> Result<Line, BadKind>
    ensures { ReadsAs keyword.Lead (node.now ∷ epoch.now ∷ []) result }
{
    let node = node_of(node)?;
    let epoch = epoch_of(epoch)?;
    Ok(Line::Directs(Directive::Event(LeadEvent::Lead { node, epoch })))
}

// The line `offer` from the words after it.
fn offer_line(node: &[u8], epoch: &[u8], value: &[u8]) -> Result<Line, BadKind>
    ensures { ReadsAs keyword.Offer (node.now ∷ epoch.now ∷ value.now ∷ []) result }
{
    let node = node_of(node)?;
    let epoch = epoch_of(epoch)?;
    let value = value_of(value)?;
    Ok(Line::Directs(Directive::Event(LeadEvent::Offer { node, epoch, value })))
}

// The line `ctl` with one more word.
fn control_line(number: &[u8]) -> Result<Line, BadKind>
    ensures { ReadsAs keyword.Control (number.now ∷ []) result }
{
    let number = message_of(number)?;
    Ok(Line::Directs(Directive::Event(LeadEvent::Control { number })))
}

// The line `ctl` with two more words.
fn deliveries_line(all: &[u8], times: &[u8]) -> Result<Line, BadKind>
    ensures { ReadsAs keyword.Control (all.now ∷ times.now ∷ []) result }
{
    if all != b"all".as_slice() {
        return Err(BadKind::UnknownWord);
    }
    let times = times_of(times)?;
    Ok(Line::Directs(Directive::Deliveries(times)))
}

// The line `crash` from the word after it.
fn crash_line(node: &[u8]) -> Result<Line, BadKind>
    ensures { ReadsAs keyword.Crash (node.now ∷ []) result }
{
    let node = node_of(node)?;
    Ok(Line::Directs(Directive::Event(LeadEvent::Crash { node })))
}

// The line `restart` from the word after it.
fn restart_line(node: &[u8]) -> Result<Line, BadKind>
    ensures { ReadsAs keyword.Restart (node.now ∷ []) result }
{
    let node = node_of(node)?;
    Ok(Line::Directs(Directive::Event(LeadEvent::Restart { node })))
}

// The line `show` with one more word.
fn show_line(view: &[u8]) -> Result<Line, BadKind>
    ensures { ReadsAs keyword.Show (view.now ∷ []) result }
{
    if view != b"chosen".as_slice() {
        return Err(BadKind::UnknownWord);
    }
    Ok(Line::Directs(Directive::ShowChosen))
}

// The line `show` with two more words. It has a fault: no view has a further word.
fn long_show_line(view: &[u8], more: &[u8]) -> Result<Line, BadKind>
    ensures { ReadsAs keyword.Show (view.now ∷ more.now ∷ []) result }
{
    if view != b"chosen".as_slice() {
        return Err(BadKind::UnknownWord);
    }
    Err(BadKind::WrongCount)
}

// The line of a keyword, whose number of words was checked.
fn line_of(keyword: Keyword, words: &Words<'_>) -> Result<Line, BadKind>
    requires { may_have keyword words.now.count ≡ true }
    ensures { (word : List ℕ) (rest : List (List ℕ)) → Holds words.now (word ∷ rest)
        → ReadsAs keyword rest result }
{
    match keyword {
        Keyword::Member => member_line(words.second),
        Keyword::Begin => Ok(Line::Begin),
        Keyword::Lead => lead_line(words.second, words.third),
        Keyword::Offer => offer_line(words.second, words.third, words.fourth),
        Keyword::Control if words.count == 3 => deliveries_line(words.second, words.third),
        Keyword::Control => control_line(words.second),
        Keyword::Crash => crash_line(words.second),
        Keyword::Restart => restart_line(words.second),
        Keyword::Show if words.count == 3 => long_show_line(words.second, words.third),
        Keyword::Show => show_line(words.second),
    }
}

/// The line that the words spell on their side of `begin`, or `None` without words; otherwise the first fault of the
/// words. Members are not looked up.
pub(crate) fn read_line(words: &Words<'_>, begun: bool) -> Result<Option<Line>, BadKind>
    ensures ok { IfOk result (λ line. (all : List (List ℕ)) → Holds words.now all → line ≡ line_of all) }
    ensures fine { OnOk result ((all : List (List ℕ)) → Holds words.now all → word_fault begun all ≡ None) }
    ensures err { IfErr result (λ kind. (all : List (List ℕ))
        → Holds words.now all → word_fault begun all ≡ Some kind) }
{
    if words.count == 0 {
        return Ok(None);
    }
    let keyword = keyword_of(words.first)?;
    check_form(keyword, words, begun)?;
    let line = line_of(keyword, words)?;
    Ok(Some(line))
}
