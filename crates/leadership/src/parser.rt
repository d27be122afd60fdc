//! Reads a script.
ghost use Rattle.std.specs.Prelude.{ℕ, ◌≡◌, ◌<◌, ◌≤◌, ◌-◌, ◌^◌, true, None, Some, List, length, slice_range, IfOk, IfErr, OnOk};
ghost use Rattle.text_lines.specs.Words.{words_of};
ghost use Rattle.topology.specs.Paths.{differ};
ghost use Rattle.schedule_file.specs.Standing.{NamesFault};
ghost use Rattle.leadership.specs.Parsing.{AllKnown, SaysWhy, Takes, before_of};
ghost use Rattle.leadership.specs.declared.scripts.Line.TheVariants as said;
ghost use Rattle.leadership.specs.Fits.{fits};
ghost use Rattle.leadership.specs.Scripts.{directives_of, fault, first_bad, is_known, line_of, member_fault, members_of, name_fault};

use crate::events::LeadEvent;
use crate::reading::read_line;
use crate::scripts::{Directive, Line, Numbered, Script};
use schedule_file::names::Refusal;
use schedule_file::words::words_of;
use std::alloc::Global;
use text_lines::{Line as Span, Lines};
use topology::limits::MOST_MEMBERS;
use topology::{BadKind, NodeId, NodeSet};

/// Why the bytes are not a script.
#[derive(Clone, Copy, Debug, PartialEq, Eq)]
pub enum ScriptEnd {
    NoMemory,
    /// The first bad line, counted from 1, and its fault.
    Bad { line: u32, kind: BadKind },
}

// The part of a script that was read so far.
#[derive(Drop)]
struct Draft {
    members: NodeSet,
    begun: bool,
    directives: Vec<Numbered>,
}

// Whether the node of the event, if it has one, is a member.
fn fits(members: &NodeSet, event: &LeadEvent) -> bool
    ensures { result ≡ fits members.now.nodes event.now }
{
    match event {
        LeadEvent::Lead { node, epoch: _ } => members.contains(*node),
        LeadEvent::Offer {
            node,
            epoch: _,
            value: _,
        } => members.contains(*node),
        LeadEvent::Control { number: _ } => true,
        LeadEvent::Crash { node } => members.contains(*node),
        LeadEvent::Restart { node } => members.contains(*node),
    }
}

// Whether the directive names only members.
fn is_known(members: &NodeSet, directive: &Directive) -> bool
    ensures { result ≡ is_known members.now.nodes directive.now }
{
    match directive {
        Directive::Event(event) => fits(members, event),
        Directive::Deliveries(_) => true,
        Directive::ShowChosen => true,
    }
}

impl Draft {
    // Takes one more member.
    fn declare(&mut self, node: NodeId) -> Result<(), Refusal>
        ensures ok { OnOk result ((number : ℕ) → Takes self.old number (Some (said.Member node)) self.new) }
        ensures fine { OnOk result (member_fault self.old.members.nodes node ≡ None) }
        ensures err { IfErr result (λ why. NamesFault why (member_fault self.old.members.nodes node)) }
    {
        if self.members.contains(node) {
            return Err(Refusal::Bad(BadKind::DuplicateNode));
        }
        if self.members.len() >= MOST_MEMBERS {
            return Err(Refusal::Bad(BadKind::TooMany));
        }
        let Ok(()) = self.members.reserve() else {
            return Err(Refusal::NoMemory);
        };
        self.members.add(node);
        Ok(())
    }

    // Takes one more directive.
    fn direct(&mut self, line: u32, directive: &Directive) -> Result<(), Refusal>
        ensures ok { OnOk result (Takes self.old line (Some (said.Directs directive.now)) self.new) }
        ensures fine { OnOk result (is_known self.old.members.nodes directive.now ≡ true) }
        ensures err { IfErr result (λ why. NamesFault why (name_fault self.old.members.nodes (said.Directs directive.now))) }
    {
        if !is_known(&self.members, directive) {
            return Err(Refusal::Bad(BadKind::UnknownNode));
        }
        let numbered = Numbered {
            line,
            directive: *directive,
        };
        if self.directives.push(numbered).is_err() {
            return Err(Refusal::NoMemory);
        }
        Ok(())
    }

    // Takes one line, if it may stand here.
    fn take(&mut self, number: u32, line: &Line) -> Result<(), Refusal>
        ensures ok { OnOk result (Takes self.old number (Some line.now) self.new) }
        ensures fine { OnOk result (name_fault self.old.members.nodes line.now ≡ None) }
        ensures err { IfErr result (λ why. NamesFault why (name_fault self.old.members.nodes line.now)) }
    {
        match line {
            Line::Member(node) => self.declare(*node),
            Line::Begin => {
                self.begun = true;
                Ok(())
            }
            Line::Directs(directive) => self.direct(number, directive),
        }
    }

    // Takes the next line of the text.
    fn take_line(&mut self, text: &[u8], line: Span) -> Result<(), Refusal>
        requires ordered { line.start ≤ line.end }
        requires inside { line.end ≤ length text.now }
        ensures ok { let words = words_of (slice_range text.now line.start line.end) in
            OnOk result (Takes self.old line.number (line_of words) self.new) }
        ensures fine { let words = words_of (slice_range text.now line.start line.end) in
            OnOk result (fault (before_of self.old) words ≡ None) }
        ensures err { let words = words_of (slice_range text.now line.start line.end) in
            IfErr result (λ why. NamesFault why (fault (before_of self.old) words)) }
    {
        let words = words_of(text, line);
        let read = match read_line(&words, self.begun) {
            Ok(read) => read,
            Err(kind) => return Err(Refusal::Bad(kind)),
        };
        match read {
            None => Ok(()),
            Some(read) => self.take(line.number, &read),
        }
    }
}

/// The script that the bytes spell, or else the first bad line and its fault. Takes time linear in the bytes.
pub fn parse(alloc: Global, text: &[u8]) -> Result<Script, ScriptEnd>
    requires { length text.now < 2 ^ 32 - 1 }
    ensures members { IfOk result (λ script. script.members.nodes ≡ members_of text.now) }
    ensures directives { IfOk result (λ script. script.directives.items ≡ directives_of text.now) }
    ensures good { OnOk result (first_bad text.now ≡ None) }
    // no member is declared twice
    ensures apart { IfOk result (λ script. differ script.members.nodes ≡ true) }
    // the directives name only members
    ensures known { IfOk result (λ script. AllKnown script.members.nodes script.directives.items) }
    ensures err { IfErr result (SaysWhy text.now) }
{
    let mut draft = Draft {
        members: NodeSet::empty(alloc),
        begun: false,
        directives: Vec::new(alloc),
    };
    let mut lines = Lines::new(text);
    while let Some(line) = lines.next() {
        match draft.take_line(text, line) {
            Ok(()) => {}
            Err(Refusal::NoMemory) => return Err(ScriptEnd::NoMemory),
            Err(Refusal::Bad(kind)) => {
                return Err(ScriptEnd::Bad {
                    line: line.number,
                    kind,
                });
            }
        }
    }
    let Draft {
        members,
        begun: _,
        directives,
    } = draft;
    Ok(Script {
        members,
        directives,
    })
}
