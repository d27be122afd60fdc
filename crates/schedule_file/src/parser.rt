//! Reads a schedule file.
ghost use Rattle.std.specs.Prelude.{ℕ, suc, ◌≡◌, ◌≤◌, ◌<◌, ◌-◌, ◌^◌, Some, true, List, [], length, slice_range, IfOk, IfErr, OnOk};
ghost use Rattle.text_lines.specs.Words.{words_of};
ghost use Rattle.topology.specs.declared.status.BadKind.{BadKind};
ghost use Rattle.topology.specs.Net.{Net};
ghost use Rattle.schedule_file.specs.Grammar.{IsRead, IsFile, IsTopologyFile, AreDirected, stands};
ghost use Rattle.schedule_file.specs.Refusals.{FirstBad, FirstBadOfTopology};
ghost use Rattle.schedule_file.specs.Standing.{IsAfter, Takes, Refuses, TakesLine, RefusesLine, TakesText};
ghost use Rattle.schedule_file.specs.Ends.{SaysWhy, IsWantOfMemory, IsBadOrMemory};
ghost use Rattle.schedule_file.specs.Lines.{InRange};
ghost use Rattle.schedule_file.specs.declared.lines.Schedule.{Schedule};
ghost use Rattle.schedule_file.specs.declared.table.Part.TheVariants.{Run, Over};

use crate::lines::{Line, Numbered, Schedule};
use crate::names::{Refusal, declare, look_up};
use crate::reading::read_line;
use crate::table::Part;
use crate::words::words_of;
use std::alloc::Global;
use text_lines::{Line as Span, Lines};
use topology::{BadKind, Topology};

/// Why the bytes are not a schedule.
#[derive(Clone, Copy, Debug, PartialEq, Eq)]
pub enum ParseEnd {
    NoMemory,
    /// The first bad line, counted from 1, and its fault.
    Bad { line: u32, kind: BadKind },
}

// The part of a schedule that was read so far.
#[derive(Drop)]
struct Draft {
    schedule: Schedule,
    /// Which lines may come next.
    part: Part,
    /// Which lines may come after `begin`.
    behind: Part,
}

impl Draft {
    // Nothing was read so far; `behind` says which lines may come after `begin`.
    fn new(alloc: Global, behind: Part) -> Draft
        ensures start { IsAfter result [] }
        ensures behind { result.behind ≡ behind }
    {
        Draft {
            schedule: Schedule {
                topology: Topology::empty(alloc),
                lines: Vec::new(alloc),
            },
            part: Part::Network,
            behind,
        }
    }

    // Takes one line, if it may stand here.
    fn take(&mut self, number: u32, line: &Line) -> Result<(), Refusal>
        requires in_range { InRange line.now }
        requires place { stands self.old.part line.now ≡ true }
        ensures ok { OnOk result (Takes self.old number line.now self.new) }
        ensures behind { OnOk result (self.new.behind ≡ self.old.behind) }
        ensures err { IfErr result (Refuses self.old line.now) }
    {
        match line {
            Line::Blank => {}
            Line::Begin => self.part = self.behind,
            Line::Declares(declaration) => declare(&mut self.schedule.topology, declaration)?,
            Line::Directs(directive) => {
                let directive = look_up(&self.schedule.topology, directive)?;
                let numbered = Numbered {
                    line: number,
                    directive,
                };
                if self.schedule.lines.push(numbered).is_err() {
                    return Err(Refusal::NoMemory);
                }
            }
        }
        Ok(())
    }

    // Takes the next line of the text.
    fn take_line(&mut self, text: &[u8], line: Span) -> Result<(), Refusal>
        requires ordered { line.start ≤ line.end }
        requires inside { line.end ≤ length text.now }
        ensures ok { let words = words_of (slice_range text.now line.start line.end) in
            OnOk result (TakesLine self.old line.number words self.new) }
        ensures behind { OnOk result (self.new.behind ≡ self.old.behind) }
        ensures err { let words = words_of (slice_range text.now line.start line.end) in
            IfErr result (RefusesLine self.old words) }
    {
        let words = words_of(text, line);
        match read_line(&words, self.part) {
            Ok(read) => self.take(line.number, &read),
            Err(kind) => Err(Refusal::Bad(kind)),
        }
    }

    // Takes all lines of the text.
    fn take_lines(&mut self, text: &[u8]) -> Result<(), ParseEnd>
        requires short { length text.now < 2 ^ 32 - 1 }
        requires start { IsAfter self.old [] }
        ensures ok { OnOk result (TakesText self.old text.now self.new) }
        ensures err { IfErr result (SaysWhy self.old.behind text.now) }
    {
        let mut lines = Lines::new(text);
        while let Some(line) = lines.next() {
            match self.take_line(text, line) {
                Ok(()) => {}
                Err(Refusal::NoMemory) => return Err(ParseEnd::NoMemory),
                Err(Refusal::Bad(kind)) => {
                    return Err(ParseEnd::Bad {
                        line: line.number,
                        kind,
                    });
                }
            }
        }
        Ok(())
    }
}

// Reads all lines of the text; `behind` says which lines may come after `begin`.
fn read(alloc: Global, text: &[u8], behind: Part) -> Result<Schedule, ParseEnd>
    requires { length text.now < 2 ^ 32 - 1 }
    ensures ok { IfOk result (λ schedule. IsRead behind text.now schedule) }
    ensures err { IfErr result (SaysWhy behind text.now) }
{
    let mut draft = Draft::new(alloc, behind);
    if let Err(end) = draft.take_lines(text) {
        // as a call, the drop is proved once for each type, and its collections are not opened here
        drop(draft);
        return Err(end);
    }
    Ok(draft.schedule)
}

/// The schedule that the bytes spell, or else the first bad line and its fault. Takes time linear in the bytes.
pub fn parse(alloc: Global, text: &[u8]) -> Result<Schedule, ParseEnd>
    requires { length text.now < 2 ^ 32 - 1 }
    ensures ok { IfOk result (IsFile text.now) }
    ensures err { IfErr result (SaysWhy Run text.now) }
    // directives name only what the network has
    ensures follow { IfOk result (λ schedule. AreDirected schedule.topology schedule.lines.items) }
    // a valid file is refused only if memory runs out
    ensures complete { (schedule : Schedule) → IsFile text.now schedule → IfErr result IsWantOfMemory }
    // the first bad line is named, unless memory runs out before
    ensures named { (line : ℕ) (kind : BadKind) → FirstBad text.now line kind → IsBadOrMemory line kind result }
{
    read(alloc, text, Part::Run)
}

/// The network that the bytes describe, in a file where nothing follows `begin`, or else the first bad line and its
/// fault. Takes time linear in the bytes.
pub fn parse_topology(alloc: Global, text: &[u8]) -> Result<Topology, ParseEnd>
    requires { length text.now < 2 ^ 32 - 1 }
    ensures ok { IfOk result (IsTopologyFile text.now) }
    ensures err { IfErr result (SaysWhy Over text.now) }
    // a valid file is refused only if memory runs out
    ensures complete { (net : Net) → IsTopologyFile text.now net → IfErr result IsWantOfMemory }
    // the first bad line is named, unless memory runs out before
    ensures named { (line : ℕ) (kind : BadKind) → FirstBadOfTopology text.now line kind → IsBadOrMemory line kind result }
{
    let Schedule { topology, lines: _ } = read(alloc, text, Part::Over)?;
    Ok(topology)
}
