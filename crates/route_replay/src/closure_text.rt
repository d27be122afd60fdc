//! The text of the value of an epoch.
ghost use Rattle.std.specs.Prelude.{ℕ, ◌≡◌, ◌++◌, [], ◌∷◌, map, IfErr, IfOk, OnOk};
ghost use Rattle.std.specs.Rc.{rc_value};
ghost use Rattle.std.specs.String.{string_bytes};
ghost use Rattle.topology.specs.Lists.{ascending};
ghost use Rattle.topology.specs.Net.{Net};
ghost use Rattle.incomplete_closure.specs.Seen.{reports_seen};
ghost use Rattle.incomplete_closure.specs.Together.{OfOneEpoch};
ghost use Rattle.chronicle.specs.Facts.{Chronicle};
ghost use Rattle.node_core.specs.Standing.{StandsFor};
ghost use Rattle.agreement_laws.specs.Decided.{told_reports};
ghost use Rattle.route_replay.specs.ClosureText.{closure_text};
ghost use Rattle.route_replay.specs.Gathering.{Breaks, Gathers, page_view};
ghost use Rattle.route_replay.specs.Past.{past_of};
ghost use Rattle.route_replay.specs.ShownClosure.{IsCurrent};

use crate::ends::RunEnd;
use crate::node_views::node_of;
use crate::page::Page;
use crate::shown_closure::{ShownClosure, line_of};
use incomplete_closure::{Report, uncounted_closure};
use node_core::Node;
use path_vector::Policy;
use route_io::Sink;
use std::alloc::Global;
use std::rc::Rc;
use topology::{Epoch, NoMemory};
use view_words::numbers::push_number;
use view_words::values::value_words;
use world_core::World;

// Adds what a node reported of its cut of the epoch, where it has one.
fn add_report<P: Policy + Copy>(
    list: &mut Vec<Rc<Report>>,
    node: &Node<P>,
    epoch: Epoch,
) -> Result<(), NoMemory>
    ensures { OnOk result ((policy : P) (net : Net) (u : ℕ) (past : Chronicle) →
        StandsFor policy (P.rules policy) net u node.now past →
        reports_seen (map rc_value list.new.items)
        ≡ reports_seen (map rc_value list.old.items) ++ told_reports (P.rules policy) net past epoch (u ∷ [])) }
{
    if let Some(report) = node.report(epoch) {
        list.push(report.clone()?)?;
    }
    Ok(())
}

// The reports of an epoch: those of the nodes that have a cut of it, ascending. They are shared.
fn reports_of<P: Policy + Copy>(
    alloc: Global,
    world: &World<P>,
    epoch: Epoch,
) -> Result<Vec<Rc<Report>>, NoMemory>
    ensures reports { let rules = P.rules world.now.policy in
        IfOk result (λ list. reports_seen (map rc_value list.items)
        ≡ told_reports rules world.now.net (past_of rules world.now) epoch (ascending world.now.net.nodes)) }
    ensures together { IfOk result (λ list. OfOneEpoch (map rc_value list.items)) }
{
    let mut reports = Vec::new(alloc);
    for id in world.topology().nodes() {
        add_report(&mut reports, node_of(world, *id), epoch)?;
    }
    Ok(reports)
}

/// Adds the line of the value of an epoch, over the reports of all nodes that have a cut of it.
#[tactic(auto, unfolding(crate::specs::ClosureText::closure_text))]
pub(crate) fn closure_line<P: Policy + Copy>(
    out: &mut String,
    alloc: Global,
    world: &World<P>,
    epoch: Epoch,
) -> Result<(), NoMemory>
    ensures { let rules = P.rules world.now.policy in
        OnOk result (string_bytes out.new
        ≡ string_bytes out.old ++ closure_text rules world.now.net (past_of rules world.now) epoch) }
{
    let reports = reports_of(alloc, world, epoch)?;
    let value = uncounted_closure(alloc, &reports)?;
    out.push_str("closure ")?;
    push_number(out, epoch.number())?;
    out.push_str(": ")?;
    value_words(out, &value)?;
    out.push('\n')?;
    Ok(())
}

/// Adds the line of the value of an epoch, and keeps it: where it is kept already, it is not made anew.
pub(crate) fn add_closure<P: Policy + Copy, O: Sink>(
    page: &mut Page<'_, String, O>,
    alloc: Global,
    world: &World<P>,
    kept: &mut Option<ShownClosure>,
    epoch: Epoch,
) -> Result<(), RunEnd>
    requires { IsCurrent (P.rules world.now.policy) world.now.net world.now.events kept.old }
    ensures kept { IsCurrent (P.rules world.now.policy) world.now.net world.now.events kept.new }
    ensures gathers { let rules = P.rules world.now.policy in
        OnOk result (Gathers (page_view O.seen page.old) (page_view O.seen page.new)
        (closure_text rules world.now.net (past_of rules world.now) epoch)) }
    ensures breaks { let rules = P.rules world.now.policy in
        IfErr result (Breaks (O.seen page.old.sink.now) (O.seen page.new.sink.now)
        (string_bytes page.old.text ++ closure_text rules world.now.net (past_of rules world.now) epoch)) }
    ensures same_sink { page.new.sink.ghost_name ≡ page.old.sink.ghost_name }
{
    let line = line_of(alloc, world, kept.take(), epoch)?;
    page.text.push_str(&line.line)?;
    *kept = Some(line);
    Ok(())
}
