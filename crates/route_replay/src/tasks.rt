//! What directives ask for.
ghost use Rattle.std.specs.Prelude.{◌≡◌};
ghost use Rattle.route_replay.specs.Text.{hops_of, task_of};

use crate::node_views::NodeView;
use crate::views::View;
use schedule_file::Directive;
use world_core::Event;

/// What a directive asks for.
#[derive(Clone, Copy, Debug, PartialEq, Eq)]
pub enum Task {
    Event(Event),
    /// At most so many deliveries, each the next one when its turn comes.
    Deliveries(u32),
    /// At most so many control messages, each the next one when its turn comes.
    ControlMessages(u32),
    /// At most so many hops of a packet, up to one that does nothing, or that ends its walk.
    Hops { packet: u32, times: u32 },
    Show(View),
}

// One hop is an event of its own line.
fn hops_of(packet: u32, times: Option<u32>) -> Task
    ensures { result ≡ hops_of packet times }
{
    match times {
        None => Task::Event(Event::Hop { packet }),
        Some(times) => Task::Hops { packet, times },
    }
}

/// The task of a directive.
pub fn task_of(directive: &Directive) -> Task
    ensures { result ≡ task_of directive.now }
{
    match *directive {
        Directive::Originate { node, prefix } => Task::Event(Event::Originate { node, prefix }),
        Directive::Withdraw { node, prefix } => Task::Event(Event::Withdraw { node, prefix }),
        Directive::Prefer { node, nbr, value } => Task::Event(Event::Prefer { node, nbr, value }),
        Directive::Deliver { from, to } => Task::Event(Event::Deliver { from, to }),
        Directive::Fail { a, b } => Task::Event(Event::Fail { a, b }),
        Directive::Restore { a, b } => Task::Event(Event::Restore { a, b }),
        Directive::Notice { node, nbr } => Task::Event(Event::Notice { node, nbr }),
        Directive::OpenSession { node, nbr } => Task::Event(Event::OpenSession { node, nbr }),
        Directive::Flush { node, nbr } => Task::Event(Event::Flush { node, nbr }),
        Directive::Snap { node } => Task::Event(Event::Snap { node }),
        Directive::Propose { node, epoch } => Task::Event(Event::Propose { node, epoch }),
        Directive::Control { number } => Task::Event(Event::Control { number }),
        Directive::Crash { node } => Task::Event(Event::Crash { node }),
        Directive::Restart { node } => Task::Event(Event::Restart { node }),
        Directive::Inject {
            packet,
            node,
            prefix,
        } => Task::Event(Event::Inject {
            packet,
            node,
            prefix,
        }),
        Directive::Hop { packet, times } => hops_of(packet, times),
        Directive::Drain { times } => Task::Deliveries(times),
        Directive::ControlAll { times } => Task::ControlMessages(times),
        Directive::ShowRib => Task::Show(View::Nodes(NodeView::Rib)),
        Directive::ShowLog => Task::Show(View::Nodes(NodeView::Log)),
        Directive::ShowCut(epoch) => Task::Show(View::Nodes(NodeView::Cut(epoch))),
        Directive::ShowControl => Task::Show(View::Control),
        Directive::ShowClosure(epoch) => Task::Show(View::Closure(epoch)),
        Directive::ShowTables(epoch) => Task::Show(View::Tables(epoch)),
        Directive::ShowWalk(packet) => Task::Show(View::Walk(packet)),
        Directive::Probe { node, prefix } => Task::Show(View::Probe { node, prefix }),
    }
}
