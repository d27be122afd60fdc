//! Members that agree, call by call, and whole scripts.
ghost use Rattle.std.specs.Prelude.{ℕ, ◌≡◌, [], ◌∷◌, IfOk};
ghost use Rattle.leadership.specs.declared.events.LeadEvent.TheVariants as event;

use super::ends::{sink_of, source_of};
use leadership::{LeadEvent, LeadReason, LeadStop, LeadWorld, lead as lead_script};
use std::alloc::Global;
use std::process::Abort;
use std::test::Fail;
use topology::{BadKind, Epoch, NoMemory, NodeId, Status};

fn world(alloc: Global) -> Result<LeadWorld, NoMemory>
    ensures { IfOk result (λ world. world.members ≡ 1 ∷ 2 ∷ 3 ∷ []) }
{
    LeadWorld::new(alloc, &[NodeId::new(1), NodeId::new(2), NodeId::new(3)])
}

fn lead(node: u16, epoch: u32) -> LeadEvent
    ensures { result ≡ event.Lead node epoch }
{
    LeadEvent::Lead {
        node: NodeId::new(node),
        epoch: Epoch::new(epoch),
    }
}

fn offer(node: u16, epoch: u32, value: u32) -> LeadEvent
    ensures { result ≡ event.Offer node epoch value }
{
    LeadEvent::Offer {
        node: NodeId::new(node),
        epoch: Epoch::new(epoch),
        value,
    }
}

#[test]
fn a_leader_gets_a_value_chosen(rt: HostRuntime) {
    let Ok(world) = world(rt.alloc()) else {
        panic!(rt; "no memory")
    };
    assert!(rt; world.next_mail() == None);
    let Ok((world, None)) = world.step(lead(1, 1)) else {
        panic!(rt; "no start")
    };
    assert!(rt; world.next_mail() == Some(1));
    assert!(rt; world.chosen(Epoch::new(1)) == None);
}

/// Delivers the next message, at most so many times.
fn deliver_all(mut world: LeadWorld, times: u32) -> Result<LeadWorld, LeadStop>
    ensures { IfOk result (λ later. later.members ≡ world.members) }
{
    for _ in 0..times {
        let Some(number) = world.next_mail() else {
            return Ok(world);
        };
        let (next, _) = world.step(LeadEvent::Control { number })?;
        world = next;
    }
    Ok(world)
}

fn deliver(world: LeadWorld, number: u32) -> Result<LeadWorld, LeadStop>
    ensures { IfOk result (λ later. later.members ≡ world.members) }
{
    let (world, _) = world.step(LeadEvent::Control { number })?;
    Ok(world)
}

fn two_leaders(
    world: LeadWorld,
) -> Result<(LeadWorld, Option<LeadReason>, Option<LeadReason>), LeadStop>
    requires { world.members ≡ 1 ∷ 2 ∷ 3 ∷ [] }
{
    let (world, _) = world.step(lead(1, 1))?;
    let world = deliver_all(world, 100)?;
    let (world, _) = world.step(offer(1, 3, 9))?;
    let world = deliver(world, 8)?;
    let (world, _) = world.step(lead(2, 2))?;
    let world = deliver(world, 12)?;
    let world = deliver(world, 13)?;
    let world = deliver(world, 14)?;
    let world = deliver(world, 15)?;
    let (world, first) = world.step(offer(2, 3, 5))?;
    let (world, _) = world.step(offer(2, 2, 6))?;
    let (world, second) = world.step(offer(2, 1, 4))?;
    let world = deliver_all(world, 100)?;
    Ok((world, first, second))
}

#[test]
fn a_second_leader_goes_on_with_the_value_of_the_first(rt: HostRuntime) {
    let Ok(world) = world(rt.alloc()) else {
        panic!(rt; "no memory")
    };
    let Ok((world, Some(LeadReason::Offered), Some(LeadReason::Below))) = two_leaders(world) else {
        panic!(rt; "not as it should be")
    };
    assert!(rt; world.chosen(Epoch::new(1)) == None);
    assert!(rt; world.chosen(Epoch::new(2)) == Some(6));
    assert!(rt; world.chosen(Epoch::new(3)) == Some(9));
}

// The run of a script ends like this, and writes this.
fn runs(
    rt: &impl Abort,
    alloc: Global,
    script: &str,
    wanted: Status,
    text: &str,
) -> Result<(), Fail> {
    let mut source = source_of(alloc, script)?;
    let mut sink = sink_of(alloc, 64)?;
    let status = lead_script(alloc, &mut source, &mut sink);
    assert!(rt; status == wanted, "{script}");
    assert!(rt; sink.held() == text.as_bytes(), "{script}");
    Ok(())
}

const TWO_EPOCHS: &str = "\
member 1
member 2
member 3
begin
lead 1 1
ctl all 100
offer 1 1 7
offer 1 2 8
ctl all 100
show chosen
";

const TWO_LEADERS: &str = "\
member 1
member 2
member 3
begin
lead 1 1
ctl all 100
offer 1 3 9
ctl 8
lead 2 2
ctl 12
ctl 13
ctl 14
ctl 15
offer 2 3 5
offer 2 2 6
offer 2 1 4
ctl all 100
show chosen
";

#[test]
fn scripts_are_run(rt: HostRuntime) -> Result<(), Fail> {
    let scripts = [
        (TWO_EPOCHS, Status::Done, "chosen 1: 7\nchosen 2: 8\n"),
        (
            TWO_LEADERS,
            Status::Done,
            "14: idle offered\n16: idle below\nchosen 2: 6\nchosen 3: 9\n",
        ),
        (
            "member 1\nbegin\nlead 2 1\n",
            Status::BadSchedule(3, BadKind::UnknownNode),
            "",
        ),
    ];
    for (script, wanted, text) in scripts {
        runs(&rt, rt.alloc(), script, wanted, text)?;
    }
    Ok(())
}
