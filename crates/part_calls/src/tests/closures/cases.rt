//! Values of reports of nodes 1, 2 and 3.
ghost use Rattle.std.specs.Prelude.{map};
ghost use Rattle.std.specs.Rc.{rc_value};
ghost use Rattle.incomplete_closure.specs.Together.{OfOneEpoch};

use super::reading::{report, trigger_in};
use super::rounds::rounds;
use crate::tests::making::split;
use incomplete_closure::{Report, Value, missing, uncounted_closure};
use std::alloc::Global;
use std::process::Abort;
use std::rc::Rc;
use std::test::Fail;
use topology::{NodeId, Sent, Session, Trigger, Triggers};

// The name of the case; the reports of nodes 1, 2 and 3; their incomplete triggers.
const CASES: &str = "nothing was sent | 1.1:P | | | 
an item is missing, and its receiver knows no such session | 1.1:P>2/1/1 | | | 1.1
nothing of the session was received | 1.1:P>2/1/1 | =1/1/0 | | 1.1
the item was received | 1.1:P>2/1/1 | =1/1/1 | | 
the second item is above what was received | 1.1:P>2/1/1>2/1/2 | =1/1/1 | | 1.1
another session has received more | 1.1:P>2/2/1 | =1/1/5 | | 1.1
another neighbour has received more | 1.1:P>2/1/1 | =3/1/5 | | 1.1
the receiver has closed the session | 1.1:P>2/1/1 | 2.1:* =1/1/0/2.1 | | 
the receiver has closed another session | 1.1:P>2/2/1 | 2.1:* =1/1/0/2.1 | | 1.1
cover: what closed the session is incomplete | 1.1:P>2/1/1 | 2.1:*>3/1/1 =1/1/0/2.1 | | 1.1 2.1
cover: what closed it stands in no row | 1.1:P>2/1/1 | =1/1/0/7.7 | | 
order: a later row of the prefix | 1.1:P>2/1/1 1.2:P | | | 1.1 1.2
order: not one of another prefix | 1.1:P>2/1/1 1.2:Q | | | 1.1
order: a row of all prefixes, and what follows it | 1.1:P>2/1/1 1.2:* 1.3:Q | | | 1.1 1.2 1.3
order: not an earlier row | 1.1:P 1.2:P>2/1/1 | | | 1.2
order: over a row of another prefix | 1.1:P>2/1/1 1.2:Q 1.3:P 1.4:Q 1.5:P | | | 1.1 1.3 1.5
order: rows of all prefixes, and what stands between and behind them | 1.1:P>2/1/1 1.2:* 1.3:Q 1.4:* 1.5:P | | | 1.1 1.2 1.3 1.4 1.5
order: not what stands before the row of all prefixes | 1.1:P>2/1/1 1.2:Q 1.3:* 1.4:Q | | | 1.1 1.3 1.4
order: from a row of all prefixes to the next one | 1.1:*>2/1/1 1.2:P 1.3:Q 1.4:P 1.5:* | | | 1.1 1.2 1.3 1.4 1.5
order: from each row of a trigger | 1.1:P 1.2:P 1.1:Q>2/1/1 1.3:Q | | | 1.1 1.2 1.3
order: from node to node | 1.1:P>2/1/1 1.2:P | 1.2:Q 1.3:Q | 1.3:P 1.4:P | 1.1 1.2 1.3 1.4
order: at another node | 1.1:P>2/1/1 | | 1.1:P 3.1:P | 1.1 3.1
cover: two items of one session | 1.1:P>2/1/1 1.2:Q>2/1/2 | 2.1:*>3/1/1 =1/1/0/2.1 | | 1.1 1.2 2.1
cover: from one session to the next | 1.1:P>2/1/1 | 2.1:*>3/1/1 =1/1/0/2.1 | 3.1:*>1/1/1 =2/1/0/3.1 | 1.1 2.1 3.1
cover: in a circle, without a start | 1.1:P>2/1/1 =3/1/0/1.1 | 2.1:*>3/1/1 =1/1/0/2.1 | 3.1:*>1/1/1 =2/1/0/3.1 | 
cover, then order | 1.1:P>2/1/1 | 2.1:*>3/1/1 =1/1/0/2.1 | 1.1:Q 3.1:Q | 1.1 2.1 3.1
order, then cover | 1.1:P>2/1/1 | 2.2:P>3/1/1 | 1.1:P 3.1:* =2/1/0/3.1 | 1.1 2.2 3.1
the receiver has no report | 1.1:P>9/1/1 | | | 
an item to oneself | 1.1:P>1/1/1 | | | 1.1
an item to oneself that was received | 1.1:P>1/1/1 =1/1/1 | | | 
an item to oneself that its own row covers | 1.1:P>1/1/1 =1/1/0/1.1 | | | 
an item to oneself that an incomplete row covers | 1.1:P>1/1/1 1.2:Q>2/1/1 =1/1/0/1.2 | | | 1.1 1.2
of repeated session rows the first counts | 1.1:P>2/1/1 | =1/1/0 =1/1/1 | | 1.1
of repeated session rows the first counts, again | 1.1:P>2/1/1 | =1/1/1 =1/1/0 | | 
so for what closed the session | 1.1:P>2/1/1 | =1/1/0/2.1 =1/1/0 | | 
so for what closed the session, again | 1.1:P>2/1/1 | =1/1/0 =1/1/0/2.1 | | 1.1
triggers ascend by node, then counter | 2.1:P>2/1/1 1.10:P 1.9:P | | | 1.9 1.10 2.1
a withdrawal on its way | 1.1:P>2/1/1 1.1:P 1.2:P>2/1/2 =2/1/1 | 1.1:P>1/1/1>3/1/1 1.1:P =1/1/1 =3/1/1 | 1.1:P>2/1/1 =2/1/1 | 1.2
what came of it on its way | 1.1:P>2/1/1 1.1:P 1.2:P>2/1/2 1.2:P =2/1/2 | 1.1:P>1/1/1>3/1/1 1.1:P 1.2:P>1/1/2>3/1/2 =1/1/2 =3/1/1 | 1.1:P>2/1/1 =2/1/1 | 1.2
a new preference after it | 1.1:P>2/1/1 1.1:P 1.2:P>2/1/2 1.2:P =2/1/2 | 1.1:P>1/1/1>3/1/1 1.1:P 1.2:P>1/1/2>3/1/2 2.1:* =1/1/2 =3/1/1 | 1.1:P>2/1/1 =2/1/1 | 1.2 2.1
together: what an item of the second row lists blocks the other trigger of the first | =2/1/0 | 1.1+1.2:P 1.2:P>1/1/1 =1/1/0 | | 1.1 1.2
together: one of three in the middle | 1.1+1.2+1.3:- 1.2:P>2/1/1 | | | 1.1 1.2 1.3
an item lists less than its row | 1.1+1.2:P>2/1/1/1.3 | | | 1.3
order: not through a row of no prefix | 1.1:P>2/1/1 1.1+1.2:- 1.3:P 1.4:Q | | | 1.1 1.2 1.3
order: not from a row of no prefix, nor to one | 1.1:->2/1/1 1.2:P 1.3:* 1.4:- | | | 1.1
order: from a row of two triggers to one of two | 1.1+1.2:P 1.3+1.4:P 1.2:Q>2/1/1 | | | 1.1 1.2 1.3 1.4
an update is held back | 1.1:P ~2/1/1.1+1.3 | =1/1/0 | | 1.1 1.3
one is held back in a session that its receiver has closed | 1.1:P ~2/1/1.1 | =1/1/0/2.1 | | 
cover: of what is held back | 1.1:P ~2/1/1.1+1.3 | 2.1:*>3/1/1 =1/1/0/2.1 | | 1.1 1.3 2.1
one is held back from a node without a report | 1.1:P ~9/1/1.1 | | | 
a link that one end has closed | 3.1:P>2/1/1 1.1:*>2/1/2 =2/1/1/1.1 | 3.1:P>1/1/1>3/1/1 3.1:P =1/1/1 =3/1/1 | 3.1:P>2/1/1 3.1:P =2/1/1 | 1.1";

// The value of the reports. `rounds` has to find the same.
fn value(rt: &impl Abort, alloc: Global, reports: &[Rc<Report>]) -> Result<Value, Fail>
    requires { OfOneEpoch (map rc_value reports.now) }
{
    let value = uncounted_closure(alloc, reports)?;
    let marked = rounds(alloc, reports)?;
    assert!(rt; value.incomplete.as_slice() == marked.as_slice());
    Ok(value)
}

// The value of the reports of nodes 1, 2 and 3.
fn value_of(
    rt: &impl Abort,
    alloc: Global,
    one: &str,
    two: &str,
    three: &str,
) -> Result<Value, Fail> {
    let one = report(alloc, 1, one)?;
    let two = report(alloc, 2, two)?;
    let three = report(alloc, 3, three)?;
    value(rt, alloc, &[one, two, three])
}

fn triggers(alloc: Global, text: &str) -> Result<Vec<Trigger>, Fail> {
    let mut triggers = Vec::new(alloc);
    for word in text.split_whitespace() {
        triggers.push(trigger_in(word)?)?;
    }
    Ok(triggers)
}

// Checks that a copy of the value has these triggers, and three nodes.
fn is_value(
    rt: &impl Abort,
    alloc: Global,
    value: &Value,
    incomplete: &str,
    name: &str,
) -> Result<(), Fail> {
    let expected = triggers(alloc, incomplete)?;
    let copy = value.copy()?;
    assert!(rt; copy.incomplete.as_slice() == expected.as_slice(), "{name}");
    assert!(rt; copy.responding.as_slice().len() == 3, "{name}");
    Ok(())
}

fn check(rt: &impl Abort, alloc: Global, case: &str) -> Result<(), Fail> {
    let (name, rest) = split(case, '|')?;
    let (one, rest) = split(rest, '|')?;
    let (two, rest) = split(rest, '|')?;
    let (three, incomplete) = split(rest, '|')?;
    let value = value_of(rt, alloc, one, two, three)?;
    is_value(rt, alloc, &value, incomplete, name)
}

#[test]
fn incomplete_triggers(rt: HostRuntime) -> Result<(), Fail> {
    for case in CASES.lines() {
        check(&rt, rt.alloc(), case)?;
    }
    Ok(())
}

fn misses(alloc: Global, to: u16, seq: u32) -> Result<bool, Fail> {
    let one = report(alloc, 1, "")?;
    let two = report(alloc, 2, "=1/1/3")?;
    let item = Sent {
        to: NodeId::new(to),
        session: Session::new(1),
        seq,
        triggers: Triggers::none(),
    };
    Ok(missing(&one, &two, &item))
}

#[test]
fn missing_items(rt: HostRuntime) -> Result<(), Fail> {
    assert!(rt; !misses(rt.alloc(), 2, 3)?);
    assert!(rt; misses(rt.alloc(), 2, 4)?);
    assert!(rt; !misses(rt.alloc(), 3, 4)?);
    Ok(())
}
