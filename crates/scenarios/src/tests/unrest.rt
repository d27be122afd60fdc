//! Routes that never come to rest.
use super::outcome;
use std::alloc::Global;
use std::process::Abort;
use std::test::Fail;
use topology::Status;

// Three peers in a ring around one customer, which is the origin. Each peer prefers what the next peer tells it to the
// customer's own path, but tells its peers only the customer's path. So a peer that takes the next peer's path takes
// its own path away from the peer before it, and so on without end.
const RING: &str = "\
node 1
node 2
node 3
node 4 consolidator
link 1 2 peer
link 2 3 peer
link 1 3 peer
link 1 4 customer
link 2 4 customer
link 3 4 customer
pref 1 2 200
pref 2 3 200
pref 3 1 200
prefix 10.0.0.0/8
begin
originate 4 10.0.0.0/8
";

// How many lines of the text have these words.
fn count_lines(text: &str, words: &str) -> usize {
    text.lines().filter(|line| line.contains(words)).count()
}

// A drain makes as many deliveries as it may, and each makes an entry.
fn check_drain(rt: &impl Abort, alloc: Global, times: usize) -> Result<(), Fail> {
    let mut file = String::from_str(alloc, RING)?;
    write!(file, "drain {times}\nshow log\n")?;
    let (status, written) = outcome(alloc, file.as_str())?;
    assert_eq!(rt; status, Status::Done);
    assert_eq!(rt; count_lines(written.as_str(), " recv "), times);
    assert_eq!(rt;
        count_lines(written.as_str(), "log "),
        times.wrapping_add(1)
    );
    Ok(())
}

#[test]
fn a_ring_of_preferences_never_rests(rt: HostRuntime) -> Result<(), Fail> {
    for times in [1, 99, 100, 101, 200] {
        check_drain(&rt, rt.alloc(), times)?;
    }
    Ok(())
}
