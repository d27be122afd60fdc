//! The settings of a topology for packets off the stable tables.
use std::process::Abort;
use std::test::Fail;
use topology::{BuildError, NodeId, Scheme, Topology};

// Each number of moves can be set, and the last setting counts.
fn check_hops(rt: &impl Abort, topology: &mut Topology) {
    assert_eq!(rt; topology.hops(), 128);
    for hops in [0, 1, 65_535] {
        topology.set_hops(hops);
        assert_eq!(rt; topology.hops(), hops);
    }
}

// A detour by the node of this number.
fn detour(number: u16) -> Scheme {
    Scheme::Detour(NodeId::new(number))
}

// Each scheme can be set, except a detour by an unknown node.
fn check_schemes(rt: &impl Abort, topology: &mut Topology) {
    assert_eq!(rt; topology.scheme(), Scheme::Deflect);
    let cases = [
        (detour(2), Ok(()), detour(2)),
        (Scheme::Backup, Ok(()), Scheme::Backup),
        (
            detour(9),
            Err(BuildError::UnknownNode(NodeId::new(9))),
            Scheme::Backup,
        ),
        (Scheme::Deflect, Ok(()), Scheme::Deflect),
    ];
    for (scheme, answer, kept) in cases {
        assert_eq!(rt; topology.set_scheme(scheme), answer, "{scheme:?}");
        assert_eq!(rt; topology.scheme(), kept, "{scheme:?}");
    }
}

#[test]
fn keeps_the_last_scheme(rt: HostRuntime) -> Result<(), Fail> {
    let mut topology = Topology::empty(rt.alloc());
    topology.add_node(NodeId::new(2), false)?;
    check_hops(&rt, &mut topology);
    check_schemes(&rt, &mut topology);
    Ok(())
}
