//! A trace that is read, and then resolved.

use chi_explain::{Observed, StoreListing};
use chi_flit::{Agent, WordNo};
use chi_resolution::{Options, Types, resolve};
use chi_trace::{NodeId, lines_are_flits, numbers_are_hexadecimal, read_trace, traces_are_lines};
use std::test::Fail;

/// Of two requesters at one line one waits; so does another at another line, whose CompAck isn't seen.
const WAITING: &[u8] = b"REQ 8 40 1 ReadShared 0 - - 1 - -
DAT 40 8 1 CompData - UC 1 - - 5,0,0,0,0,0,0,0
CPU 8 - - Load 8 - - - - 0
CPU 8 - - Load 40 - - - - 7
CPU c - - Load 0 - - - - 5
CPU 8 - - Store 10 - - - - 2a
RSP 8 40 1 CompAck - - - - - -
CPU 8 - - Load 10 - - - - 2a
REQ 8 40 1 ReadShared 40 - - 1 - -
DAT 40 8 1 CompData - UC 1 - - 0,0,0,0,0,0,0,0
CPU 8 - - Load 78 - - - - 0
";

/// As the program takes a trace where nothing else is asked.
const PLAIN: Options = Options {
    types: Types::Two,
    early_grants: false,
    stores: StoreListing::Partial,
};

/// Where the flits, loads and stores stand then: by their numbers in the trace.
const ORDER: [usize; 10] = [0, 1, 3, 4, 6, 2, 5, 7, 8, 9];

#[test]
fn accesses_wait_for_their_acknowledgement(rt: HostRuntime) -> Result<(), Fail> {
    let seen = read_trace(rt.alloc(), WAITING).ok().ok_or("no trace")?;
    let resolution = resolve(rt.alloc(), &seen, PLAIN).ok().ok_or("no memory")?;
    assert!(rt; resolution.fault.is_none() && resolution.nodes.home == Some(NodeId(0x40)));
    assert_eq!(rt; resolution.flits.len(), ORDER.len());
    for (item, at) in resolution.flits.iter().zip(&ORDER) {
        assert!(rt; item.at == *at, "{item:?}");
    }
    assert_eq!(rt; resolution.waiting.len(), 1);
    for item in resolution.waiting.iter() {
        assert!(rt;
            item.flit == Observed::Load(Agent(0), WordNo(7), 0),
            "{item:?}"
        );
    }
    Ok(())
}

#[test]
fn the_laws_are_called(_rt: HostRuntime) {
    lines_are_flits();
    numbers_are_hexadecimal();
    traces_are_lines();
}
