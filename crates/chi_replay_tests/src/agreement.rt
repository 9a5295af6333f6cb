//! Worked runs on one thread: after each command every requester agrees with the slices. What each command is answered the
//! rows of `tests/rows` show.

use chi_node::System;
use chi_replay::answer;
use chi_script::{Check, Fault, read_checks};
use std::alloc::Global;

/// A ReadUnique takes the line from under a waiting WriteBackFull, whose data then changes nothing.
const SNOOP_CROSSES_WRITE_BACK: &[u8] = b"node 2 1 1 2 1 8\nissue 0 0 ReadUnique 0\narrive 0 0\n\
    start 0 0\ndata 0 0\nack 0 0\nstore 0 0 0 5\nissue 0 0 WriteBackFull 0\narrive 0 0\n\
    issue 1 0 ReadUnique 0\narrive 1 0\nstart 1 0\nsnp 0 0\nsnpresp 0 0\ndata 1 0\nack 1 0\n\
    store 1 0 0 9\nstart 0 0\ndbid 0 0\nwrdata 0 0\nload 1 0 0\n";

/// A credit is seen before the RetryAck of its request was taken.
const GRANT_BEFORE_RETRYACK: &[u8] = b"node 1 4 1 2 1 8\nissue 0 0 ReadNotSharedDirty 0\n\
    issue 0 1 ReadNotSharedDirty 1\nissue 0 2 ReadNotSharedDirty 2\narrive 0 0\narrive 0 1\n\
    arrive 0 2\nstart 0 0\ndata 0 0\nissue 0 0 WriteEvictFull 3\narrive 0 0\ntend 0 0\nack 0 0\n\
    see 0\nresend 0 2\nretryack 0 2\nresend 0 2\narrive 0 2\n";

/// A write that was retried loses its copy and is cancelled; its credit is given back, for another agent.
const CANCELLED_WRITE_BACK: &[u8] = b"node 3 3 1 3 1 8\nissue 0 0 ReadUnique 0\narrive 0 0\n\
    start 0 0\ndata 0 0\nack 0 0\nstore 0 0 0 1\nissue 1 1 ReadUnique 0\narrive 1 1\nstart 1 1\n\
    data 1 1\nack 1 1\nstore 1 1 0 2\nissue 2 2 ReadUnique 0\narrive 2 2\nstart 2 2\ndata 2 2\n\
    ack 2 2\nstore 2 2 0 3\nissue 1 1 WriteBackFull 0\narrive 1 1\nissue 0 0 WriteBackFull 0\n\
    arrive 0 0\nissue 2 2 WriteBackFull 0\narrive 2 2\nretryack 0 0\nissue 1 0 ReadUnique 1\n\
    arrive 1 0\nstart 1 0\nsnp 0 0\nsnpresp 0 0\ndata 1 0\nack 1 0\nresend 0 0\ncancel 0 0\n\
    start 1 1\ndbid 1 1\nwrdata 1 1\nsee 0\ngiveback 0 1\nsee 2\n";

/// An Evict is completed at its start, and its slot is free only once Comp was taken.
const EVICT: &[u8] = b"node 1 1 1 1 1 4\nissue 0 0 ReadNotSharedDirty 0\narrive 0 0\nstart 0 0\n\
    data 0 0\nack 0 0\nissue 0 0 Evict 0\nload 0 0 0\narrive 0 0\nstart 0 0\n\
    issue 0 0 ReadNotSharedDirty 0\ncomp 0 0\n";

/// Eight agents want the one entry of a type.
const ONE_ENTRY_FOR_EIGHT: &[u8] = b"node 8 8 1 1 1 8\nissue 0 0 ReadNotSharedDirty 0\n\
    issue 1 1 ReadNotSharedDirty 0\nissue 2 2 ReadNotSharedDirty 0\n\
    issue 3 3 ReadNotSharedDirty 0\nissue 4 4 ReadNotSharedDirty 0\n\
    issue 5 5 ReadNotSharedDirty 0\nissue 6 6 ReadNotSharedDirty 0\n\
    issue 7 7 ReadNotSharedDirty 0\narrive 0 0\narrive 1 1\narrive 2 2\narrive 3 3\narrive 4 4\n\
    arrive 5 5\narrive 6 6\narrive 7 7\nstart 0 0\ndata 0 0\nack 0 0\nsee 1\nretryack 1 1\n\
    resend 1 1\narrive 1 1\nstart 1 1\ndata 1 1\nack 1 1\nretryack 2 2\nresend 2 2\nsee 2\n\
    resend 2 2\narrive 2 2\n";

const RUNS: [&[u8]; 5] = [
    SNOOP_CROSSES_WRITE_BACK,
    GRANT_BEFORE_RETRYACK,
    CANCELLED_WRITE_BACK,
    EVICT,
    ONE_ENTRY_FOR_EIGHT,
];

/// Whether every requester agrees after each of the commands.
fn agree(system: &mut System<Global>, checks: &[Check<'_>]) -> bool {
    let mut found = true;
    for check in checks {
        let _ = answer(system, check.command);
        found &= system.agrees();
    }
    found
}

#[test]
fn every_requester_agrees_after_each_command(rt: HostRuntime) -> Result<(), Fault> {
    for run in RUNS {
        let file = read_checks(rt.alloc(), run)?;
        let mut system = System::new(rt.alloc(), &file.header)?;
        assert!(rt; agree(&mut system, &file.checks));
        assert!(rt; system.headline().coherent);
    }
    Ok(())
}
