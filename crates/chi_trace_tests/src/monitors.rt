//! A monitor finds the first fault where the search for an explanation of all flits does, explains what it kept, and says
//! why it takes no more.

ghost use Rattle.std.specs.Prelude.{◌≡◌};

use chi_explain::{Observed, SentFlit, StoreListing};
use chi_flit::{
    Agent, CompData, DatUp, Kind, Line, Msg, Request, RspDown, RspUp, Slot, Snoop, State,
};
use chi_monitor::{
    Awaited, Basis, FaultNames, FaultText, LineFault, Monitor, NoExplanation, NotExplained,
    NotTaken, SeenAt, explain_flits,
};
use chi_slice::Config;
use std::alloc::{AllocError, Global};
use std::test::Fail;

const LINE: Line = Line(0);

/// A first attempt in a slot that isn't the first.
const READ: Msg = Msg::Req(Request {
    kind: Kind::ReadUnique,
    slot: Slot(5),
    allow_retry: true,
});

const WRITE: Msg = Msg::Req(Request {
    kind: Kind::WriteBackFull,
    slot: Slot(0),
    allow_retry: true,
});

const DATA: Msg = Msg::DatDown(CompData {
    words: [5; 8],
    unique: true,
});

const ACK: Msg = Msg::RspUp(RspUp::CompAck);

/// An agent reads a line, and another one takes it over and writes it back.
const RUN: [(u8, Msg); 11] = [
    (0, READ),
    (0, DATA),
    (0, ACK),
    (1, READ),
    (0, Msg::Snp(Snoop::SnpUnique)),
    (0, Msg::DatUp(DatUp::SnpRespDataIPD([5; 8]))),
    (1, DATA),
    (1, ACK),
    (1, WRITE),
    (1, Msg::RspDown(RspDown::CompDBIDResp)),
    (1, Msg::DatUp(DatUp::CopyBackWrData(State::UD, [6; 8]))),
];

/// The flits of the run, of which the one at this place comes so many times.
fn changed(alloc: Global, place: usize, times: u32) -> Result<Vec<Observed>, AllocError> {
    let mut flits = Vec::new(alloc);
    for (at, (agent, message)) in RUN.iter().enumerate() {
        let agent = Agent(*agent);
        let message = *message;
        let count = if at == place { times } else { 1 };
        for _ in 0..count {
            flits.push(Observed::Flit(SentFlit { agent, message }))?;
        }
    }
    Ok(flits)
}

/// A node of two agents with one line.
fn node() -> Option<Config> {
    Config::new(2, 1, 1, 1, 1, 64)
}

/// Gives the flits to a monitor: where the first is that it doesn't take, if there is one.
fn place_not_taken(monitor: &mut Monitor<Global>, flits: &[Observed]) -> Option<usize> {
    for (at, item) in flits.iter().enumerate() {
        if let Observed::Flit(flit) = item
            && monitor.observe(LINE, flit).is_err()
        {
            return Some(at);
        }
    }
    None
}

/// The same by the search for an explanation.
fn place_unexplained(
    alloc: Global,
    config: &Config,
    flits: &[Observed],
) -> Result<Option<usize>, Fail> {
    match explain_flits(alloc, config, StoreListing::Partial, flits) {
        Ok(_) => Ok(None),
        Err(NoExplanation::Fault(at, _)) => Ok(Some(at)),
        Err(NoExplanation::Undone(_) | NoExplanation::NoMemory) => Err("not explained".into()),
    }
}

/// Whether both find the same place, and none where nothing is changed; a monitor that keeps all flits explains those
/// before it, and one that keeps none explains nothing.
fn do_agree(alloc: Global, place: usize, times: u32) -> Result<bool, Fail> {
    let config = node().ok_or("sizes")?;
    let flits = changed(alloc, place, times)?;
    let mut kept = Monitor::new(alloc, &config, 1, flits.len()).map_err(|_| "memory")?;
    let mut free = Monitor::new(alloc, &config, 1, 0).map_err(|_| "memory")?;
    let found = place_not_taken(&mut kept, &flits);
    let same = found == place_not_taken(&mut free, &flits)
        && found == place_unexplained(alloc, &config, &flits)?
        && found.is_some() == kept.fault().is_some();
    let explained = kept.explain(alloc, LINE) == Ok(())
        && free.explain(alloc, LINE) == Err(NotExplained::NotKept);
    Ok(same && explained && (times != 1 || found.is_none()))
}

#[test]
fn faults_are_where_the_search_has_them(rt: HostRuntime) -> Result<(), Fail> {
    for place in 0..RUN.len() {
        for times in 0..3 {
            assert!(rt; do_agree(rt.alloc(), place, times)?, "{place} {times}");
        }
    }
    Ok(())
}

#[test]
fn a_line_that_is_full_takes_no_more(rt: HostRuntime) -> Result<(), Fail> {
    let config = node().ok_or("sizes")?;
    let flits = changed(rt.alloc(), 0, 1)?;
    let mut monitor = Monitor::new(rt.alloc(), &config, 1, 1).map_err(|_| "memory")?;
    assert_eq!(rt; place_not_taken(&mut monitor, &flits), Some(1));
    if let Some(Observed::Flit(flit)) = flits.get(1) {
        assert_eq!(rt; monitor.observe(LINE, flit), Err(NotTaken::Full));
        assert_eq!(rt; monitor.observe(Line(1), flit), Err(NotTaken::OutOfRange));
    }
    assert_eq!(rt; monitor.fault(), None);
    Ok(())
}

#[test]
fn a_reason_without_names_has_numbers(rt: HostRuntime) -> Result<(), Fail> {
    let fault = LineFault::EarlySnoop(Awaited::Ack(Agent(1), SeenAt(1)));
    let names = FaultNames {
        nodes: &[],
        lines: &[],
    };
    let told = FaultText { fault, names };
    assert_eq!(rt; fault.basis(), Basis::Standard);
    assert_eq!(rt;
        format!(in rt.alloc(); "{told}")?.as_str(),
        "CHI: the home awaits the CompAck of agent 1 to the completion of flit 1 before it snoops for another request"
    );
    Ok(())
}
