//! What a monitor knows of a line has a fixed size, however many flits it takes.

use chi_explain::SentFlit;
use chi_flit::{Agent, CompData, DatUp, Kind, Line, Msg, Request, RspDown, RspUp, Slot, State};
use chi_monitor::Monitor;
use chi_slice::Config;
use linked_list_allocator::LocalHeap;
use std::alloc::Allocator;
use std::test::Fail;

/// So many bytes are enough for what is known of a line, and for some 2,000 words beside.
const BYTES: usize = 131_072;

/// A first attempt of the kind.
fn request(kind: Kind) -> Msg {
    Msg::Req(Request {
        kind,
        slot: Slot(0),
        allow_retry: true,
    })
}

/// The flits of a round, behind the rounds before it: all words of a unique copy are written, and written back.
fn round(number: u64) -> [Msg; 6] {
    [
        request(Kind::ReadUnique),
        Msg::DatDown(CompData {
            words: [number; 8],
            unique: true,
        }),
        Msg::RspUp(RspUp::CompAck),
        request(Kind::WriteBackFull),
        Msg::RspDown(RspDown::CompDBIDResp),
        Msg::DatUp(DatUp::CopyBackWrData(State::UD, [number.wrapping_add(1); 8])),
    ]
}

/// Whether the monitor takes the flits of a round.
fn takes<A: Allocator>(monitor: &mut Monitor<A>, number: u64) -> bool {
    round(number).iter().all(|message| {
        let flit = SentFlit {
            agent: Agent(0),
            message: *message,
        };
        monitor.observe(Line(0), &flit).is_ok()
    })
}

/// Whether a monitor in this memory, which keeps no flits, takes so many rounds.
fn takes_rounds<A: Allocator + Copy>(alloc: A, rounds: u64) -> Result<bool, Fail> {
    let config = Config::new(1, 1, 1, 1, 1, 64).ok_or("sizes")?;
    let mut monitor = Monitor::new(alloc, &config, 1, 0).map_err(|_| "memory")?;
    for number in 0..rounds {
        if !takes(&mut monitor, number) {
            return Ok(false);
        }
    }
    Ok(true)
}

#[test]
fn words_that_no_line_has_are_forgotten(rt: HostRuntime) -> Result<(), Fail> {
    let heap = LocalHeap::new(rt.alloc(), BYTES).map_err(|_| "memory")?;
    assert!(rt; takes_rounds(&heap, 2_000)?);
    Ok(())
}
