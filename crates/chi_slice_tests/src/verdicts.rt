//! Verdicts on lines, most of which no slice has, against `docs/PROTOCOL.md`, "Coherence".

use chi_flit::DatUp::{self, CopyBackWrData, SnpRespDataIPD};
use chi_flit::NO_DATA;
use chi_flit::State::{self, I, SC, SD, UC, UD};
use chi_slice::{Cells, CopyView, LineView, Serving, check};

/// A line whose last words are all 0, with copies of agents 2 and 5: their states; word 7 of the second copy;
/// whether its holder is named; word 0 of the memory; and data of agent 1 on its way to the home.
type Held = (State, State, u64, bool, u64, Option<DatUp>);

/// Whether each is coherent.
const LINES: [(Held, bool); 26] = [
    ((I, I, 0, true, 0, None), true),
    ((SC, SC, 0, true, 0, None), true),
    ((SC, SD, 0, true, 0, None), true),
    ((I, UC, 0, true, 0, None), true),
    ((UD, I, 0, true, 0, None), true),
    // nothing stands beside a unique copy, and no two copies are SD
    ((UC, SC, 0, true, 0, None), false),
    ((SC, UC, 0, true, 0, None), false),
    ((UC, UC, 0, true, 0, None), false),
    ((UC, UD, 0, true, 0, None), false),
    ((UD, UC, 0, true, 0, None), false),
    ((UD, UD, 0, true, 0, None), false),
    ((SC, UD, 0, true, 0, None), false),
    ((UD, SC, 0, true, 0, None), false),
    ((SD, UC, 0, true, 0, None), false),
    ((UD, SD, 0, true, 0, None), false),
    ((SD, SD, 0, true, 0, None), false),
    // a holder is named, and has the last words
    ((SC, SC, 0, false, 0, None), false),
    ((UC, I, 1, false, 0, None), true),
    ((SD, SC, 1, true, 0, None), false),
    ((I, UD, 1, true, 0, None), false),
    // memory has them too, where nothing dirty is there or on its way
    ((SC, SC, 0, true, 1, None), false),
    ((I, UC, 0, true, 1, None), false),
    ((SC, SD, 0, true, 1, None), true),
    ((I, UD, 0, true, 1, None), true),
    ((I, I, 0, true, 1, Some(SnpRespDataIPD(NO_DATA))), true),
    ((I, I, 0, true, 1, Some(CopyBackWrData(SC, NO_DATA))), false),
];

/// The line as plain data.
fn view_of(held: &Held) -> LineView {
    let (first, second, word, named, memory, data) = *held;
    let mut view = LineView {
        copies: [CopyView::NONE; 8],
        pending: [None; 8],
        memory: [memory, 0, 0, 0, 0, 0, 0, 0],
        named: [false, false, true, false, false, named, false, false],
        unique: false,
        owner: None,
        serving: Serving::Idle,
        awaited: [false; 8],
        waiting: [None; 8],
        flits: [Cells::new(); 8],
        last: NO_DATA,
    };
    view.copies[2].state = first;
    view.copies[5].state = second;
    view.copies[5].words = [0, 0, 0, 0, 0, 0, 0, word];
    view.flits[1].dat_up = data;
    view
}

/// Whether the line is found coherent.
fn is_coherent(held: &Held) -> bool {
    check(&view_of(held))
}

#[test]
fn a_line_is_coherent_by_its_copies_filter_and_memory(rt: HostRuntime) {
    for (held, coherent) in &LINES {
        assert!(rt; is_coherent(held) == *coherent, "{held:?}");
    }
}
