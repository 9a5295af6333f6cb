//! A journal through its calls, by `docs/PROTOCOL.md`, "The journal and last values".

ghost use Rattle.std.specs.Prelude.{◌≡◌};

use crate::memory::heap_of;
use chi_flit::{Agent, Line, NoMemory, WordNo};
use chi_journal::{Journal, Record};
use std::alloc::Global;
use std::process::Abort;

const LOAD: Record = Record::Load {
    agent: Agent(2),
    line: Line(1),
    word: WordNo(7),
    value: 0,
};

const STORE: Record = Record::Store {
    agent: Agent(5),
    line: Line(1),
    word: WordNo(7),
    value: 9,
};

/// A journal of two lines, with room for so many records; of no limit where it is 0.
fn journal_of(rt: &impl Abort, alloc: Global, limit: u32) -> Journal<Global>
    ensures { result.lines ≡ 2 }
{
    Journal::with_limit(alloc, 2, limit).expect(rt, "memory for records")
}

/// Whether the journal has a store and a load behind it, and keeps what was stored last.
fn has_both(journal: &Journal<Global>) -> bool
    requires { journal.now.lines ≡ 2 }
{
    [
        journal.loads(),
        journal.stores(),
        journal.part_len(Agent(5)),
    ] == [1; 3]
        && journal.last_words(Line(1)) == [0, 0, 0, 0, 0, 0, 0, 9]
}

/// A store, and a load of the value before it, which isn't legal; of a third record there is room where there
/// is no limit.
fn is_judged(rt: &impl Abort, alloc: Global, limit: u32) -> bool {
    let mut journal = journal_of(rt, alloc, limit);
    let first = journal.append(STORE).is_ok() && journal.legal();
    let second = journal.append(LOAD).is_ok() && !journal.legal();
    first && second && has_both(&journal) && journal.append(STORE).is_ok() == (limit == 0)
}

#[test]
fn a_load_of_an_older_value_is_not_legal(rt: HostRuntime) {
    for limit in [2, 0] {
        assert!(&rt; is_judged(&rt, rt.alloc(), limit), "limit {limit}");
    }
}

/// The room of a journal, if it finds memory in a heap of so many bytes.
fn room_in(rt: &impl Abort, alloc: Global, bytes: usize) -> Result<u32, NoMemory> {
    let heap = heap_of(rt, alloc, bytes);
    Journal::with_limit(&heap, 1, 64).map(|journal| journal.limit())
}

#[test]
fn too_little_memory_for_records_is_refused(rt: HostRuntime) {
    assert!(&rt; room_in(&rt, rt.alloc(), 256) == Err(NoMemory));
    assert!(&rt; room_in(&rt, rt.alloc(), 16_384) == Ok(64));
}
