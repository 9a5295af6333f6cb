//! Data of which words weren't seen: these may be any that a run of the model sends.
//! Not trusted: chi_explain does again what the search finds, and compares.

use crate::faults::{LineFault, SeenAt};
use crate::search::{LineSearch, take_part, words_in};
use crate::values::{SeenWords, UnknownWords};
use chi_explain::{Observed, StoreListing};
use chi_flit::{DatUp, Data, Msg, NO_DATA, NoMemory, State};
use chi_slice::Config;
use std::alloc::Allocator;

/// The words that were seen of the data that stands at a place of what was seen of a line.
/// Source: `docs/TRACES.md`, "Nodes, ids and credits".
#[derive(Clone, Copy, Debug, PartialEq, Eq)]
pub struct PartSeen {
    pub place: usize,
    pub words: [Option<u64>; 8],
}

/// The words that were seen at this place.
fn words_at(seen: &Observed, parts: &[PartSeen], place: usize) -> SeenWords {
    match parts.iter().find(|part| part.place == place) {
        Some(part) => part.words,
        None => words_in(seen),
    }
}

/// The words that data has which was just taken; `None` where it has none of a copy.
fn just_sent<A: Allocator>(search: &LineSearch<A>, seen: &Observed) -> Option<UnknownWords> {
    match seen {
        Observed::Flit(flit) if flit.agent.0 < 8 => match flit.message {
            Msg::DatUp(DatUp::CopyBackWrData(State::I, _)) => None,
            _ => Some(search.known.words_at(flit.agent)),
        },
        _ => None,
    }
}

/// All words of the data at this place, as a run of the model has them that sends what was seen of a line, up to the
/// first that none does: of the data in `parts` these words alone were seen. A word that nothing shows is 0.
/// Source: `docs/TRACES.md`, "Nodes, ids and credits".
pub fn words_of_run<A: Allocator + Copy>(
    alloc: A,
    config: &Config,
    stores: StoreListing,
    seen: &[Observed],
    parts: &[PartSeen],
    place: usize,
) -> Result<Data, NoMemory> {
    let mut search = match LineSearch::new(alloc, config, stores) {
        Ok(search) => search,
        Err(_) => return Err(NoMemory),
    };
    let mut sent = None;
    for (at, item) in seen.iter().enumerate() {
        match take_part(
            &mut search,
            item,
            &words_at(item, parts, at),
            SeenAt(at as u64),
        ) {
            Ok(()) => {}
            Err(LineFault::NoMemory) => return Err(NoMemory),
            Err(_) => break,
        }
        if at == place {
            sent = just_sent(&search, item);
        }
    }
    match sent {
        Some(words) => Ok(search.known.values_of(&words)),
        None => Ok(NO_DATA),
    }
}
