//! Operands that are drawn.

use crate::plan::Plan;
use crate::weights::place_by;
use crate::words::Lot;
use chi_flit::{CreditType, Kind};

/// The operands of a command: it takes those that its verb asks for. The number is that of a word or a slot.
#[derive(Clone, Copy)]
pub(crate) struct Operands {
    pub(crate) agent: u8,
    pub(crate) line: u8,
    pub(crate) number: u8,
    pub(crate) kind: Kind,
    pub(crate) credit: Option<CreditType>,
}

/// The kind of request of a number below 8.
pub(crate) fn kind_at(number: u32) -> Kind {
    match number {
        0 => Kind::ReadNotSharedDirty,
        1 => Kind::ReadShared,
        2 => Kind::ReadUnique,
        3 => Kind::CleanUnique,
        4 => Kind::Evict,
        5 => Kind::WriteBackFull,
        6 => Kind::WriteCleanFull,
        _ => Kind::WriteEvictFull,
    }
}

/// By a word, a kind of request, by the weights of the kinds; of kinds that all weigh 0 each has one chance.
fn kind_by(weights: &[u16], word: u32) -> Kind {
    match place_by(weights, word) {
        Some(place) => kind_in(place),
        None => kind_at(word % 8),
    }
}

/// The kind of request at a place.
fn kind_in(place: usize) -> Kind {
    match place {
        0..=7 => kind_at(place as u32),
        _ => Kind::WriteEvictFull,
    }
}

/// By a word, a number below the end; 0 where the end is 0.
fn below(end: u8, word: u32) -> u8 {
    match u32::from(end) {
        0 => 0,
        end => (word % end) as u8,
    }
}

/// By a word, a number below the end, one of the two behind it, or 255.
fn near(end: u8, word: u32) -> u8 {
    if word % 32 == 0 {
        255
    } else {
        below(end.saturating_add(2), word / 32)
    }
}

impl Operands {
    /// Operands in their ranges.
    pub(crate) fn new(plan: &Plan, lot: &Lot) -> Operands {
        Operands {
            agent: below(plan.agents, lot.agent),
            line: below(plan.lines, lot.line),
            number: below(8, lot.first),
            kind: kind_by(&plan.weights.by_kind, lot.second),
            credit: CreditType::numbered(below(plan.types, lot.second)),
        }
    }

    /// Operands near their ranges.
    pub(crate) fn near(plan: &Plan, lot: &Lot) -> Operands {
        Operands {
            agent: near(plan.agents, lot.agent),
            line: near(plan.lines, lot.line),
            number: near(8, lot.first),
            kind: kind_by(&plan.weights.by_kind, lot.second),
            credit: CreditType::numbered(below(5, lot.second)),
        }
    }

    /// An agent and a line alone.
    pub(crate) fn at(agent: u8, line: u8) -> Operands {
        Operands {
            agent,
            line,
            number: 0,
            kind: Kind::ReadShared,
            credit: None,
        }
    }
}
