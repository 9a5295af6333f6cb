//! Tails of random legal traces: a line that is told only the flits behind some place takes each of them.

use crate::random::Random;
use chi_copies::{Begun as BegunBySets, Line};
use chi_observer::{Begun, Flit, Stores};

/// A line whose trace begins in the middle, judged by tables and by sets of copies.
#[derive(Drop)]
struct Tail {
    by_tables: Begun,
    by_sets: BegunBySets,
}

impl Tail {
    fn new(stores: Stores) -> Tail {
        Tail {
            by_tables: Begun::new(stores),
            by_sets: BegunBySets::new(stores),
        }
    }

    /// Whether both take the flit.
    fn takes(&mut self, flit: Flit) -> bool {
        let by_tables = self.by_tables.take(flit).is_ok();
        let by_sets = self.by_sets.take(flit).is_ok();
        by_tables && by_sets
    }
}

/// How many flits of a random legal trace both judges take, where a tail begins at each `length`th random flit; `None` at the
/// first that one of them doesn't take.
fn taken_by_both(stores: Stores, seed: u64, length: u32) -> Option<u32> {
    let mut random = Random::new(seed);
    let mut line = Line::new(stores);
    let mut tail = Tail::new(stores);
    let (mut told, mut taken) = (0u32, 0u32);
    for _ in 0..2000 {
        if told == length {
            tail = Tail::new(stores);
            told = 0;
        }
        told = told.saturating_add(1);
        let flit = random.flit()?;
        let is_legal = match flit {
            Flit::Up(sent) => line.take(sent),
            Flit::Down(given) => line.take_home(given),
        }
        .is_ok();
        if is_legal && !tail.takes(flit) {
            return None;
        }
        taken = taken.saturating_add(u32::from(is_legal));
    }
    Some(taken)
}

#[test]
fn legal_tails_are_taken_by_both(rt: HostRuntime) {
    for seed in 1..=3u64 {
        for length in [30u32, 100, 700] {
            let hidden = taken_by_both(Stores::Hidden, seed, length);
            let listed = taken_by_both(Stores::Listed, seed, length);
            assert!(rt; hidden.is_some_and(|count| count > 60));
            assert!(rt; listed.is_some_and(|count| count > 60));
        }
    }
}
