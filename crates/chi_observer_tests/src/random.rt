//! Random flits of one line: the observer and the judge by sets of copies accept the same ones.

use crate::said::{NEW, OLD};
use crate::walk::{cache_flit, home_flit};
use chi_copies::Line;
use chi_flit::{Data, State, WordNo};
use chi_observer::{Act, Answer, Flit, Grant, Kind, Snoop, Stores, Word, WordedObserver};

const KINDS: [Kind; 15] = [
    Kind::ReadNotSharedDirty,
    Kind::ReadShared,
    Kind::ReadClean,
    Kind::ReadOnce,
    Kind::ReadUnique,
    Kind::CleanUnique,
    Kind::MakeUnique,
    Kind::CleanShared,
    Kind::CleanInvalid,
    Kind::MakeInvalid,
    Kind::Evict,
    Kind::WriteBackFull,
    Kind::WriteCleanFull,
    Kind::WriteEvictFull,
    Kind::WriteUniqueFull,
];

const SNOOPS: [Snoop; 8] = [
    Snoop::SnpOnce,
    Snoop::SnpClean,
    Snoop::SnpShared,
    Snoop::SnpNotSharedDirty,
    Snoop::SnpCleanShared,
    Snoop::SnpUnique,
    Snoop::SnpCleanInvalid,
    Snoop::SnpMakeInvalid,
];

const ANSWERS: [Answer; 11] = [
    Answer::SnpRespI,
    Answer::SnpRespSC,
    Answer::SnpRespUC,
    Answer::SnpRespDataI,
    Answer::SnpRespDataSC,
    Answer::SnpRespDataUC,
    Answer::SnpRespDataUD,
    Answer::SnpRespDataSD,
    Answer::SnpRespDataIPD,
    Answer::SnpRespDataSCPD,
    Answer::SnpRespDataUCPD,
];

const STATES: [State; 5] = [State::I, State::SC, State::UC, State::UD, State::SD];

const DATA: [Data; 2] = [OLD, NEW];

/// A row of numbers (Marsaglia's xorshift).
#[derive(Drop)]
pub(crate) struct Random(u64);

impl Random {
    /// The row that this number begins, which isn't 0.
    pub(crate) fn new(seed: u64) -> Random {
        Random(seed)
    }

    fn next(&mut self) -> u64 {
        self.0 ^= self.0 << 13;
        self.0 ^= self.0 >> 7;
        self.0 ^= self.0 << 17;
        self.0
    }

    /// One of these, if there is any.
    fn one_of<T: Copy>(&mut self, all: &[T]) -> Option<T> {
        let count = all.len() as u64;
        if count == 0 {
            return None;
        }
        let at = self.next() % count;
        all.get(at as usize).copied()
    }

    /// A word that a load or a store may have.
    fn word(&mut self) -> Option<Word> {
        let place = self.one_of(&[WordNo(0), WordNo(5)])?;
        let value = self.one_of(&[0, 5, 7, 9])?;
        Some(Word { place, value })
    }

    fn act(&mut self) -> Option<Act> {
        Some(match self.next() % 10 {
            0 | 1 => Act::Request(self.one_of(&KINDS)?),
            2 => Act::Resend(self.one_of(&KINDS)?),
            3 | 4 => Act::SnpResp(self.one_of(&ANSWERS)?),
            5 => Act::CompAck,
            6 => Act::CopyBackWrData(self.one_of(&STATES)?),
            7 => Act::NonCopyBackWrData,
            8 => Act::Load(self.word()?),
            _ => Act::Store(self.word()?),
        })
    }

    fn grant(&mut self) -> Option<Grant> {
        Some(match self.next() % 9 {
            0 => Grant::RetryAck,
            1 | 2 | 3 => Grant::Snp(self.one_of(&SNOOPS)?),
            4 | 5 => Grant::CompData(self.one_of(&STATES)?),
            6 => Grant::CompDBIDResp,
            _ => self.one_of(&[Grant::CompUC, Grant::CompSC, Grant::CompI])?,
        })
    }

    /// A flit of one of three agents, or to it.
    pub(crate) fn flit(&mut self) -> Option<Flit> {
        let agent = self.one_of(&[0, 1, 2])?;
        let data = self.one_of(&DATA)?;
        Some(if self.next() % 2 == 0 {
            cache_flit(agent, self.act()?, data)
        } else {
            home_flit(agent, self.grant()?, data)
        })
    }
}

/// How many of some random flits both accept; `None` at the first that one of them accepts alone.
fn accepted_by_both(stores: Stores, seed: u64) -> Option<u32> {
    let mut random = Random::new(seed);
    let mut line = Line::new(stores);
    let mut observer = WordedObserver::new(stores);
    let mut accepted = 0u32;
    for _ in 0..3000 {
        let flit = random.flit()?;
        let by_sets = match flit {
            Flit::Up(sent) => line.take(sent),
            Flit::Down(given) => line.take_home(given),
        };
        let is_accepted = by_sets.is_ok();
        if observer.take(flit).is_ok() != is_accepted {
            return None;
        }
        if is_accepted {
            accepted = accepted.saturating_add(1);
        }
    }
    Some(accepted)
}

#[test]
fn random_flits_are_judged_alike(rt: HostRuntime) {
    for seed in 1..=8u64 {
        let hidden = accepted_by_both(Stores::Hidden, seed);
        let listed = accepted_by_both(Stores::Listed, seed);
        assert!(rt; hidden.is_some_and(|count| count > 100));
        assert!(rt; listed.is_some_and(|count| count > 100));
    }
}
