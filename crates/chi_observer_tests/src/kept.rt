//! What an observer keeps, where no flit shows it.

use crate::said::{FIVE, LATER, NEW, NINE, OLD};
use crate::walk::{cache_flit, home_flit};
use chi_flit::{Agent, NO_DATA, State};
use chi_observer::{Act, Answer, Begun, Flit, Grant, Kind, Snoop, Stores, Wanted, WordedObserver};

/// Agent 0's read of the old words, alone.
fn owner() -> [Flit; 3] {
    [
        cache_flit(0, Act::Request(Kind::ReadUnique), NO_DATA),
        home_flit(0, Grant::CompData(State::UC), OLD),
        cache_flit(0, Act::CompAck, NO_DATA),
    ]
}

#[test]
fn a_store_leaves_the_other_words(rt: HostRuntime) {
    let mut observer = WordedObserver::new(Stores::Listed);
    for flit in owner() {
        assert!(rt; observer.take(flit) == Ok(()));
    }
    for word in [NINE, FIVE] {
        assert!(rt; observer.take(cache_flit(0, Act::Store(word), NO_DATA)) == Ok(()));
    }
    let known = observer.known_words();
    assert!(rt; known.words == LATER && known.at(0) == Some(7) && known.at(8) == None);
}

#[test]
fn the_words_of_an_answer_are_wanted_where_some_are_known(rt: HostRuntime) {
    let mut observer = WordedObserver::new(Stores::Hidden);
    for flit in owner() {
        assert!(rt; observer.take(flit) == Ok(()));
    }
    let request = cache_flit(0, Act::Request(Kind::WriteBackFull), NO_DATA);
    assert!(rt; observer.take(request) == Ok(()));
    assert!(rt; observer.take(home_flit(0, Grant::RetryAck, NO_DATA)) == Ok(()));
    let answer = cache_flit(0, Act::SnpResp(Answer::SnpRespDataSCPD), NO_DATA);
    assert!(rt; observer.wanted(answer) == Wanted::Any);
    assert!(rt; observer.take(cache_flit(0, Act::Load(FIVE), NO_DATA)) == Ok(()));
    assert!(rt; observer.wanted(answer) == Wanted::Nothing);
}

#[test]
fn an_answer_of_other_words_tells_of_a_cancel(rt: HostRuntime) {
    for (words, cancelled) in [(OLD, true), (NEW, false)] {
        let mut observer = WordedObserver::new(Stores::Hidden);
        let flits = [
            cache_flit(0, Act::Request(Kind::WriteBackFull), NO_DATA),
            home_flit(0, Grant::RetryAck, NO_DATA),
            cache_flit(0, Act::Load(NINE), NO_DATA),
            cache_flit(1, Act::Request(Kind::ReadShared), NO_DATA),
            home_flit(0, Grant::Snp(Snoop::SnpShared), NO_DATA),
            cache_flit(0, Act::SnpResp(Answer::SnpRespDataSCPD), words),
        ];
        for flit in owner().into_iter().chain(flits) {
            assert!(rt; observer.take(flit) == Ok(()));
        }
        assert!(rt; observer.seen.agents[0].cancelled == cancelled);
    }
}

#[test]
fn what_a_flit_from_before_may_have_told_is_forgotten(rt: HostRuntime) {
    let mut begun = Begun::new(Stores::Hidden);
    let opening = [
        cache_flit(1, Act::Store(NINE), NO_DATA),
        home_flit(1, Grant::Snp(Snoop::SnpUnique), NO_DATA),
        cache_flit(1, Act::SnpResp(Answer::SnpRespDataIPD), NEW),
    ];
    for flit in opening {
        assert!(rt; begun.take(flit) == Ok(()));
    }
    assert!(rt; begun.observer.home == Some(NEW));
    begun.forget(Agent(0));
    assert!(rt; begun.observer.home == None);
    let evict = cache_flit(0, Act::Request(Kind::Evict), NO_DATA);
    assert!(rt; begun.take(evict) == Ok(()));
}
