//! A line that isn't judged from some flit on, and comes back once nothing of it is outstanding.

use crate::random::Random;
use crate::walk::{cache_flit, home_flit};
use chi_copies::{Begun, Line, NOTHING_DUE, Reason, Unjudged};
use chi_flit::{Agent, NO_DATA, State};
use chi_observer::{Act, Answer, CacheFlit, Flit, Grant, HomeFlit, Kind, Snoop, Stores};

/// What who follows the ids says of a flit of a cache.
fn tell_sent(unjudged: &mut Unjudged, flit: CacheFlit) {
    match flit.act {
        Act::Request(_) | Act::Resend(_) => unjudged.requested(flit.agent),
        Act::SnpResp(_) | Act::CompAck | Act::CopyBackWrData(_) | Act::NonCopyBackWrData => {
            unjudged.ended()
        }
        Act::Load(_) | Act::Store(_) => {}
    }
}

/// What who follows the ids says of a flit of the home; `is_last` says that nothing is due of its request behind it.
fn tell_given(unjudged: &mut Unjudged, flit: HomeFlit, is_last: bool) {
    match flit.grant {
        Grant::RetryAck => unjudged.retried(flit.agent),
        Grant::Snp(_) => unjudged.snooped(flit.agent),
        Grant::CompData(_) | Grant::CompUC | Grant::CompSC | Grant::CompI | Grant::CompDBIDResp => {
            if is_last {
                unjudged.ended();
            }
        }
    }
}

/// Whether the line takes the flit.
fn is_taken(line: &mut Line, flit: Flit) -> bool {
    match flit {
        Flit::Up(sent) => line.take(sent).is_ok(),
        Flit::Down(given) => line.take_home(given).is_ok(),
    }
}

/// How many flits of a random legal trace are told of to a line that isn't judged; `None` at the first behind which it has
/// something else outstanding than the judged line.
fn told_alike(seed: u64) -> Option<u32> {
    let mut random = Random::new(seed);
    let mut line = Line::new(Stores::Hidden);
    let mut unjudged = line.outstanding();
    let mut told = 0u32;
    for _ in 0..2000 {
        let flit = random.flit()?;
        if is_taken(&mut line, flit) {
            match flit {
                Flit::Up(sent) => tell_sent(&mut unjudged, sent),
                Flit::Down(given) => {
                    let due = line.due.get(usize::from(given.agent.0))?;
                    tell_given(&mut unjudged, given, *due == NOTHING_DUE);
                }
            }
            if unjudged != line.outstanding() {
                return None;
            }
            told = told.saturating_add(1);
        }
    }
    Some(told)
}

#[test]
fn what_is_outstanding_is_as_the_flits_say(rt: HostRuntime) {
    for seed in 1..=5u64 {
        assert!(rt; told_alike(seed).is_some_and(|count| count > 60));
    }
}

/// Whether a flit opens a request, or one that was retried again.
fn asks(flit: Flit) -> bool {
    match flit {
        Flit::Up(sent) => matches!(sent.act, Act::Request(_) | Act::Resend(_)),
        Flit::Down(_) => false,
    }
}

/// How many flits of a random legal trace are taken by a line that comes back as soon as nothing is outstanding, and isn't judged
/// from the `length`th random flit behind on; `None` at the first that it doesn't take. While it isn't judged nothing is asked.
fn taken_behind_returns(stores: Stores, seed: u64, length: u32) -> Option<u32> {
    let mut random = Random::new(seed);
    let mut line = Line::new(stores);
    let mut back: Option<Begun> = None;
    let (mut told, mut taken) = (length, 0u32);
    for _ in 0..2000 {
        if told == length {
            back = None;
            told = 0;
        } else if back.is_none() {
            back = line.outstanding().back(stores);
        }
        told = told.saturating_add(u32::from(back.is_some()));
        let flit = random.flit()?;
        let is_tried = back.is_some() || !asks(flit);
        if is_tried
            && is_taken(&mut line, flit)
            && let Some(begun) = &mut back
        {
            begun.take(flit).ok()?;
            taken = taken.saturating_add(1);
        }
    }
    Some(taken)
}

/// How many are taken of some traces.
fn taken_of_some(stores: Stores, length: u32) -> Option<u32> {
    let mut taken = 0u32;
    for seed in 1..=30u64 {
        taken = taken.saturating_add(taken_behind_returns(stores, seed, length)?);
    }
    Some(taken)
}

#[test]
fn legal_flits_behind_a_return_are_taken(rt: HostRuntime) {
    for length in [100u32, 300] {
        let hidden = taken_of_some(Stores::Hidden, length);
        let listed = taken_of_some(Stores::Listed, length);
        assert!(rt; hidden.is_some_and(|count| count > 100));
        assert!(rt; listed.is_some_and(|count| count > 100));
    }
}

/// Flits that nothing that is open asks for, and why they aren't taken.
fn unasked() -> [(Flit, Reason); 6] {
    [
        (cache_flit(0, Act::CompAck, NO_DATA), Reason::NotSent),
        (
            cache_flit(0, Act::CopyBackWrData(State::I), NO_DATA),
            Reason::NotSent,
        ),
        (
            cache_flit(0, Act::NonCopyBackWrData, NO_DATA),
            Reason::NotSent,
        ),
        (
            cache_flit(0, Act::SnpResp(Answer::SnpRespI), NO_DATA),
            Reason::NotSent,
        ),
        (home_flit(0, Grant::CompUC, NO_DATA), Reason::NotDue),
        (home_flit(0, Grant::RetryAck, NO_DATA), Reason::NotDue),
    ]
}

#[test]
fn only_what_may_be_open_is_taken_as_from_before(rt: HostRuntime) {
    let quiet = [false; 32];
    for (flit, reason) in unasked() {
        let mut back = Begun::with_open(Stores::Hidden, &quiet, &quiet);
        assert!(rt; back.take(flit) == Err(reason));
        assert!(rt; Begun::new(Stores::Hidden).take(flit) == Ok(()));
    }
}

#[test]
fn a_line_comes_back_once_nothing_is_outstanding(rt: HostRuntime) {
    let mut unjudged = Line::new(Stores::Hidden).outstanding();
    unjudged.requested(Agent(1));
    unjudged.snooped(Agent(0));
    unjudged.opened();
    assert!(rt; !unjudged.is_over() && unjudged.back(Stores::Hidden) == None);
    unjudged.ended();
    unjudged.ended();
    unjudged.retried(Agent(1));
    assert!(rt; unjudged.is_over());
    let resend = cache_flit(1, Act::Resend(Kind::ReadUnique), NO_DATA);
    let other = cache_flit(0, Act::Resend(Kind::ReadUnique), NO_DATA);
    let mut back = unjudged
        .back(Stores::Hidden)
        .expect(&rt, "nothing is outstanding");
    assert!(rt; back.take(other) == Err(Reason::NotSent));
    assert!(rt; back.take(resend) == Ok(()));
    let answer = cache_flit(0, Act::SnpResp(Answer::SnpRespI), NO_DATA);
    assert!(rt; back.take(home_flit(0, Grant::Snp(Snoop::SnpUnique), NO_DATA)) == Ok(()));
    assert!(rt; back.take(answer) == Ok(()));
    assert!(rt; back.outstanding().outstanding == 1);
}
