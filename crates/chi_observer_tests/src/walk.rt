//! Each row's flits, judged one after the other.

use crate::rows::ROWS;
use crate::said::{OLD, Said, said_by};
use chi_copies::{Arriving, Begun as BegunBySets, Line};
use chi_flit::{Agent, Data, NO_DATA, State};
use chi_observer::{
    Act, Arrivals, Begun, CacheFlit, Flit, Grant, HomeFlit, Kind, Reason, Stores, Untaken,
    WordedObserver,
};

/// What judges the flits of a row.
#[derive(Drop)]
enum Judge {
    Whole(WordedObserver),
    Home(Arrivals),
    Begun(Begun),
    /// By sets of what agents may be that have flits on their way: whether one of a cache is accepted, and no reason.
    Arriving(Arriving),
    /// By sets of copies: whether a flit is accepted, and no reason.
    Copies(Line),
    CopiesBegun(BegunBySets),
}

impl Judge {
    /// The judge that the first word of a row names.
    fn named(word: &str) -> Option<Judge> {
        match word.as_bytes() {
            b"hidden" => Some(Judge::Whole(WordedObserver::new(Stores::Hidden))),
            b"listed" => Some(Judge::Whole(WordedObserver::new(Stores::Listed))),
            b"home" => Some(Judge::Home(Arrivals::new())),
            b"arriving" => Some(Judge::Arriving(Arriving::new())),
            b"begun" | b"tails" => Some(Judge::Begun(Begun::new(Stores::Hidden))),
            _ => None,
        }
    }

    /// The judge by sets of copies that stands for the first word of a row, if there is one.
    fn with_sets(word: &str) -> Option<Judge> {
        match word.as_bytes() {
            b"hidden" => Some(Judge::Copies(Line::new(Stores::Hidden))),
            b"listed" => Some(Judge::Copies(Line::new(Stores::Listed))),
            b"begun" | b"tails" => Some(Judge::CopiesBegun(BegunBySets::new(Stores::Hidden))),
            _ => None,
        }
    }

    /// Whether the judge says of a flit what is wanted.
    fn says(&mut self, flit: Flit, wanted: Result<(), Untaken>) -> bool {
        let is_by_sets = matches!(self, Judge::Copies(_) | Judge::CopiesBegun(_));
        let said = self.take(flit);
        said == wanted || is_by_sets && said.is_ok() == wanted.is_ok()
    }

    fn take(&mut self, flit: Flit) -> Result<(), Untaken> {
        match self {
            Judge::Arriving(line) => match flit {
                Flit::Up(sent) => line
                    .take(sent, false)
                    .map_err(|_| Untaken::Fault(Reason::NotSent)),
                Flit::Down(_) => Err(Untaken::Fault(Reason::NotDue)),
            },
            Judge::Copies(line) => match flit {
                Flit::Up(sent) => line.take(sent),
                Flit::Down(given) => line.take_home(given),
            }
            .map_err(|_| Untaken::Fault(Reason::NotSent)),
            Judge::CopiesBegun(line) => line
                .take(flit)
                .map_err(|_| Untaken::Fault(Reason::NotSent)),
            Judge::Whole(observer) => observer.take(flit).map_err(Untaken::Fault),
            Judge::Home(arrivals) => arrivals.take(flit),
            Judge::Begun(begun) => begun.take(flit).map_err(Untaken::Fault),
        }
    }

    /// Whether the judge accepts agent 0's read of the old words, alone.
    fn takes_owner(&mut self) -> bool {
        let request = cache_flit(0, Act::Request(Kind::ReadUnique), NO_DATA);
        let data = home_flit(0, Grant::CompData(State::UC), OLD);
        let done = cache_flit(0, Act::CompAck, NO_DATA);
        self.take(request).is_ok() && self.take(data).is_ok() && self.take(done).is_ok()
    }
}

/// This flit of an agent's cache.
pub(crate) fn cache_flit(agent: u8, act: Act, shown: Data) -> Flit {
    Flit::Up(CacheFlit {
        agent: Agent(agent),
        act,
        shown,
    })
}

/// This flit of the home to an agent.
pub(crate) fn home_flit(agent: u8, grant: Grant, shown: Data) -> Flit {
    Flit::Down(HomeFlit {
        agent: Agent(agent),
        grant,
        shown,
    })
}

/// What the words of a flit have said so far.
#[derive(Clone, Copy)]
struct Draft {
    agent: u8,
    act: Option<Act>,
    grant: Option<Grant>,
    shown: Data,
    wanted: Result<(), Untaken>,
    is_owner: bool,
}

impl Draft {
    const EMPTY: Draft = Draft {
        agent: 0,
        act: None,
        grant: None,
        shown: NO_DATA,
        wanted: Ok(()),
        is_owner: false,
    };

    /// The draft after one word more; `None` where no row of the words has it.
    fn with(self, word: &str) -> Option<Draft> {
        if word == "owner" {
            return Some(Draft {
                is_owner: true,
                ..self
            });
        }
        Some(match said_by(word)? {
            Said::Cache(agent) | Said::Home(agent) => Draft { agent, ..self },
            Said::Act(act) => Draft {
                act: Some(act),
                ..self
            },
            Said::Grant(grant) => Draft {
                grant: Some(grant),
                ..self
            },
            Said::Again => Draft {
                act: self.act.map(sent_again),
                ..self
            },
            Said::Shown(shown) => Draft { shown, ..self },
            Said::Refused(reason) => Draft {
                wanted: Err(Untaken::Fault(reason)),
                ..self
            },
            Said::NotJudged(cause) => Draft {
                wanted: Err(Untaken::SetAside(cause)),
                ..self
            },
            Said::Nothing => self,
        })
    }

    /// Whether the judge says of the flit what the row wants.
    fn is_judged_so(&self, judge: &mut Judge) -> bool {
        if self.is_owner {
            return judge.takes_owner();
        }
        let flit = match (self.act, self.grant) {
            (Some(act), None) => cache_flit(self.agent, act, self.shown),
            (None, Some(grant)) => home_flit(self.agent, grant, self.shown),
            _ => return false,
        };
        judge.says(flit, self.wanted)
    }
}

/// The request, sent again with a credit.
fn sent_again(act: Act) -> Act {
    match act {
        Act::Request(kind) => Act::Resend(kind),
        other => other,
    }
}

/// Whether the flits from this one on are judged as the row wants; the row's first two words are passed over.
fn is_row_so(row: &str, first: usize, mut judge: Judge) -> bool {
    let (mut draft, mut place) = (Draft::EMPTY, 0usize);
    for word in row.split_whitespace().skip(2) {
        if word != ";" {
            let Some(more) = draft.with(word) else {
                return false;
            };
            draft = more;
        } else {
            if place >= first && !draft.is_judged_so(&mut judge) {
                return false;
            }
            draft = Draft::EMPTY;
            place = place.saturating_add(1);
        }
    }
    place < first || draft.is_judged_so(&mut judge)
}

/// Whether a row that is judged as its first word says is so from this flit on.
fn is_named_row_so(row: &str, first: usize) -> bool {
    match row.split_whitespace().next().and_then(Judge::named) {
        Some(judge) => is_row_so(row, first, judge),
        None => false,
    }
}

/// Whether the row is so: of tails, from each of its flits on.
fn is_whole_row_so(row: &str) -> bool {
    if !row.starts_with("tails") {
        return is_named_row_so(row, 0);
    }
    (0..16).all(|first| is_named_row_so(row, first))
}

/// Whether sets of copies accept just what the row accepts from this flit on, where they judge it.
fn is_row_so_by_sets(row: &str, first: usize) -> bool {
    match row.split_whitespace().next().and_then(Judge::with_sets) {
        Some(judge) => is_row_so(row, first, judge),
        None => true,
    }
}

/// Whether they do from its first flit on: of tails, from each.
fn is_whole_row_so_by_sets(row: &str) -> bool {
    if !row.starts_with("tails") {
        return is_row_so_by_sets(row, 0);
    }
    (0..16).all(|first| is_row_so_by_sets(row, first))
}

#[test]
fn flits_are_judged_as_their_rows_say(rt: HostRuntime) {
    for rows in ROWS {
        for row in rows {
            assert!(rt; is_whole_row_so(row), "{row}");
        }
    }
}

#[test]
fn sets_of_copies_accept_what_the_rows_accept(rt: HostRuntime) {
    for rows in ROWS {
        for row in rows {
            assert!(rt; is_whole_row_so_by_sets(row), "{row}");
        }
    }
}
