//! Which lines of a trace told what is known of a line of memory.

ghost use Rattle.std.specs.Prelude.{◌≡◌, ◌<◌, OnOk, is_some, length, option_map};
ghost use Rattle.chi_observe.specs.Marks.{copies_in, is_known, marked, marks_after, nothing_marked, shows_known, shows_words, tells_copy, teller_of};
ghost use Rattle.chi_observer.specs.Worlds.{put};

use chi_flit::{Agent, Data, State};
use chi_observer::{Act, Answer, Flit, Grant};
use std::alloc::{AllocError, Allocator};

/// The lines of the trace that told what is known of a line of memory, by their numbers, which are counted from 1.
/// Source: `docs/OBSERVER.md`, "A trace of many lines".
#[derive(Drop)]
pub(crate) struct Marks<A: Allocator> {
    /// The line's first flit.
    pub first: usize,
    /// Of each agent the last flit that told of its copy; 0 where there is none, as of those that the list lacks.
    pub copies: Vec<usize, A>,
    /// The last flit that showed the words that are known; 0 where there is none.
    pub words: usize,
}

/// The agent of a flit.
pub(crate) fn teller_of(flit: Flit) -> Agent
    ensures { result ≡ teller_of flit }
{
    match flit {
        Flit::Up(sent) => sent.agent,
        Flit::Down(given) => given.agent,
    }
}

/// Whether a flit tells of its agent's copy.
fn tells_copy(flit: &Flit) -> bool
    ensures { result ≡ tells_copy flit.now }
{
    match flit {
        Flit::Up(sent) => match sent.act {
            Act::Request(_)
            | Act::Resend(_)
            | Act::SnpResp(_)
            | Act::CopyBackWrData(_)
            | Act::NonCopyBackWrData
            | Act::Load(_)
            | Act::Store(_) => true,
            Act::CompAck => false,
        },
        Flit::Down(given) => match given.grant {
            Grant::CompData(_) | Grant::CompUC | Grant::CompDBIDResp => true,
            Grant::RetryAck | Grant::Snp(_) | Grant::CompSC | Grant::CompI => false,
        },
    }
}

/// The words that a flit shows, if it shows some.
fn shown_by(flit: &Flit) -> Option<&Data>
    ensures { option_map (λ words. words.now) result ≡ shows_words flit.now }
{
    match flit {
        Flit::Up(sent) => match sent.act {
            Act::SnpResp(Answer::SnpRespI | Answer::SnpRespSC | Answer::SnpRespUC) => None,
            Act::SnpResp(_) => Some(&sent.shown),
            Act::CopyBackWrData(State::I) => None,
            Act::CopyBackWrData(_) => Some(&sent.shown),
            Act::NonCopyBackWrData => Some(&sent.shown),
            Act::Request(_) | Act::Resend(_) | Act::CompAck | Act::Load(_) | Act::Store(_) => None,
        },
        Flit::Down(given) => match given.grant {
            Grant::CompData(_) => Some(&given.shown),
            Grant::RetryAck
            | Grant::Snp(_)
            | Grant::CompUC
            | Grant::CompSC
            | Grant::CompI
            | Grant::CompDBIDResp => None,
        },
    }
}

/// Whether a flit shows words.
pub(crate) fn shows_some(flit: &Flit) -> bool
    ensures { result ≡ is_some (shows_words flit.now) }
{
    match shown_by(flit) {
        Some(_) => true,
        None => false,
    }
}

/// Whether the words are known, and are these.
pub(crate) fn is_known(known: &Option<Data>, shown: &Data) -> bool
    ensures { result ≡ is_known known.now shown.now }
{
    match known {
        None => false,
        Some(known) => *known == *shown,
    }
}

/// Whether a flit shows the words that are known behind it.
fn shows_known(flit: &Flit, known: &Option<Data>) -> bool
    ensures { result ≡ shows_known flit.now known.now }
{
    match shown_by(flit) {
        None => false,
        Some(shown) => is_known(known, shown),
    }
}

/// The list has this place, and each that it lacked is 0.
fn reach<A: Allocator>(copies: &mut Vec<usize, A>, at: usize) -> Result<(), AllocError>
    ensures same { OnOk result (copies_in copies.new.items ≡ copies_in copies.old.items) }
    ensures there { OnOk result (at < length copies.new.items) }
{
    'places: while copies.len() <= at {
        copies.push(0)?;
    }
    Ok(())
}

/// The place has this number.
fn put_copy<A: Allocator>(
    copies: &mut Vec<usize, A>,
    at: usize,
    number: usize,
) -> Result<(), AllocError>
    ensures { OnOk result
        (copies_in copies.new.items ≡ put at number (copies_in copies.old.items)) }
{
    reach(copies, at)?;
    copies[at] = number;
    Ok(())
}

impl<A: Allocator> Marks<A> {
    /// Those of a line whose first flit has this number, before it, in this memory.
    pub(crate) fn new(memory: Vec<usize, A>, first: usize) -> Marks<A>
        ensures { marked result ≡ nothing_marked first }
    {
        let mut copies = memory;
        copies.clear();
        Marks {
            first,
            copies,
            words: 0,
        }
    }

    /// A flit that was taken is marked: by its number, and the words that are known behind it.
    pub(crate) fn mark(
        &mut self,
        flit: &Flit,
        known: &Option<Data>,
        number: usize,
    ) -> Result<(), AllocError>
        ensures { OnOk result
            (marked self.new ≡ marks_after number flit.now known.now (marked self.old)) }
    {
        if shows_known(flit, known) {
            self.words = number;
        }
        if tells_copy(flit) {
            let agent = teller_of(*flit);
            put_copy(&mut self.copies, usize::from(agent.0), number)?;
        }
        Ok(())
    }
}
