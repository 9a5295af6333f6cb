//! What the flits so far have shown of a line's copies and words, and the actions that explain them.
//! Not trusted: chi_explain does again what the search finds, and compares.

ghost use Rattle.std.specs.Prelude.{◌≡◌, ◌<◌, IfErr, IfSome, OnOk, false, true};
ghost use Rattle.chi_monitor.specs.Forgotten.{IsForgotten};
ghost use Rattle.chi_monitor.specs.Places.{is_settled};

use crate::copies::may_hide;
use crate::faults::{Basis, KnownWord, LineFault, Reach, SeenAt};
use crate::home_turns::{Service, is_snooping};
use crate::requester::KnownRequester;
use crate::turns::{Turns, turn_of};
use crate::values::{SeenWords, Unknown, UnknownWords, Values};
use chi_explain::{StoreListing, WitnessItem};
use chi_flit::{Agent, Data, State, Step, WordNo};
use std::alloc::Allocator;

/// An item of an explanation, in which a stored value may be unknown.
#[derive(Clone, Copy)]
pub(crate) enum Draft {
    Act(Agent, Step),
    Store(Agent, WordNo, Unknown),
    Snoop(Agent),
    /// A load or a store that was seen.
    Seen(WitnessItem),
}

/// What the flits so far have shown of a line's copies and words, and the items that explain them.
#[derive(Drop)]
pub(crate) struct Search<A: Allocator> {
    pub(crate) stores: StoreListing,
    pub(crate) values: Values<A>,
    pub(crate) opening: UnknownWords,
    pub(crate) memory: UnknownWords,
    pub(crate) requesters: [KnownRequester; 8],
    /// The message by which each agent has answered.
    pub(crate) answers: [Option<Answer>; 8],
    pub(crate) items: Vec<Draft, A>,
    /// The items that are to name whose a group of snoops is: an Admit, and the Start behind it.
    pub(crate) group_at: usize,
}

/// What an answer to a snoop does to the home.
#[derive(Clone, Copy)]
pub(crate) enum Answer {
    Invalid,
    Clean,
    /// Dirty data, and no copy is left.
    InvalidPassed(UnknownWords),
    /// Dirty data, and a clean copy is left.
    CleanPassed(UnknownWords),
    /// Data whose sender stays responsible.
    Shared(UnknownWords),
}

/// Whether the words that were seen are all 0.
pub(crate) fn are_zeros(seen: &SeenWords) -> bool {
    seen.iter().all(|word| word.unwrap_or(0) == 0)
}

impl<A: Allocator + Copy> Search<A> {
    /// A line that nobody has a copy of, and nothing is known of its memory.
    pub fn new(alloc: A, stores: StoreListing) -> Result<Search<A>, LineFault> {
        let mut values = Values::new(alloc);
        let memory = values.unknown_line()?;
        Ok(Search {
            stores,
            values,
            opening: memory,
            memory,
            requesters: [KnownRequester::NONE; 8],
            answers: [None; 8],
            items: Vec::new(alloc),
            group_at: 0,
        })
    }
}

impl<A: Allocator> Search<A> {
    /// The number of what is seen now.
    pub(crate) fn now(&self) -> SeenAt {
        self.values.number
    }

    /// The items of the explanation so far.
    pub fn items(&self) -> &[Draft] {
        &self.items
    }

    /// What memory had at first, as far as it is known.
    pub fn opening(&self) -> Data {
        self.values.line(&self.opening)
    }

    /// The value of a word, as far as it is known.
    pub fn value(&self, word: Unknown) -> u64 {
        self.values.value(word)
    }

    /// The words that the next data of the agent to the home has, as far as they are known; 0 where they aren't.
    pub fn words_of(&self, agent: Agent) -> Data
        requires { agent.0 < 8 }
    {
        self.values.line(&self.at(agent).words)
    }

    /// The words of the data that the agent has been sent, or else of its copy.
    pub fn words_at(&self, agent: Agent) -> UnknownWords
        requires { agent.0 < 8 }
    {
        let side = self.at(agent);
        side.given.unwrap_or(side.words)
    }

    /// The values of words, as far as they are known; 0 where they aren't.
    pub fn values_of(&self, words: &UnknownWords) -> Data {
        self.values.line(words)
    }

    /// The dirty words that an agent has given for the completion that is next; those of memory where none has.
    pub fn given(&self) -> Data {
        let mut words = self.memory;
        for answer in self.answers {
            match answer {
                Some(
                    Answer::Shared(given)
                    | Answer::InvalidPassed(given)
                    | Answer::CleanPassed(given),
                ) => words = given,
                Some(Answer::Invalid | Answer::Clean) | None => {}
            }
        }
        self.values.line(&words)
    }

    /// The agent's step is one more item.
    pub(crate) fn act(&mut self, agent: Agent, step: Step) -> Result<(), LineFault>
        ensures { IfErr result (λ fault. is_settled fault ≡ false) }
    {
        self.items.push(Draft::Act(agent, step))?;
        Ok(())
    }

    /// The agent's side.
    pub(crate) fn at(&self, agent: Agent) -> KnownRequester
        requires { agent.0 < 8 }
    {
        self.requesters[usize::from(agent.0)]
    }

    pub(crate) fn put(&mut self, agent: Agent, requester: KnownRequester)
        requires { agent.0 < 8 }
    {
        self.requesters[usize::from(agent.0)] = requester;
    }

    /// Whether stores may have been done that weren't seen.
    pub(crate) fn may_hide(&self) -> bool {
        may_hide(self.stores)
    }

    /// The states that the agent's copy may be in by now.
    pub(crate) fn reach(&self, turns: &Turns, agent: Agent) -> Reach
        requires { agent.0 < 8 }
    {
        match self.loaded_reach(turns, agent) {
            Some(reach) => reach,
            None => turn_of(turns, agent).reach(self.stores),
        }
    }

    /// The same where the value of a load has told that the copy is in UD.
    pub(crate) fn loaded_reach(&self, turns: &Turns, agent: Agent) -> Option<Reach>
        requires { agent.0 < 8 }
        ensures { IfSome result (λ reach. reach.loaded ≡ true) }
    {
        match self.at(agent).loaded {
            Some(at) => Some(Reach {
                base: State::UD,
                since: Some(at),
                loaded: true,
                ..turn_of(turns, agent).reach(self.stores)
            }),
            None => None,
        }
    }

    /// Stores the words, one after the other.
    pub(crate) fn store_all(&mut self, agent: Agent, words: &UnknownWords) -> Result<(), LineFault>
        ensures { IfErr result (λ fault. is_settled fault ≡ false) }
    {
        for (number, word) in words.iter().enumerate() {
            self.items
                .push(Draft::Store(agent, WordNo(number as u8), *word))?;
        }
        Ok(())
    }

    /// A load of the agent that read this value.
    pub fn load(
        &mut self,
        turns: &Turns,
        agent: Agent,
        word: WordNo,
        value: u64,
    ) -> Result<(), LineFault>
        requires agents { agent.0 < 8 }
        requires words { word.0 < 8 }
        ensures { IfErr result (λ fault. is_settled fault ≡ false) }
    {
        let side = self.at(agent);
        let held = side.words[usize::from(word.0)];
        match self.values.known_word(held) {
            Some(known) if known.value != value => {
                self.store_before(turns, agent, word, value, known)?;
            }
            Some(_) | None => self.values.bind(held, Some(value)),
        }
        self.items
            .push(Draft::Seen(WitnessItem::Load(agent, word, value)))?;
        Ok(())
    }

    /// Before a load that read this value there was a store, where one may be hidden: the copy had another value. That
    /// none is done while a request is pending is a choice of the profile.
    fn store_before(
        &mut self,
        turns: &Turns,
        agent: Agent,
        word: WordNo,
        value: u64,
        known: KnownWord,
    ) -> Result<(), LineFault>
        requires agents { agent.0 < 8 }
        requires words { word.0 < 8 }
        ensures { IfErr result (λ fault. is_settled fault ≡ false) }
    {
        let mut side = self.at(agent);
        let turn = turn_of(turns, agent);
        let may = turn.copy.base.is_unique() && self.may_hide();
        if !may || !turn.is_free() {
            let basis = if may { Basis::Profile } else { Basis::Standard };
            return Err(LineFault::Word(word, known, basis));
        }
        let now = self.values.known_one(value)?;
        self.items.push(Draft::Store(agent, word, now))?;
        side.words[usize::from(word.0)] = now;
        side.loaded = Some(self.now());
        self.put(agent, side);
        Ok(())
    }

    /// A store of the agent that wrote this value.
    pub fn store(&mut self, agent: Agent, word: WordNo, value: u64) -> Result<(), LineFault>
        requires agents { agent.0 < 8 }
        requires words { word.0 < 8 }
        ensures { IfErr result (λ fault. is_settled fault ≡ false) }
    {
        let mut side = self.at(agent);
        side.words[usize::from(word.0)] = self.values.known_one(value)?;
        side.loaded = None;
        self.put(agent, side);
        self.items
            .push(Draft::Seen(WitnessItem::Store(agent, word, value)))?;
        Ok(())
    }

    /// Forgets the items that no flit can change any more, and the words that the line hasn't.
    pub fn forget(&mut self, service: &Service) -> Result<(), LineFault>
        ensures { OnOk result (IsForgotten service.now self.new.items.items) }
    {
        if self.values.are_many() {
            self.forget_words()?;
        }
        if !is_snooping(service) {
            self.items.clear();
        }
        Ok(())
    }

    /// Forgets the words that the line hasn't.
    fn forget_words(&mut self) -> Result<(), LineFault> {
        self.values.keep(&mut self.opening)?;
        self.values.keep(&mut self.memory)?;
        for side in self.requesters.iter_mut() {
            self.values.keep(&mut side.words)?;
            if let Some(words) = &mut side.given {
                self.values.keep(words)?;
            }
        }
        for answer in self.answers.iter_mut() {
            if let Some(
                Answer::InvalidPassed(words) | Answer::CleanPassed(words) | Answer::Shared(words),
            ) = answer
            {
                self.values.keep(words)?;
            }
        }
        self.values.forget_others()?;
        Ok(())
    }
}
