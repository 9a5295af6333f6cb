//! Whether a line is coherent, where it lies or as plain data.

ghost use Rattle.std.specs.Prelude.{◌≡◌, ◌≢◌, ◌↔◌, ◌<◌, IsTrue, true};
ghost use Rattle.chi_line.specs.Clean.{CoherentParts, IsCleanAgent, passes_dirty};
ghost use Rattle.chi_slice.specs.Verdict.{IsBacked, IsCoherentView, IsPassed, IsVerdictOnShown, MayOthersStand, MayStandBeside, MayStandTogether, state_in};

use chi_flit::{Agent, DatUp, Data, State};
use chi_line::LineView;

/// Whether the plain data of a line is coherent: a unique copy stands alone, each holder is named and has
/// the values that were stored last, memory has them where nothing is dirty, and one copy at most is SD.
/// Takes no memory.
/// Source: `docs/PROTOCOL.md`, "Coherence".
pub fn check(view: &LineView) -> bool
    ensures data { IsTrue result ↔ IsCoherentView view.now }
    ensures line { IsVerdictOnShown view.now result }
{
    is_coherent(view)
}

/// Whether memory and each agent's copy are coherent in the plain data of a line.
fn is_coherent(view: &LineView) -> bool
    ensures { IsTrue result ↔ IsCoherentView view.now }
{
    let mut states = [State::I; 8];
    let (mut backed, mut clean) = (true, true);
    for agent in 0..8 {
        let copy = &view.copies[agent];
        states[agent] = copy.state;
        backed &= is_backed(copy.state, view.named[agent], &copy.words, &view.last);
        clean &= is_clean(copy.state, &view.flits[agent].dat_up);
    }
    is_passed(backed, clean, &view.memory, &view.last, &states)
}

/// Whether a line is coherent, where it lies; last are the values last stored to its words.
pub fn is_line_coherent(line: &chi_line::CoherentLine, last: Data) -> bool
    ensures { IsTrue result ↔ CoherentParts last line.now }
{
    let home = line.home();
    let named = home.filter().named();
    let mut states = [State::I; 8];
    let (mut backed, mut clean) = (true, true);
    for agent in 0..8 {
        let copy = line.copy(Agent(agent));
        let (state, place) = (copy.state(), usize::from(agent));
        states[place] = state;
        backed &= is_backed(state, named[place], &copy.words(), &last);
        clean &= is_clean(state, &line.flits(Agent(agent)).dat_up);
    }
    is_passed(backed, clean, &home.memory(), &last, &states)
}

/// Whether what a walk over the agents of a line found is coherent: each copy is backed, memory is last where
/// all is clean, and the copies may stand together.
fn is_passed(backed: bool, clean: bool, memory: &Data, last: &Data, states: &[State; 8]) -> bool
    ensures { IsTrue result ↔ IsPassed backed clean memory.now last.now states.now }
{
    backed && is_memory_last(clean, memory, last) && may_stand_together(states)
}

/// Whether a copy, if there is one, has an agent that is named, and the values that were stored last.
fn is_backed(state: State, named: bool, words: &Data, last: &Data) -> bool
    ensures { IsTrue result ↔ IsBacked state named words.now last.now }
{
    !state.is_valid() || (named && *words == *last)
}

/// Whether memory has the values that were stored last, or something isn't clean.
fn is_memory_last(clean: bool, memory: &Data, last: &Data) -> bool
    ensures { IsTrue result ↔ (clean ≡ true → memory.now ≡ last.now) }
{
    !clean || *memory == *last
}

/// Whether a copy isn't dirty, and what its agent sends up passes no dirty data on.
fn is_clean(state: State, sent: &Option<DatUp>) -> bool
    ensures { IsTrue result ↔ IsCleanAgent state sent.now }
{
    !state.is_dirty() && !passes_dirty(sent)
}

/// Whether data on its way up passes the responsibility for it.
fn passes_dirty(sent: &Option<DatUp>) -> bool
    ensures { result ≡ passes_dirty sent.now }
{
    match sent {
        Some(DatUp::SnpRespDataIPD(_) | DatUp::SnpRespDataSCPD(_)) => true,
        Some(DatUp::CopyBackWrData(form, _)) => form.is_dirty(),
        Some(DatUp::SnpRespDataSD(_)) | None => false,
    }
}

/// Whether eight agents' copies may stand beside one another.
fn may_stand_together(states: &[State; 8]) -> bool
    ensures { IsTrue result ↔ MayStandTogether states.now }
{
    let mut may = true;
    for agent in 0..8 {
        may &= may_others_stand(states, agent);
    }
    may
}

/// Whether the others' copies may stand beside the agent's.
fn may_others_stand(states: &[State; 8], agent: usize) -> bool
    requires { agent < 8 }
    ensures { IsTrue result ↔ MayOthersStand states.now agent }
{
    let mut may = true;
    for other in 0..8 {
        may &= may_other_stand(states, agent, other);
    }
    may
}

/// Whether another agent's copy may stand beside the agent's.
fn may_other_stand(states: &[State; 8], agent: usize, other: usize) -> bool
    requires agent { agent < 8 }
    requires other { other < 8 }
    ensures { IsTrue result
        ↔ (other ≢ agent → MayStandBeside (state_in states.now agent) (state_in states.now other)) }
{
    other == agent || may_stand_beside(states[agent], states[other])
}

/// Whether a copy in a state may have another agent's in such a state beside it.
fn may_stand_beside(state: State, other: State) -> bool
    ensures { IsTrue result ↔ MayStandBeside state other }
{
    match (state, other) {
        (_, State::I) | (State::I | State::SC, _) => true,
        (State::SD, State::SC | State::UC | State::UD) => true,
        (State::UC | State::UD, _) | (State::SD, State::SD) => false,
    }
}
