//! Write data of a line's copy-backs.
//! Not trusted: chi_explain does again what the search finds, and compares.

ghost use Rattle.std.specs.Prelude.{◌≡◌, ◌<◌, IfErr, false};
ghost use Rattle.chi_monitor.specs.Places.{is_settled};

use crate::faults::{Differing, KnownWord, LineFault};
use crate::line::{Search, are_zeros};
use crate::turns::{Turns, turn_of};
use crate::values::SeenWords;
use chi_flit::{Agent, State, Step};
use std::alloc::Allocator;

/// The words of write data that has no valid bytes.
const NO_BYTES: [Option<KnownWord>; 8] = [Some(KnownWord {
    value: 0,
    since: None,
}); 8];

impl<A: Allocator> Search<A> {
    /// CompDBIDResp of the agent's copy-back.
    pub fn ask_write_data(&mut self, agent: Agent) -> Result<(), LineFault>
        ensures { IfErr result (λ fault. is_settled fault ≡ false) }
    {
        self.act(agent, Step::Admit)?;
        self.act(agent, Step::Start)
    }

    /// The agent's write data, with these words.
    pub fn write(
        &mut self,
        turns: &Turns,
        agent: Agent,
        form: State,
        seen: &SeenWords,
    ) -> Result<(), LineFault>
        requires { agent.0 < 8 }
        ensures { IfErr result (λ fault. is_settled fault ≡ false) }
    {
        let mut side = self.at(agent);
        let kind = turn_of(turns, agent).kind();
        let same = match form {
            State::I => are_zeros(seen),
            State::SC | State::UC | State::UD | State::SD => self.values.are_now(&side.words, seen),
        };
        if !same {
            return Err(LineFault::Words(match form {
                State::I => Differing {
                    seen: *seen,
                    known: NO_BYTES,
                },
                State::SC | State::UC | State::UD | State::SD => {
                    self.values.beside(&side.words, seen)
                }
            }));
        }
        self.act(agent, Step::RecvDbid)?;
        self.act(agent, Step::RecvWrData)?;
        if form.is_dirty() {
            self.memory = side.words;
        }
        side.loaded = None;
        self.put(agent, side);
        Ok(())
    }
}
