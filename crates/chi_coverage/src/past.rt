//! What the steps before have left.

use crate::steps::Step;
use chi_flit::DatUp;
use chi_replay::Reply;
use chi_script::Verb;

/// What the steps before have left, as far as the answers show it.
/// Source: `docs/FORMATS.md`, "Coverage", and `docs/PROTOCOL.md`, "Slots and accounts".
#[derive(Clone, Copy)]
pub(crate) struct Past {
    /// The seen credits, the Riding and the Cancelled slots, by agent and credit type.
    seen: [[u32; 4]; 8],
    riding: [[u32; 4]; 8],
    cancelled: [[u32; 4]; 8],
    /// By line, the answers SnpRespData_SD, and the answers SnpRespData_SC_PD of an owner.
    shared: [u32; 64],
    passed: [u32; 64],
}

/// The number at a place; 0 where there is none.
fn at(numbers: &[u32], place: usize) -> u32 {
    numbers.get(place).copied().unwrap_or(0)
}

/// One more at a place, where it is one.
fn more(numbers: &mut [u32], place: usize) {
    if let Some(number) = numbers.get_mut(place) {
        *number = number.saturating_add(1);
    }
}

/// One fewer at a place, where it is one.
fn fewer(numbers: &mut [u32], place: usize) {
    if let Some(number) = numbers.get_mut(place) {
        *number = number.saturating_sub(1);
    }
}

impl Past {
    /// Before the first step.
    pub(crate) fn new() -> Past {
        Past {
            seen: [[0; 4]; 8],
            riding: [[0; 4]; 8],
            cancelled: [[0; 4]; 8],
            shared: [0; 64],
            passed: [0; 64],
        }
    }

    /// After a step; a refused one leaves nothing.
    pub(crate) fn follow(&mut self, step: &Step) {
        let (agent, credit) = (usize::from(step.agent.0 % 8), step.credit());
        let (line, scene) = (usize::from(step.line.0), &step.scene);
        match (step.verb(), step.reply, scene.flits.dat_up) {
            (_, Reply::Refused(_), _) => {}
            (_, Reply::Credits(credits), _) => self.seen[agent] = credits.counts,
            (Verb::Resend, _, _) => more(&mut self.riding[agent], credit),
            (Verb::Cancel, _, _) => more(&mut self.cancelled[agent], credit),
            (Verb::Arrive, _, _) if scene.is_resent() => {
                fewer(&mut self.seen[agent], credit);
                fewer(&mut self.riding[agent], credit);
            }
            (Verb::GiveBack, _, _) => {
                fewer(&mut self.seen[agent], credit);
                fewer(&mut self.cancelled[agent], credit);
            }
            (Verb::SnpResp, _, Some(DatUp::SnpRespDataSD(_))) => more(&mut self.shared, line),
            (Verb::SnpResp, _, Some(DatUp::SnpRespDataSCPD(_))) if scene.owns => {
                more(&mut self.passed, line);
            }
            _ => {}
        }
    }

    /// Whether a seen credit of the step's type is beyond those for the Riding slots of its agent.
    pub(crate) fn has_credit(&self, step: &Step) -> bool {
        let agent = usize::from(step.agent.0 % 8);
        at(&self.riding[agent], step.credit()) < at(&self.seen[agent], step.credit())
    }

    /// Whether a slot of the step's agent and type is Cancelled.
    pub(crate) fn has_cancelled(&self, step: &Step) -> bool {
        at(
            &self.cancelled[usize::from(step.agent.0 % 8)],
            step.credit(),
        ) > 0
    }

    /// Whether a read of the step's line was answered with the data of SnpRespData_SD.
    pub(crate) fn is_shared(&self, step: &Step) -> bool {
        at(&self.shared, usize::from(step.line.0)) > 0
    }

    /// Whether the owner of the step's line passed its duty by SnpRespData_SC_PD.
    pub(crate) fn is_passed(&self, step: &Step) -> bool {
        at(&self.passed, usize::from(step.line.0)) > 0
    }
}
