//! Lines as bytes: what the requesters and the home keep of one.

ghost use Rattle.std.specs.Prelude.{◌≡◌, ◌++◌, ℕ, OnOk};
ghost use Rattle.chi_filter.specs.Filter.{FilterState};
ghost use Rattle.chi_rnline.specs.declared.pending.Phase.{Phase};
ghost use Rattle.chi_snapshot.specs.Bytes.{one_byte};
ghost use Rattle.chi_flit.specs.Kind.{kind_number};
ghost use Rattle.chi_snapshot.specs.Parts.{filter_bytes, home_bytes, line_bytes, pending_bytes, phase_byte, rn_bytes, served_bytes, serving_bytes, waiting_bytes};

use crate::flits::write_words;
use crate::written::{Written, write_list};
use chi_filter::Filter;
use chi_flit::{Agent, Kind, NoMemory, Slot};
use chi_homeline::{HomeLine, Serving, Waiting};
use chi_line::CoherentLine;
use chi_rnline::{Pending, Phase, RnLine};
use std::alloc::Allocator;

impl Written for Phase {
    ghost bytes = { λ (phase : Phase). one_byte (phase_byte phase) };

    fn write<A: Allocator>(&self, out: &mut Vec<u8, A>) -> Result<(), NoMemory> {
        let number: u8 = match self {
            Phase::Sent => 0,
            Phase::Retried => 1,
        };
        number.write(out)
    }
}

impl Written for Pending {
    ghost bytes = { pending_bytes };

    #[tactic(auto, unfolding(crate::specs::Parts::pending_bytes))]
    fn write<A: Allocator>(&self, out: &mut Vec<u8, A>) -> Result<(), NoMemory> {
        self.kind.write(out)?;
        self.slot.write(out)?;
        self.phase.write(out)
    }
}

impl Written for RnLine {
    ghost bytes = { rn_bytes };

    #[tactic(auto, unfolding(crate::specs::Parts::rn_bytes))]
    fn write<A: Allocator>(&self, out: &mut Vec<u8, A>) -> Result<(), NoMemory> {
        self.state().write(out)?;
        write_words(&self.words(), out)?;
        self.pending().write(out)
    }
}

impl Written for Filter {
    ghost bytes = { filter_bytes };

    #[tactic(auto, unfolding(crate::specs::Parts::filter_bytes))]
    fn write<A: Allocator>(&self, out: &mut Vec<u8, A>) -> Result<(), NoMemory> {
        write_list(&self.named(), out)?;
        self.is_unique().write(out)?;
        self.owner().write(out)
    }
}

impl Written for Waiting {
    ghost bytes = { waiting_bytes };

    #[tactic(auto, unfolding(crate::specs::Parts::waiting_bytes))]
    fn write<A: Allocator>(&self, out: &mut Vec<u8, A>) -> Result<(), NoMemory> {
        self.kind.write(out)?;
        self.slot.write(out)
    }
}

/// Writes what is served: the number of its form, the agent, the kind and the slot.
#[tactic(auto, unfolding(crate::specs::Parts::served_bytes))]
fn write_served<A: Allocator>(
    form: u8,
    agent: Agent,
    kind: Kind,
    slot: Slot,
    out: &mut Vec<u8, A>,
) -> Result<(), NoMemory>
    ensures { OnOk result
        (out.new.items ≡ out.old.items ++ served_bytes form agent.0 (kind_number kind) slot.0) }
{
    form.write(out)?;
    agent.write(out)?;
    kind.write(out)?;
    slot.write(out)
}

impl Written for Serving {
    ghost bytes = { serving_bytes };

    fn write<A: Allocator>(&self, out: &mut Vec<u8, A>) -> Result<(), NoMemory> {
        match *self {
            Serving::Idle => write_served(0, Agent(0), Kind::ReadNotSharedDirty, Slot(0), out),
            Serving::Snooping { agent, kind, slot } => write_served(1, agent, kind, slot, out),
            Serving::AwaitingCompAck { agent, slot } => {
                write_served(2, agent, Kind::ReadNotSharedDirty, slot, out)
            }
            Serving::AwaitingWriteData { agent, kind, slot } => {
                write_served(3, agent, kind, slot, out)
            }
        }
    }
}

impl Written for HomeLine {
    ghost bytes = { home_bytes };

    #[tactic(auto, unfolding(crate::specs::Parts::home_bytes))]
    fn write<A: Allocator>(&self, out: &mut Vec<u8, A>) -> Result<(), NoMemory> {
        write_words(&self.memory(), out)?;
        self.filter().write(out)?;
        self.serving().write(out)?;
        write_list(&self.awaited(), out)?;
        write_list(&self.all_waiting(), out)
    }
}

impl Written for CoherentLine {
    ghost bytes = { line_bytes };

    #[tactic(auto, unfolding(crate::specs::Parts::line_bytes))]
    fn write<A: Allocator>(&self, out: &mut Vec<u8, A>) -> Result<(), NoMemory> {
        write_list(self.copies(), out)?;
        self.home().write(out)?;
        write_list(&self.all_flits().all(), out)
    }
}
