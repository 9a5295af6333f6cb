//! Flits in flight as bytes.

ghost use Rattle.std.specs.Prelude.{◌≡◌, ◌++◌, ℕ, OnOk};
ghost use Rattle.chi_flit.specs.declared.snoop.Snoop.{Snoop};
ghost use Rattle.chi_flit.specs.declared.message.RspUp.{RspUp};
ghost use Rattle.chi_flit.specs.declared.kind.Kind.{Kind};
ghost use Rattle.chi_flit.specs.declared.state.State.{State};
ghost use Rattle.chi_snapshot.specs.Bytes.{one_byte};
ghost use Rattle.chi_flit.specs.Kind.{kind_number};
ghost use Rattle.chi_flit.specs.Snoop.{snoop_number};
ghost use Rattle.chi_flit.specs.State.{state_number};
ghost use Rattle.chi_snapshot.specs.Parts.{cells_bytes, data_down_bytes, data_up_bytes, data_up_parts, request_bytes, rsp_down_bytes, rsp_up_byte, words_bytes};

use crate::written::{Written, write_list};
use chi_flit::{CompData, DatUp, Data, Kind, NoMemory, Request, RspDown, RspUp, Snoop, State};
use chi_wires::Cells;
use std::alloc::Allocator;

impl Written for State {
    ghost bytes = { λ (state : State). one_byte (state_number state) };

    fn write<A: Allocator>(&self, out: &mut Vec<u8, A>) -> Result<(), NoMemory> {
        self.number().write(out)
    }
}

impl Written for Kind {
    ghost bytes = { λ (kind : Kind). one_byte (kind_number kind) };

    fn write<A: Allocator>(&self, out: &mut Vec<u8, A>) -> Result<(), NoMemory> {
        self.number().write(out)
    }
}

impl Written for Snoop {
    ghost bytes = { λ (snoop : Snoop). one_byte (snoop_number snoop) };

    fn write<A: Allocator>(&self, out: &mut Vec<u8, A>) -> Result<(), NoMemory> {
        self.number().write(out)
    }
}

impl Written for RspUp {
    ghost bytes = { λ (response : RspUp). one_byte (rsp_up_byte response) };

    fn write<A: Allocator>(&self, out: &mut Vec<u8, A>) -> Result<(), NoMemory> {
        let number: u8 = match self {
            RspUp::SnpRespI => 0,
            RspUp::SnpRespSC => 1,
            RspUp::CompAck => 2,
        };
        number.write(out)
    }
}

/// Writes the words of a line.
pub(crate) fn write_words<A: Allocator>(words: &Data, out: &mut Vec<u8, A>) -> Result<(), NoMemory>
    ensures { OnOk result (out.new.items ≡ out.old.items ++ words_bytes words.now) }
{
    write_list(words, out)
}

impl Written for Request {
    ghost bytes = { request_bytes };

    #[tactic(auto, unfolding(crate::specs::Parts::request_bytes))]
    fn write<A: Allocator>(&self, out: &mut Vec<u8, A>) -> Result<(), NoMemory> {
        self.kind.write(out)?;
        self.slot.write(out)?;
        self.allow_retry.write(out)
    }
}

impl Written for RspDown {
    ghost bytes = { rsp_down_bytes };

    fn write<A: Allocator>(&self, out: &mut Vec<u8, A>) -> Result<(), NoMemory> {
        let (form, credit): (u8, u8) = match self {
            RspDown::RetryAck(credit) => (0, credit.number()),
            RspDown::CompUC => (1, 0),
            RspDown::CompI => (2, 0),
            RspDown::CompDBIDResp => (3, 0),
        };
        form.write(out)?;
        credit.write(out)
    }
}

impl Written for CompData {
    ghost bytes = { data_down_bytes };

    #[tactic(auto, unfolding(crate::specs::Parts::data_down_bytes))]
    fn write<A: Allocator>(&self, out: &mut Vec<u8, A>) -> Result<(), NoMemory> {
        write_words(&self.words, out)?;
        self.unique.write(out)
    }
}

/// Writes a response with data: the number of its form, a state, and the words.
#[tactic(auto, unfolding(crate::specs::Parts::data_up_parts))]
fn write_data_up<A: Allocator>(
    form: u8,
    state: State,
    words: &Data,
    out: &mut Vec<u8, A>,
) -> Result<(), NoMemory>
    ensures { OnOk result
        (out.new.items ≡ out.old.items ++ data_up_parts form (state_number state) words.now) }
{
    form.write(out)?;
    state.write(out)?;
    write_words(words, out)
}

impl Written for DatUp {
    ghost bytes = { data_up_bytes };

    fn write<A: Allocator>(&self, out: &mut Vec<u8, A>) -> Result<(), NoMemory> {
        match self {
            DatUp::SnpRespDataIPD(words) => write_data_up(0, State::I, words, out),
            DatUp::SnpRespDataSCPD(words) => write_data_up(1, State::I, words, out),
            DatUp::SnpRespDataSD(words) => write_data_up(2, State::I, words, out),
            DatUp::CopyBackWrData(state, words) => write_data_up(3, *state, words, out),
        }
    }
}

impl Written for Cells {
    ghost bytes = { cells_bytes };

    #[tactic(auto, unfolding(crate::specs::Parts::cells_bytes))]
    fn write<A: Allocator>(&self, out: &mut Vec<u8, A>) -> Result<(), NoMemory> {
        self.req.write(out)?;
        self.snp.write(out)?;
        self.rsp_down.write(out)?;
        self.dat_down.write(out)?;
        self.rsp_up.write(out)?;
        self.dat_up.write(out)
    }
}
