//! Whether the snoop of an agent, and its answer, are as every line keeps them.

ghost use Rattle.std.specs.Prelude.{◌≡◌, ◌↔◌, IsTrue, Some};
ghost use Rattle.chi_flit.specs.declared.snoop.Snoop.TheVariants.{SnpShared};
ghost use Rattle.chi_line.specs.Keeping.{AnswerKept, AnswersKept, AskedKept, CleanKept, DataKept, DirtyKept, InvalidKept, SnoopFits, lane_in};
ghost use Rattle.chi_line.specs.Kept.{invalidates, shares};

use crate::kept::lane::{AgentLane, HomeTerms};
use crate::kept::marks::{
    is_answer, is_one_of_three, is_shared_dirty, is_snoop_data, owned_by, snoop_out, snoops_for,
};
use chi_flit::{DatUp, Data, RspUp, Snoop, State};

/// Who is asked: whether snoops are out for the agent, and whether it is named, awaited and the owner.
#[derive(Clone, Copy)]
struct Asked {
    snooped: bool,
    named: bool,
    awaited: bool,
    owned: bool,
}

/// Whether the snoop of the agent, and its answer, are as every line keeps them.
pub(crate) fn are_answers_kept(at: &AgentLane, home: &HomeTerms, agent: u8) -> bool
    ensures { IsTrue result
        ↔ AnswersKept home.now.serving home.now.unique home.now.owner home.now.last agent (lane_in at.now) }
{
    let (flits, out) = (&at.flits, snoop_out(home.serving));
    let asked = Asked {
        snooped: snoops_for(home.serving, agent),
        named: at.named,
        awaited: at.awaited,
        owned: owned_by(home.owner, agent),
    };
    is_one_of_three(
        flits.snp.is_some(),
        is_answer(flits.rsp_up),
        is_snoop_data(flits.dat_up),
        at.awaited,
    ) && is_asked_kept(out, asked, home.unique)
        && does_snoop_fit(flits.snp, out)
        && is_answer_kept(out, flits.rsp_up, at.state)
        && is_answer_data_kept(out, &flits.dat_up, at.state, &home.last)
}

/// Whether who is asked is who has to be, while a snoop is out.
fn is_asked_kept(out: Option<Snoop>, asked: Asked, unique: bool) -> bool
    ensures { IsTrue result
        ↔ AskedKept out asked.snooped asked.named asked.awaited asked.owned unique }
{
    if asked.awaited {
        out.is_some() && asked.named && (!shares(out) || asked.owned || unique)
    } else {
        !invalidates(out) || !asked.named || asked.snooped
    }
}

/// Whether a snoop leaves shared copies.
fn shares(out: Option<Snoop>) -> bool
    ensures { result ≡ shares out }
{
    matches!(out, Some(Snoop::SnpShared | Snoop::SnpNotSharedDirty))
}

/// Whether a snoop leaves no copy.
fn invalidates(out: Option<Snoop>) -> bool
    ensures { result ≡ invalidates out }
{
    matches!(out, Some(Snoop::SnpUnique | Snoop::SnpCleanInvalid))
}

/// Whether a snoop on its way is the one that is out.
fn does_snoop_fit(snoop: Option<Snoop>, out: Option<Snoop>) -> bool
    ensures { IsTrue result ↔ SnoopFits snoop out }
{
    match (snoop, out) {
        (Some(snoop), Some(out)) => is_same_snoop(out, snoop),
        (Some(_), None) => false,
        (None, _) => true,
    }
}

/// Whether two snoops are the same.
#[tactic(auto, using(crate::proofs::Keeping::same_snoop))]
fn is_same_snoop(one: Snoop, other: Snoop) -> bool
    ensures { IsTrue result ↔ (one ≡ other) }
{
    one == other
}

/// Whether an answer without data fits the copy that is left.
fn is_answer_kept(out: Option<Snoop>, answer: Option<RspUp>, state: State) -> bool
    ensures { IsTrue result ↔ AnswerKept out answer state }
{
    match answer {
        Some(RspUp::SnpRespI) => !state.is_valid(),
        Some(RspUp::SnpRespSC) => !state.is_unique() && !state.is_dirty() && shares(out),
        Some(RspUp::CompAck) | None => true,
    }
}

/// Whether an answer with data fits the copy that is left, and is what was last stored.
fn is_answer_data_kept(
    out: Option<Snoop>,
    answer: &Option<DatUp>,
    state: State,
    last: &Data,
) -> bool
    ensures { IsTrue result ↔ DataKept out last.now answer.now state }
{
    match answer {
        Some(DatUp::SnpRespDataIPD(words)) => is_invalid_kept(state, words, last),
        Some(DatUp::SnpRespDataSCPD(words)) => is_clean_kept(out, state, words, last),
        Some(DatUp::SnpRespDataSD(words)) => is_dirty_kept(out, state, words, last),
        Some(DatUp::CopyBackWrData(..)) | None => true,
    }
}

/// Whether SnpRespData_I_PD fits.
fn is_invalid_kept(state: State, words: &Data, last: &Data) -> bool
    ensures { IsTrue result ↔ InvalidKept last.now words.now state }
{
    !state.is_valid() && *words == *last
}

/// Whether SnpRespData_SC_PD fits.
fn is_clean_kept(out: Option<Snoop>, state: State, words: &Data, last: &Data) -> bool
    ensures { IsTrue result ↔ CleanKept out last.now words.now state }
{
    !state.is_unique() && !state.is_dirty() && shares(out) && *words == *last
}

/// Whether SnpRespData_SD fits.
fn is_dirty_kept(out: Option<Snoop>, state: State, words: &Data, last: &Data) -> bool
    ensures { IsTrue result ↔ DirtyKept out last.now words.now state }
{
    is_shared_dirty(state) && is_shared_out(out) && *words == *last
}

/// Whether the snoop that is out is SnpShared.
fn is_shared_out(out: Option<Snoop>) -> bool
    ensures { IsTrue result ↔ (out ≡ Some SnpShared) }
{
    matches!(out, Some(Snoop::SnpShared))
}
