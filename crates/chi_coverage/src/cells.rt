//! The cells of a step. A text of none counts nowhere: so each is printed of each command that has its words.

use crate::past::Past;
use crate::steps::{Scene, Step, first_of, scene_of};
use crate::tally::Tally;
use chi_flit::{
    Agent, Channel, DatUp, Kind, Msg, NoMemory, Profile, Refusal, RspDown, RspUp, State,
};
use chi_node::Released;
use chi_replay::{InFlight, Reply, SeenCredits};
use chi_script::Verb;
use chi_slice::{Cells, Phase, Serving};
use std::alloc::Allocator;

impl<A: Allocator + Copy> Tally<A> {
    /// One more of each cell of a command that is done. Refused where memory runs out.
    pub(crate) fn count_done(&mut self, step: &Step, past: &Past) -> Result<(), NoMemory> {
        let (verb, config) = (step.verb(), step.config);
        let is_two = config.profile() == Profile::Two;
        let types = if is_two { "two" } else { "four" };
        let elsewhere = verb == Verb::Ack && config.slice_of(step.line) > 0;
        reach!(self, "{verb}: done")?;
        reach!(self, "{types} credit types")?;
        reach!(self, if config.agents() == 8, "eight agents")?;
        reach!(self, if elsewhere, "lines of two slices")?;
        match step.reply {
            Reply::Idle => reach!(self, "{verb}: idle")?,
            Reply::Retry(_) => reach!(self, kind in step.kind(), "retry: {kind} of {types} types")?,
            Reply::Completed(_, released) => self.count_released(step, *released)?,
            Reply::Paid(released) => self.count_released(step, *released)?,
            Reply::Credits(seen) => reach!(self, seen in seen_text(seen), "{verb}: {seen}")?,
            _ => {}
        }
        self.count_words(step)?;
        self.count_at_line(step, past)
    }

    /// One more of each cell of a refused command, and of a refusal before another. Refused where memory runs out.
    pub(crate) fn count_refused(
        &mut self,
        step: &Step,
        past: &Past,
        refusal: Refusal,
    ) -> Result<(), NoMemory> {
        let (verb, kind, state) = (step.verb(), step.kind(), step.scene.state);
        let (number, reason) = (refusal.number(), reason_of(refusal, step, past));
        let (room, busy) = (step.has_room, step.scene.serving != Serving::Idle);
        reach!(self, "{verb}: refused {number}")?;
        reach!(self, reason in reason, "{verb}: refused {number} {reason}")?;
        match refusal {
            Refusal::JournalFull => reach!(self, if room, "full in one slice, not in another"),
            Refusal::Pending => {
                let is_wrong = match verb {
                    Verb::Store => !state.is_unique(),
                    Verb::Drop => !matches!(state, State::UC | State::SC),
                    _ => kind.is_some_and(|kind| !kind.needs(state)),
                };
                reach!(self, if is_wrong, "{verb}: 3 before 2")?;
                reach!(self, if step.is_full, "{verb}: 3 before 1")
            }
            Refusal::NotWaiting => reach!(self, if busy, "{verb}: 6 before 5"),
            Refusal::WrongState => {
                reach!(self, "{verb}: refused 2 in {state}")?;
                reach!(self, kind in kind, "{verb}: {kind} in {state}")?;
                reach!(self, kind in kind, "{verb} refused 2: {kind} in {state}")?;
                reach!(self, kind in kind, "{verb} refused 2: {kind}")?;
                reach!(self, if !past.has_credit(step), "{verb}: 2 before 12")?;
                reach!(self, if step.is_full, "{verb}: 2 before 1")
            }
            _ => Ok(()),
        }
    }

    /// One more of the cells of the entry that the command releases.
    fn count_released(&mut self, step: &Step, released: Released) -> Result<(), NoMemory> {
        let verb = step.verb();
        match released {
            Released::Freed => reach!(self, "{verb}: freed"),
            Released::Granted(to) => {
                reach!(self, "{verb}: granted")?;
                reach!(self, if step.agent == to, "granted to itself")
            }
        }
    }

    /// One more of the cells of the copy's state, of the requests pending and served, and of the message that is taken.
    fn count_words(&mut self, step: &Step) -> Result<(), NoMemory> {
        let (verb, scene) = (step.verb(), &step.scene);
        let (state, kind, served) = (scene.state, step.kind(), scene.served());
        let taken = taken_by(verb, &scene.flits);
        let not = if scene.awaits_others { "not " } else { "" };
        let who = if scene.owns { "the owner" } else { "no owner" };
        reach!(self, "{verb}: done in {state}")?;
        reach!(self, kind in kind, "{verb}: {kind} in {state}")?;
        reach!(self, form in taken, "{verb}: {form} finds {state}")?;
        reach!(self, form in taken, "{state} at {form}")?;
        reach!(self, form in taken, "{form} of {who}")?;
        reach!(self, form in taken, kind in kind, "{form} crosses {kind} in {state}")?;
        reach!(self, form in taken, kind in served, "{form} for {kind}, {not}the last")?;
        reach!(self, form in taken, kind in served, "{verb}: {kind}, {form}")
    }

    /// One more of the other cells of the verb.
    fn count_at_line(&mut self, step: &Step, past: &Past) -> Result<(), NoMemory> {
        let (scene, flits) = (&step.scene, &step.scene.flits);
        let acks = flits.rsp_up == Some(RspUp::CompAck);
        let writes = matches!(flits.dat_up, Some(DatUp::CopyBackWrData(..)));
        let came = match step.reply {
            Reply::Retry(_) => "retried",
            _ if scene.is_resent() => "resent",
            _ => "admitted",
        };
        let (granted, stage) = (past.has_credit(step), stage_of(scene));
        let first = if granted { "the grant" } else { "RetryAck" };
        match (step.verb(), step.kind(), scene.serving) {
            (Verb::Load, _, _) => reach!(self, if step.has_store, "a load behind a store"),
            (Verb::Issue, _, _) => {
                reach!(self, if acks, "a request is issued behind its CompAck in flight")?;
                reach!(self, if writes, "a request is issued behind its write data in flight")
            }
            (Verb::Arrive, Some(kind), _) => reach!(self, "arrive: {kind} {came}"),
            (Verb::RetryAck, Some(kind), _) => reach!(self, "retryack: {kind}, {first} first"),
            (Verb::Start, Some(kind), _) => self.count_start(step, past, kind),
            (Verb::Snp, Some(kind), _) => reach!(self, "a snoop crosses {kind}, {stage}"),
            (Verb::SnpResp, _, Serving::Snooping { agent, kind, .. }) => {
                self.count_completion(step, past, agent, kind, "behind answers")
            }
            (Verb::WrData, _, _) => self.count_write(step),
            (Verb::Flits, _, _) => self.count_messages(flits),
            _ => Ok(()),
        }
    }

    /// One more of the cells of a request's start: what the filter shows, and the completion that it has at once.
    fn count_start(&mut self, step: &Step, past: &Past, kind: Kind) -> Result<(), NoMemory> {
        let shown = shown_at_start(kind, &step.scene);
        let after = scene_of(step.after, step.agent);
        let reads = past.is_passed(step) && after.completion().is_some() && !after.unique;
        reach!(self, "{kind}: {shown}")?;
        reach!(self, if reads, "a read behind SnpRespData_SC_PD of the owner")?;
        self.count_completion(step, past, step.agent, kind, "at its start")
    }

    /// One more of the cells of the completion that a start or an answer to a snoop brings, and of its data.
    fn count_completion(
        &mut self,
        step: &Step,
        past: &Past,
        agent: Agent,
        kind: Kind,
        place: &str,
    ) -> Result<(), NoMemory> {
        let form = scene_of(step.after, agent).completion();
        let keeps = matches!(step.scene.flits.dat_up, Some(DatUp::SnpRespDataSD(_)));
        let shares = matches!(form, Some(Msg::DatDown(data)) if !data.unique);
        let behind = shares && kind == Kind::ReadShared && past.is_shared(step) && !keeps;
        reach!(self, form in form, "{kind}: {form} {place}")?;
        reach!(self, if keeps, "ReadShared: CompData_SC with the data of SnpRespData_SD")?;
        reach!(self, if behind, "ReadShared: CompData_SC with memory, behind such data")
    }

    /// One more of the cells of what came behind write data that is taken.
    fn count_write(&mut self, step: &Step) -> Result<(), NoMemory> {
        let (scene, evicts) = (&step.scene, step.kind() == Some(Kind::Evict));
        let cleans = scene.served() == Some(Kind::WriteCleanFull);
        let has_data = !matches!(scene.flits.dat_up, Some(DatUp::CopyBackWrData(State::I, _)));
        let drops = cleans && has_data && scene.state == State::I && !evicts;
        reach!(self, if scene.other_owns, "write data beside another owner")?;
        reach!(self, if cleans && scene.state == State::UD, "wrdata: a store came behind it")?;
        reach!(self, if drops, "wrdata: a drop came behind it")
    }

    /// One more of the cell of each message in flight, or of none: the words of the answer, but for a request's slot.
    fn count_messages(&mut self, flits: &Cells) -> Result<(), NoMemory> {
        if let Some(request) = flits.req {
            let kind = request.kind;
            reach!(self, if request.allow_retry, "{kind}/allow")?;
            reach!(self, if !request.allow_retry, "{kind}/credit")?;
        }
        let shown = InFlight(flits);
        let answer = format!(in self.alloc; "{shown}")?;
        for form in answer.as_str().split(' ') {
            self.add(form, 1)?;
        }
        Ok(())
    }
}

/// The message that a command takes, as far as cells tell of it.
fn taken_by(verb: Verb, flits: &Cells) -> Option<Msg> {
    match verb {
        Verb::Snp => flits.get(Channel::Snp),
        Verb::Comp => flits.get(Channel::RspDown),
        Verb::SnpResp => first_of(flits, Channel::RspUp, Channel::DatUp),
        Verb::WrData => flits.get(Channel::DatUp),
        _ => None,
    }
}

/// What a `see` finds.
fn seen_text(credits: &SeenCredits) -> Option<&'static str> {
    let counts = &credits.counts;
    Some(match counts.iter().filter(|count| **count > 0).count() {
        0 => "none",
        _ if counts.iter().any(|count| *count > 1) => "two of a type",
        1 => "one",
        _ => "of two types",
    })
}

/// What the filter shows at a request's start: of one that asks others, and of one that leaves.
fn shown_at_start(kind: Kind, scene: &Scene) -> &'static str {
    match (kind.snoop(), scene.owns, scene.others) {
        (Some(_), _, _) if scene.other_owns => "another is the owner",
        (Some(_), true, true) => "n is the owner, and others share",
        (Some(_), true, false) => "n is the owner, and alone",
        (Some(_), false, true) if scene.unique => "another has the flag",
        (Some(_), false, true) => "others share",
        (Some(_), false, false) if scene.named => "n alone is named",
        (Some(_), false, false) => "nobody is named",
        (None, _, _) if !scene.named => "n isn't named",
        (None, true, _) => "n is the owner",
        (None, false, _) if scene.unique => "n has the flag",
        (None, false, _) => "n is named without the flag",
    }
}

/// How far the agent's pending request has come.
fn stage_of(scene: &Scene) -> &'static str {
    match (scene.pending, scene.flits.req, scene.flits.rsp_down) {
        (Some(pending), _, _) if pending.phase == Phase::Retried => "Retried",
        (_, Some(request), _) if request.allow_retry => "its first attempt in flight",
        (_, Some(_), _) => "its second attempt in flight",
        (_, None, Some(RspDown::RetryAck(_))) => "RetryAck in flight",
        (_, None, _) => "waiting",
    }
}

/// The first operand that is outside its range.
fn operand_outside(step: &Step) -> &'static str {
    match step.verb() {
        _ if step.agent.0 >= step.config.agents() => "by its agent",
        _ if step.line.0 >= step.config.lines() => "by its line",
        Verb::Load | Verb::Store => "by its word",
        Verb::Issue => "by its slot",
        _ => "by its type",
    }
}

/// What says more of a refusal than its number.
fn reason_of(refusal: Refusal, step: &Step, past: &Past) -> Option<&'static str> {
    let scene = &step.scene;
    match (refusal, scene.pending, scene.serving) {
        (Refusal::OutOfRange, _, _) => Some(operand_outside(step)),
        (Refusal::Pending, Some(_), _) => Some("a request is pending"),
        (Refusal::Pending, None, _) => Some("the slot is in use"),
        (Refusal::NothingPending, None, _) => Some("nothing is pending"),
        (Refusal::NothingPending, Some(_), _) if scene.is_resent() => Some("it was sent again"),
        (Refusal::NothingPending, Some(_), _) => Some("it wasn't retried"),
        (Refusal::LineBusy, _, Serving::Snooping { .. }) => Some("snooping"),
        (Refusal::LineBusy, _, Serving::AwaitingCompAck { .. }) => Some("compack"),
        (Refusal::LineBusy, _, Serving::AwaitingWriteData { .. }) => Some("wrdata"),
        (Refusal::WrongState, Some(it), _) if it.kind.is_copy_back() => {
            Some("its copy is as it needs it")
        }
        (Refusal::WrongState, Some(_), _) => Some("it is no copy-back"),
        (Refusal::NoCredit, _, _) if past.has_cancelled(step) => Some("no credit is seen"),
        (Refusal::NoCredit, _, _) if past.has_credit(step) => Some(
            "a credit is seen, and no slot is cancelled",
        ),
        (Refusal::NoCredit, _, _) => Some("no slot is cancelled"),
        _ => None,
    }
}
