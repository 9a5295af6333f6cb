//! Why flits of a cache line aren't judged, and on how many cache lines.

ghost use Rattle.std.specs.Prelude.{◌≡◌, IfSome, OnOk, Some, position};
ghost use Rattle.chi_observe.specs.Causes.{cause_of, cause_text, caused, caused_by, is_row_of, is_same_cause, one_more, raised};

use crate::events::Tells;
use crate::lines::LineTold;
use crate::steps::WatchOptions;
use crate::watch::Aside;
use chi_flit::Agent;
use chi_trace::OtherOpcode;
use std::alloc::{AllocError, Allocator};
use std::fmt;

/// Why flits of a cache line aren't judged.
/// Source: `docs/OBSERVER.md`, "What isn't judged".
#[derive(Clone, Copy, Debug, PartialEq, Eq)]
pub enum Cause {
    /// A flit of this opcode.
    Opcode(OtherOpcode),
    /// A flit of a node that is both a requester and a home, or of a requester behind the 32nd.
    Nodes,
    /// A flit of a log at the home, of which it isn't known what it was sent from.
    LateFlit,
    /// A flit between the beats of data, whose words it would need.
    MissingWords,
}

/// How many cache lines aren't judged by the cause of the first of them.
/// Source: `docs/OBSERVER.md`, "What isn't judged".
#[derive(Clone, Copy, Debug, PartialEq, Eq)]
pub struct CauseRow {
    pub lines: u64,
    pub first: Aside,
}

/// How many causes there are at most: an opcode each, and the others.
pub(crate) const MOST_CAUSES: usize = 64;

impl fmt::Display for Cause {
    ghost output = { λ cause. Some (cause_text cause) };

    fn fmt<W: fmt::Write>(&self, f: &mut fmt::Formatter<W>) -> fmt::Result {
        match self {
            Cause::Opcode(opcode) => write!(f, "{opcode}"),
            Cause::Nodes => write!(
                f,
                "a node that is requester and home, or the 33rd requester"
            ),
            Cause::LateFlit => write!(f, "a late flit"),
            Cause::MissingWords => write!(f, "words that are missing"),
        }
    }
}

/// Why a flit that tells this, of this agent, sets a line aside that was told so.
pub(crate) fn cause_of(
    options: WatchOptions,
    tells: &Tells,
    agent: Option<Agent>,
    told: &LineTold,
) -> Cause
    ensures { result ≡ cause_of options tells.now agent told.now }
{
    match (tells, agent) {
        (Tells::Unjudged(opcode), _) => Cause::Opcode(*opcode),
        (_, None) => Cause::Nodes,
        (_, Some(_)) => {
            if options.is_at_home() && !told.had_lacking() {
                Cause::LateFlit
            } else {
                Cause::MissingWords
            }
        }
    }
}

/// Whether both are one cause.
fn is_same_cause(one: Cause, other: Cause) -> bool
    ensures { result ≡ is_same_cause one other }
{
    match (one, other) {
        (Cause::Opcode(one), Cause::Opcode(other)) => one.0 == other.0,
        (Cause::Nodes, Cause::Nodes) => true,
        (Cause::LateFlit, Cause::LateFlit) => true,
        (Cause::MissingWords, Cause::MissingWords) => true,
        _ => false,
    }
}

/// Whether the row is of the cause.
fn is_row_of(cause: Cause, row: &CauseRow) -> bool
    ensures { result ≡ is_row_of cause row.now }
{
    is_same_cause(cause, row.first.cause)
}

/// The place of the cause's row.
fn place_of(rows: &[CauseRow], cause: Cause) -> Option<usize>
    ensures { result ≡ position (is_row_of cause) rows.now }
{
    rows.iter().position(|row| is_row_of(cause, row))
}

/// The row with a line more; `None` where their number would pass 2^64.
fn one_more(row: CauseRow) -> Option<CauseRow>
    ensures { IfSome result (λ more. more ≡ one_more row) }
{
    let lines = row.lines.checked_add(1)?;
    Some(CauseRow { lines, ..row })
}

/// A line more was set aside, by the cause of the row at this place.
fn raise<A: Allocator>(rows: &mut Vec<CauseRow, A>, place: usize) -> Result<(), AllocError>
    ensures { OnOk result (rows.new.items ≡ raised rows.old.items place) }
{
    let Some(row) = rows.get(place).copied() else {
        return Err(AllocError);
    };
    let Some(more) = one_more(row) else {
        return Err(AllocError);
    };
    rows[place] = more;
    Ok(())
}

/// A line more was set aside.
fn count<A: Allocator>(rows: &mut Vec<CauseRow, A>, mark: Aside) -> Result<(), AllocError>
    ensures { OnOk result (rows.new.items ≡ caused_by mark rows.old.items) }
{
    match place_of(rows, mark.cause) {
        Some(place) => raise(rows, place),
        None => Ok(rows.push(CauseRow {
            lines: 1,
            first: mark,
        })?),
    }
}

/// A line more was set aside, if one was.
pub(crate) fn add_cause<A: Allocator>(
    rows: &mut Vec<CauseRow, A>,
    mark: Option<Aside>,
) -> Result<(), AllocError>
    ensures { OnOk result (rows.new.items ≡ caused mark rows.old.items) }
{
    match mark {
        Some(mark) => count(rows, mark),
        None => Ok(()),
    }
}
