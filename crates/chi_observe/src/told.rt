//! What is told of a trace whose flits are all taken: what of it isn't judged and why, and what is.

ghost use Rattle.std.specs.Prelude.{◌≡◌, ◌++◌, IfOk, OnOk, string_bytes};
ghost use Rattle.std.specs.List.{flat_map};
ghost use Rattle.chi_observe.specs.Told.{AreRanked, accepted_accesses, accepted_line, cause_line, cut_line, judged_text, left_over_line, unjudged_line, unjudged_lines, unjudged_text, unseen_end, unseen_front, unseen_line, values_line};

use crate::causes::CauseRow;
use crate::names::LineName;
use crate::watch::Counts;
use chi_trace::Listing;
use std::alloc::{AllocError, Allocator};
use std::fmt::Write;

/// The causes, the most frequent first.
pub(crate) fn ranked<A: Allocator + Copy>(
    alloc: A,
    causes: &[CauseRow],
) -> Result<Vec<CauseRow, A>, AllocError>
    ensures { IfOk result (λ rows. AreRanked causes.now rows.items) }
{
    let mut rows = Vec::with_capacity(alloc, causes.len())?;
    rows.extend_from_slice(causes)?;
    rows.sort_by_key(|row| u64::MAX - row.lines)?;
    Ok(rows)
}

/// Puts how many flits aren't judged behind the text, and on how many cache lines.
fn write_unjudged_line<A: Allocator>(text: &mut String<A>, counts: Counts) -> Result<(), AllocError>
    ensures { OnOk result (string_bytes text.new ≡ string_bytes text.old ++ unjudged_line counts) }
{
    let (unjudged, flits, aside, lines) = (
        counts.unjudged,
        counts.flits,
        counts.aside,
        counts.lines,
    );
    writeln!(
        text,
        "not judged: {unjudged} of {flits} flits, on {aside} of {lines} cache lines"
    )
}

/// Puts a cause behind the text, with how many cache lines it set aside, and the first of them.
fn write_cause<A: Allocator>(text: &mut String<A>, row: &CauseRow) -> Result<(), AllocError>
    ensures { OnOk result (string_bytes text.new ≡ string_bytes text.old ++ cause_line row.now) }
{
    let (cause, lines, number) = (row.first.cause, row.lines, row.first.number);
    let line = LineName(row.first.line);
    writeln!(
        text,
        "{cause}: {lines} cache lines, the first {line} by trace line {number}"
    )
}

/// Puts each cause behind the text.
fn write_causes<A: Allocator>(text: &mut String<A>, rows: &[CauseRow]) -> Result<(), AllocError>
    ensures { OnOk result
        (string_bytes text.new ≡ string_bytes text.old ++ flat_map cause_line rows.now) }
{
    for row in rows {
        write_cause(text, row)?;
    }
    Ok(())
}

/// Puts how many flits name an id from before the trace behind the text.
fn write_left_over<A: Allocator>(text: &mut String<A>, counts: Counts) -> Result<(), AllocError>
    ensures { OnOk result (string_bytes text.new ≡ string_bytes text.old ++ left_over_line counts) }
{
    let left_over = counts.left_over;
    if left_over == 0 {
        return Ok(());
    }
    writeln!(text, "ids from before the trace: {left_over} flits")
}

/// Puts what loads and stores are behind the text, of which some aren't judged.
fn write_unseen_end<A: Allocator>(text: &mut String<A>, home: bool) -> Result<(), AllocError>
    ensures { OnOk result (string_bytes text.new ≡ string_bytes text.old ++ unseen_end home) }
{
    if home {
        writeln!(text, " loads and stores, which a home doesn't see")
    } else {
        writeln!(text, " loads and stores")
    }
}

/// Puts how many loads and stores aren't judged behind the text, and of how many.
fn write_unseen_front<A: Allocator>(text: &mut String<A>, counts: Counts) -> Result<(), AllocError>
    ensures { OnOk result (string_bytes text.new ≡ string_bytes text.old ++ unseen_front counts) }
{
    let (unseen, accesses) = (counts.unseen, counts.accesses);
    write!(text, "not judged: {unseen} of {accesses}")
}

/// Puts the line on loads and stores that aren't judged behind the text.
fn write_unseen<A: Allocator>(
    text: &mut String<A>,
    home: bool,
    counts: Counts,
) -> Result<(), AllocError>
    ensures { OnOk result
        (string_bytes text.new ≡ string_bytes text.old ++ unseen_line home counts) }
{
    if counts.unseen == 0 {
        return Ok(());
    }
    write_unseen_front(text, counts)?;
    write_unseen_end(text, home)
}

/// Puts a last line behind the text that no line end follows.
pub(crate) fn write_cut<A: Allocator>(
    text: &mut String<A>,
    cut: Option<usize>,
) -> Result<(), AllocError>
    ensures { OnOk result (string_bytes text.new ≡ string_bytes text.old ++ cut_line cut) }
{
    match cut {
        None => Ok(()),
        Some(number) => writeln!(
            text,
            "not judged: trace line {number}, the last, which has no line end"
        ),
    }
}

/// Puts all that isn't judged behind the text.
fn write_unjudged_lines<A: Allocator>(
    text: &mut String<A>,
    home: bool,
    counts: Counts,
    rows: &[CauseRow],
) -> Result<(), AllocError>
    ensures { OnOk result
        (string_bytes text.new ≡ string_bytes text.old ++ unjudged_lines home counts rows.now) }
{
    write_unjudged_line(text, counts)?;
    write_causes(text, rows)?;
    write_left_over(text, counts)?;
    write_unseen(text, home, counts)?;
    write_cut(text, counts.cut)
}

/// Puts all that isn't judged behind the text, where something isn't.
pub(crate) fn write_unjudged<A: Allocator>(
    text: &mut String<A>,
    home: bool,
    counts: Counts,
    rows: &[CauseRow],
) -> Result<(), AllocError>
    ensures { OnOk result
        (string_bytes text.new ≡ string_bytes text.old ++ unjudged_text home counts rows.now) }
{
    if counts.is_unjudged() {
        write_unjudged_lines(text, home, counts, rows)
    } else {
        Ok(())
    }
}

/// Puts how many flits are judged and accepted behind the text.
fn write_accepted<A: Allocator>(text: &mut String<A>, counts: Counts) -> Result<(), AllocError>
    ensures { OnOk result (string_bytes text.new ≡ string_bytes text.old ++ accepted_line counts) }
{
    let (flits, lines) = (counts.judged(), counts.lines.saturating_sub(counts.aside));
    writeln!(text, "accepted {flits} flits on {lines} cache lines")
}

/// Puts how many loads and stores are behind the text.
fn write_accesses<A: Allocator>(text: &mut String<A>, counts: Counts) -> Result<(), AllocError>
    ensures { OnOk result
        (string_bytes text.new ≡ string_bytes text.old ++ accepted_accesses counts) }
{
    let accesses = counts.judged_accesses();
    if accesses == 0 {
        return Ok(());
    }
    writeln!(text, "accepted {accesses} loads and stores")
}

/// Puts behind the text that no value is judged, where the log has no data.
fn write_values<A: Allocator>(text: &mut String<A>, listing: Listing) -> Result<(), AllocError>
    ensures { OnOk result (string_bytes text.new ≡ string_bytes text.old ++ values_line listing) }
{
    match listing {
        Listing::Listed => Ok(()),
        Listing::None => writeln!(text, "no value is judged: the log has no data"),
    }
}

/// Puts behind the text what isn't judged and why, and what is.
pub(crate) fn write_judged<A: Allocator>(
    text: &mut String<A>,
    home: bool,
    listing: Listing,
    counts: Counts,
    rows: &[CauseRow],
) -> Result<(), AllocError>
    ensures { OnOk result
        (string_bytes text.new ≡ string_bytes text.old ++ judged_text home listing counts rows.now) }
{
    write_unjudged(text, home, counts, rows)?;
    write_accepted(text, counts)?;
    write_accesses(text, counts)?;
    write_values(text, listing)
}
