//! Why lines are set aside by flits that the home receives late.

ghost use Rattle.std.specs.Prelude.{◌≡◌, ◌++◌, OnOk, Some, option_map, string_bytes};
ghost use Rattle.std.specs.List.{flat_map};
ghost use Rattle.chi_observe.specs.LateReasons.{late_reason_text, reason_in};
ghost use Rattle.chi_observe.specs.Lines.{lines_in};
ghost use Rattle.chi_observe.specs.Told.{late_at, late_line, late_text, why_of};
ghost use Rattle.chi_observe.specs.Watched.{watched};

use crate::causes::CauseRow;
use crate::lines::LineTable;
use crate::names::LineName;
use crate::watch::Watch;
use chi_ids::CacheLine;
use chi_observer::Aside;
use std::alloc::{AllocError, Allocator};
use std::fmt;
use std::fmt::Write;

/// Why a line is set aside whose flits the home receives.
#[derive(Clone, Copy)]
struct AsideText(Aside);

impl fmt::Display for AsideText {
    ghost output = { λ why. Some (late_reason_text (reason_in why.0)) };

    fn fmt<W: fmt::Write>(&self, f: &mut fmt::Formatter<W>) -> fmt::Result {
        f.write_str(match self.0 {
            Aside::TwoRequests => "it isn't known what its node's last request was sent from",
            Aside::Retried => {
                "a request of its node that was retried may have been cancelled before"
            }
            Aside::EarlierData => "a request is completed before write data that were sent first",
            Aside::HeldRequest(_) => "what a request tells that is held may make it legal",
            Aside::Thrown => "a copy was clean that seemed to be thrown away dirty",
            Aside::Uncounted => "more is on its way than is counted",
        })
    }
}

/// Why a late flit set the line aside, if one did.
fn why_of<A: Allocator>(lines: &LineTable<A>, line: CacheLine) -> Option<Aside>
    ensures { option_map reason_in result ≡ why_of (lines_in lines.now.entries line.0) }
{
    match lines.get(&line.0) {
        Some(seen) => seen.why,
        None => None,
    }
}

/// Puts why a late flit set this line aside behind the text, if one did.
fn write_late_at<A: Allocator>(
    text: &mut String<A>,
    line: CacheLine,
    why: Option<Aside>,
) -> Result<(), AllocError>
    ensures { OnOk result (string_bytes text.new
        ≡ string_bytes text.old ++ late_at line (option_map reason_in why)) }
{
    match why {
        None => Ok(()),
        Some(why) => {
            let (line, why) = (LineName(line), AsideText(why));
            writeln!(text, "set aside at {line}: {why}")
        }
    }
}

/// Puts why the first line of a cause was set aside behind the text, if a late flit did that.
fn write_late_line<A: Allocator>(
    text: &mut String<A>,
    lines: &LineTable<A>,
    row: &CauseRow,
) -> Result<(), AllocError>
    ensures { OnOk result (string_bytes text.new
        ≡ string_bytes text.old ++ late_line (lines_in lines.now.entries) row.now) }
{
    let line = row.first.line;
    write_late_at(text, line, why_of(lines, line))
}

/// Puts behind the text why the first line of each cause was set aside.
fn write_late_lines<A: Allocator>(
    text: &mut String<A>,
    lines: &LineTable<A>,
    rows: &[CauseRow],
) -> Result<(), AllocError>
    ensures { OnOk result (string_bytes text.new
        ≡ string_bytes text.old ++ flat_map (late_line (lines_in lines.now.entries)) rows.now) }
{
    for row in rows {
        write_late_line(text, lines, row)?;
    }
    Ok(())
}

impl<A: Allocator> Watch<A> {
    /// Puts why the first line of each cause was set aside behind the text, where a late flit did that.
    pub(crate) fn write_late(&self, text: &mut String<A>) -> Result<(), AllocError>
        ensures { OnOk result
            (string_bytes text.new ≡ string_bytes text.old ++ late_text (watched self.now)) }
    {
        write_late_lines(text, &self.lines, &self.causes)
    }
}
