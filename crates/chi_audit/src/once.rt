//! The rule of the channel of reports, and what its steps tell.

use crate::report_view::ReportView;
use crate::reports::Report;
use crossbeam_channel::protocol::{Join, Lesson, Outcome, Protocol, Split};

/// Each agent sends one report at most, and each that was sent is in the channel or was received, once.
pub struct Once;

impl Protocol<Report, ReportView> for Once {
    ghost use Rattle.chi_audit.specs.Boxes.{OneEach, opener};

    ghost holds = { OneEach };

    ghost first = { opener 0 };
}

/// The next agent gets an outbox.
pub(crate) struct Next;

impl Split<ReportView> for Next {
    ghost use Rattle.std.specs.Prelude.{◌+◌};
    ghost use Rattle.chi_audit.specs.Boxes.{opener, sender_view};

    ghost left = { λ v. opener (v.from + 1) };

    ghost right = { λ v. sender_view v.from };
}

/// An outbox sends its report.
pub(crate) struct Sends;

impl Outcome<Report, ReportView> for Sends {
    ghost use Rattle.std.specs.Prelude.{◌≡◌};
    ghost use Rattle.chi_audit.specs.Boxes.{teller_view};

    ghost then = { λ v r w. w ≡ teller_view r };
}

impl Lesson<Report, ReportView> for Sends {
    ghost use Rattle.std.specs.Prelude.{⊤};

    ghost fact = { λ v items. ⊤ };
}

/// The inbox is told what was sent.
pub(crate) struct Tells;

impl Join<ReportView> for Tells {
    ghost use Rattle.std.specs.Prelude.{◌++◌};
    ghost use Rattle.chi_audit.specs.Boxes.{spent_view};

    ghost both = { λ v w. record v { told = v.told ++ w.told } };

    ghost spent = { spent_view };
}

/// The inbox receives a report.
pub(crate) struct Receives;

impl Outcome<Report, ReportView> for Receives {
    ghost use Rattle.chi_audit.specs.Boxes.{IsTaken};

    ghost then = { IsTaken };
}

impl Lesson<Report, ReportView> for Receives {
    ghost use Rattle.chi_audit.specs.Boxes.{IsOver};

    ghost fact = { IsOver };
}
