//! The rule of a cell with a tally, and what its steps tell.

use crate::tally_view::TallyView;
use atomic_table::Split;
use crossbeam_utils::atomic::seq_cell::{Pass, RuledSeqCell};
use crossbeam_utils::rule::{Outcome, Protocol};

/// One pass stores, no number goes back, and each pass knows a beginning of what was stored.
/// Source: `docs/FORMATS.md`, "Reports and tallies".
pub struct Rising;

impl Protocol<[u64; 3], TallyView> for Rising {
    ghost use Rattle.std.specs.Prelude.{[]};
    ghost use Rattle.chi_audit.specs.Cells.{writer_view, CellKept};

    ghost holds = { CellKept };

    ghost first = { writer_view [] };
}

impl Rising {
    ghost use Rattle.std.specs.Prelude.{ℕ, List};
    ghost use Rattle.chi_audit.specs.declared.tally_view.TallyView.{TallyView};
    ghost use Rattle.chi_audit.specs.Cells.{CellKept, AreBeginnings};

    /// Whatever the steps of any threads were: what any pass of a cell knows, and so whatever was read by whom,
    /// is a beginning of what the cell's agent stored, and the cell shows the last that it stored. Does
    /// nothing: its contract is the law.
    /// Source: `docs/FORMATS.md`, "Reports and tallies".
    pub fn beginnings()
        ensures { (words : List ℕ) (views : List TallyView)
            → CellKept words views → AreBeginnings words views }
    {}
}

/// A tally is stored.
pub(crate) struct Stores;

impl Outcome<[u64; 3], TallyView> for Stores {
    ghost use Rattle.chi_audit.specs.Cells.{IsStored};

    ghost then = { λ v before after w. IsStored v after w };
}

/// The cell is read.
pub(crate) struct Reads;

impl Outcome<[u64; 3], TallyView> for Reads {
    ghost use Rattle.chi_audit.specs.Cells.{tally_of, IsSeen};

    ghost then = { λ v before after w. IsSeen v (tally_of after) w };
}

/// A pass that reads and doesn't store.
pub(crate) struct Watches;

impl Split<TallyView> for Watches {
    ghost use Rattle.chi_audit.specs.Cells.{watcher_view};

    ghost left = { λ v. v };

    ghost right = { λ v. watcher_view v.seen };
}

/// Three words under the rule: turns, loads and stores.
pub(crate) type Words = RuledSeqCell<[u64; 3], TallyView, Rising, 3>;

/// A pass of a cell.
pub(crate) type CellPass = Pass<[u64; 3], TallyView>;
