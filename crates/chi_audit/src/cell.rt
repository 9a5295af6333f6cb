//! The cell of an agent's tally.

ghost use Rattle.std.specs.Prelude.{◌≡◌, [], IfOk, true};
ghost use Rattle.crossbeam_utils.specs.Seq.{cell_view};
ghost use Rattle.chi_audit.specs.Cells.{writer_view, tally_of, watcher_view, IsSeen, IsTold};
ghost use Rattle.chi_audit.specs.Tally.{last_tally, NotAbove};

use crate::rising::{CellPass, Reads, Stores, Watches, Words};
use crate::tally::Tally;
use std::alloc::{AllocError, Global};
use std::marker::Model;
use std::sync::Wait;

/// The three numbers of a tally, stored and read whole. Contracts see which cell it is.
#[derive(Drop)]
pub(crate) struct TallyCell {
    words: Words,
}

impl Model for TallyCell {
    ghost use Rattle.atomic_table.specs.Seated.{TableId};

    ghost Value = { TableId };

    ghost view = { λ c. c.words.table.shared.table_id };
}

// The tally as words.
fn words_of(tally: Tally) -> [u64; 3]
    ensures { tally_of result ≡ tally }
{
    [tally.turns, tally.loads, tally.stores]
}

impl TallyCell {
    /// A cell with the opening tally, and the pass that stores.
    pub(crate) fn open(alloc: Global) -> Result<(TallyCell, CellPass), AllocError>
        ensures cell { IfOk result (λ made. made.1.table_id ≡ made.0) }
        ensures view { IfOk result (λ made. cell_view made.1 ≡ writer_view []) }
    {
        let (words, pass) = Words::ruled(alloc, [0; 3])?;
        Ok((TallyCell { words }, pass))
    }

    /// A pass that reads, and knows what the lent one knows.
    pub(crate) fn watch(&self, pass: &mut CellPass) -> CellPass
        requires { pass.old.table_id ≡ self.now }
        ensures lent { (pass.new.table_id ≡ pass.old.table_id)
            × (cell_view pass.new ≡ cell_view pass.old) }
        ensures cell { result.table_id ≡ pass.old.table_id }
        ensures view { cell_view result ≡ watcher_view (cell_view pass.old).seen }
    {
        self.words.split_pass::<Watches>(pass)
    }

    /// Stores a tally, by the pass that stores.
    pub(crate) fn store<R: Wait>(&self, rt: &R, pass: &mut CellPass, tally: Tally)
        requires cell { pass.old.table_id ≡ self.now }
        requires writes { (cell_view pass.old).writes ≡ true }
        requires later { NotAbove (last_tally (cell_view pass.old).seen) tally }
        ensures cell { pass.new.table_id ≡ pass.old.table_id }
        ensures told { IsTold (cell_view pass.old) tally (cell_view pass.new) }
    {
        let words = words_of(tally);
        self.words.swap_as::<Stores, R>(rt, pass, words);
    }

    /// Reads the tally.
    pub(crate) fn read<R: Wait>(&self, rt: &R, pass: &mut CellPass) -> Tally
        requires { pass.old.table_id ≡ self.now }
        ensures cell { pass.new.table_id ≡ pass.old.table_id }
        ensures seen { IsSeen (cell_view pass.old) result (cell_view pass.new) }
    {
        let [turns, loads, stores] = self.words.load_as::<Reads, R>(rt, pass);
        Tally {
            turns,
            loads,
            stores,
        }
    }
}
