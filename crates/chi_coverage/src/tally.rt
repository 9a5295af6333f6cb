//! The cells, and how often each was done.

use crate::rows::{ROWS, Row, UNREACHABLE};
use chi_flit::NoMemory;
use indexmap::IndexMap;
use std::alloc::{AllocError, Allocator};
use std::hash::{BuildHasherDefault, FoldHasher};

/// A cell of the protocol's tables, beside its text.
/// Source: `docs/PROTOCOL.md`.
#[derive(Clone, Copy)]
pub(crate) struct Cell {
    /// The section of `docs/PROTOCOL.md` whose table has the cell.
    pub(crate) section: &'static str,
    /// How often it was done; `None` where no run is known to reach it.
    pub(crate) count: Option<u64>,
}

/// The cells by their texts, in the order of the tables.
type CellTable<A> = IndexMap<String<A>, Cell, BuildHasherDefault<FoldHasher>, A>;

/// All cells, and how often each was done.
/// Source: `docs/FORMATS.md`, "Coverage".
#[derive(Drop)]
pub(crate) struct Tally<A: Allocator> {
    pub(crate) alloc: A,
    pub(crate) cells: CellTable<A>,
}

impl<A: Allocator + Copy> Tally<A> {
    /// No cell was done yet. Refused where memory runs out.
    pub(crate) fn new(alloc: A) -> Result<Tally<A>, NoMemory> {
        let mut cells = IndexMap::new(alloc);
        put_rows(alloc, &mut cells, ROWS, Some(0))?;
        put_rows(alloc, &mut cells, UNREACHABLE, None)?;
        Ok(Tally { alloc, cells })
    }

    /// So many more of the cell of this text; a text of none counts nowhere. Refused where the sum is too large.
    pub(crate) fn add(&mut self, text: &str, times: u64) -> Result<(), NoMemory> {
        let Some(cell) = self.cells.get_mut(text) else {
            return Ok(());
        };
        if let Some(count) = cell.count {
            cell.count = Some(count.checked_add(times).ok_or(NoMemory)?);
        }
        Ok(())
    }

    /// How many cells a run may reach, and how many of them were done.
    pub(crate) fn reachable(&self) -> (usize, usize) {
        let cells = self.cells.values().filter(|cell| cell.count.is_some());
        let none = self.cells.values().filter(|it| it.count == Some(0));
        let of = cells.count();
        (of, of.saturating_sub(none.count()))
    }
}

/// Puts the cells of rows behind the others, or gives those that are there this count. Refused where memory runs out.
fn put_rows<A: Allocator + Copy>(
    alloc: A,
    cells: &mut CellTable<A>,
    rows: &[Row],
    count: Option<u64>,
) -> Result<(), AllocError> {
    for row in rows {
        let section = row.section;
        for text in texts_of(alloc, row.parts)? {
            let _ = cells.insert(text, Cell { section, count })?;
        }
    }
    Ok(())
}

/// The texts of one word of each part. Refused where memory runs out.
fn texts_of<A: Allocator + Copy>(
    alloc: A,
    parts: &[&str],
) -> Result<Vec<String<A>, A>, AllocError> {
    let mut texts = Vec::new(alloc);
    texts.push(String::new(alloc))?;
    for part in parts {
        let mut longer = Vec::new(alloc);
        for text in &texts {
            for word in part.split('|') {
                longer.push(format!(in alloc; "{text}{word}")?)?;
            }
        }
        texts = longer;
    }
    Ok(texts)
}
