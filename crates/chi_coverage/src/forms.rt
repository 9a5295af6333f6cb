//! How the counts of cells are written.

use crate::tally::Tally;
use chi_flit::NoMemory;
use std::alloc::Allocator;
use std::io::Write;

/// How cells are written.
/// Source: `docs/FORMATS.md`, "Coverage".
#[derive(Clone, Copy, Debug, PartialEq, Eq)]
pub enum CoverForm {
    /// A line of words for each cell, and one on all of them.
    Lines,
    /// One JSON value.
    Json,
    /// Values between tabs: a line of their names, and a line for each cell.
    Tsv,
}

/// What is written of the cells.
/// Source: `docs/FORMATS.md`, "Coverage".
#[derive(Clone, Copy, Debug, PartialEq, Eq)]
pub struct CoverShape {
    pub form: CoverForm,
    /// Whether those alone are written that no step is in.
    pub only_missing: bool,
}

/// The text of the cells. Refused where memory runs out.
pub(crate) fn text_of<A: Allocator + Copy>(
    tally: &Tally<A>,
    shape: CoverShape,
) -> Result<Vec<u8, A>, NoMemory> {
    let (of, reached) = tally.reachable();
    let mut text = Vec::new(tally.alloc);
    match shape.form {
        CoverForm::Lines => Ok(()),
        CoverForm::Json => write!(text, "{{\"covered\":{reached},\"of\":{of},\"cells\":["),
        CoverForm::Tsv => writeln!(text, "section\tcell\tcount"),
    }
    .map_err(|_| NoMemory)?;
    write_cells(&mut text, tally, shape)?;
    match shape.form {
        CoverForm::Lines => writeln!(text, "covered {reached} of {of} cells"),
        CoverForm::Json => writeln!(text, "\n]}}"),
        CoverForm::Tsv => Ok(()),
    }
    .map_err(|_| NoMemory)?;
    Ok(text)
}

/// Puts a line for each of the cells behind the text. Refused where memory runs out.
fn write_cells<A: Allocator + Copy>(
    text: &mut Vec<u8, A>,
    tally: &Tally<A>,
    shape: CoverShape,
) -> Result<(), NoMemory> {
    let mut is_behind = false;
    let is_json = shape.form == CoverForm::Json;
    for (name, cell) in tally.cells.iter() {
        if !shape.only_missing || cell.count == Some(0) {
            let comma = if is_behind { "," } else { "" };
            let count = match cell.count {
                Some(count) => format!(in tally.alloc; "{count}")?,
                None if is_json => String::from_str(tally.alloc, "null")?,
                None => String::from_str(tally.alloc, "unreachable")?,
            };
            let (section, count) = (cell.section, count.as_str());
            match shape.form {
                CoverForm::Lines => writeln!(text, "{section}: {name}: {count}"),
                CoverForm::Json => write!(
                    text,
                    "{comma}\n{{\"section\":\"{section}\",\"cell\":\"{name}\",\"count\":{count}}}"
                ),
                CoverForm::Tsv => writeln!(text, "{section}\t{name}\t{count}"),
            }
            .map_err(|_| NoMemory)?;
            is_behind = true;
        }
    }
    Ok(())
}
