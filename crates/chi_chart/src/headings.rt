//! The comments of a file, which a chart has as headings.

use chi_flit::NoMemory;
use chi_script::{first_line, is_comment};
use std::alloc::Allocator;

/// The lines of a file that are left.
#[derive(Clone, Copy)]
pub(crate) struct LeftLines<'a> {
    pub(crate) bytes: &'a [u8],
}

/// Puts what a comment says behind the headings.
fn add_heading<A: Allocator + Copy>(
    alloc: A,
    headings: &mut Vec<Vec<u8, A>, A>,
    comment: &[u8],
) -> Result<(), NoMemory> {
    if comment.is_empty() {
        return Ok(());
    }
    let mut heading = Vec::new(alloc);
    heading.extend_from_slice(&comment[1..])?;
    headings.push(heading)?;
    Ok(())
}

impl LeftLines<'_> {
    /// The headings up to the next line that is no comment; what stands behind that line is left. Refused where
    /// memory runs out.
    /// Source: `docs/FORMATS.md`, "Charts".
    pub(crate) fn headings<A: Allocator + Copy>(
        &mut self,
        alloc: A,
    ) -> Result<Vec<Vec<u8, A>, A>, NoMemory> {
        let mut headings = Vec::new(alloc);
        for _ in 0..self.bytes.len() {
            let Some((line, after)) = first_line(self.bytes) else {
                return Ok(headings);
            };
            self.bytes = after;
            if !is_comment(line) {
                return Ok(headings);
            }
            add_heading(alloc, &mut headings, line)?;
        }
        Ok(headings)
    }
}
