//! Lists of kinds of request.

use crate::weights::KINDS;
use chi_flit::Kind;
use chi_script::read_kind;

/// Kinds of request.
/// Source: `docs/FORMATS.md`, "Drawn files".
#[derive(Clone, Copy, Debug, PartialEq, Eq)]
pub struct KindSet {
    /// Whether each kind is one of them, at the place of the kind.
    pub(crate) by_place: [bool; KINDS],
}

/// The kinds of a list, which has their names and one comma between two; `None` where a name is that of no kind.
/// Source: `docs/FORMATS.md`, "Drawn files".
pub fn read_kinds(list: &[u8]) -> Option<KindSet> {
    let mut kinds = KindSet {
        by_place: [false; KINDS],
    };
    for name in list.split(|byte| *byte == b',') {
        kinds.add(read_kind(name)?);
    }
    Some(kinds)
}

impl KindSet {
    /// Whether a kind is one of them.
    pub(crate) fn has(&self, kind: Kind) -> bool {
        self.by_place[usize::from(kind.number())]
    }

    /// Takes a kind in.
    fn add(&mut self, kind: Kind) {
        self.by_place[usize::from(kind.number())] = true;
    }
}
