//! Files of weights: how often each verb is drawn, and each kind of request.

use crate::kind_sets::KindSet;
use crate::weight_faults::{WeightsFault, WrongWords};
use chi_flit::Kind;
use chi_script::{Verb, first_line, first_word, is_comment, number, read_kind};

/// How many verbs there are.
const VERBS: usize = 23;

/// How many of them, the first, don't only ask.
const DRAWN: usize = 19;

/// The weights where none are given.
const USUAL: [u16; VERBS] = [
    40, 40, 20, 300, 200, 200, 200, 200, 200, 200, 10, 200, 200, 200, 200, 200, 5, 40, 1, 0, 0, 0,
    0,
];

/// The weights of which nothing is said.
const ALIKE: [u16; VERBS] = [
    1, 1, 1, 1, 1, 1, 1, 1, 1, 1, 1, 1, 1, 1, 1, 1, 1, 1, 1, 0, 0, 0, 0,
];

/// How many kinds of request there are.
pub(crate) const KINDS: usize = 8;

/// How often each verb is proposed beside the others, and each kind of request.
/// Source: `docs/FORMATS.md`, "Drawn files".
#[derive(Clone, Copy, Debug, PartialEq, Eq)]
pub struct Weights {
    /// The weight of each verb, at the place of the verb; 0 of one that only asks.
    pub(crate) by_place: [u16; VERBS],
    /// The weight of each kind of request, at the place of the kind.
    pub(crate) by_kind: [u16; KINDS],
}

/// What has a weight.
#[derive(Clone, Copy)]
enum Weighed {
    Verb(Verb),
    Kind(Kind),
}

/// The weights that a file says: a line for a verb or a kind of request has its name and its weight, and a comment is as
/// in a check file. What no line names has weight 1; of two lines on one thing the later one says its weight.
///
/// Refused at the first line that is neither, or that no line end closes.
/// Source: `docs/FORMATS.md`, "Drawn files".
pub fn read_weights(bytes: &[u8]) -> Result<Weights, WeightsFault<'_>> {
    let mut weights = Weights {
        by_place: ALIKE,
        by_kind: [1; KINDS],
    };
    let mut rest = bytes;
    let mut number: usize = 1;
    while let Some((line, after)) = first_line(rest) {
        if let Some(wrong) = weights.add(line) {
            return Err(WeightsFault {
                line: number,
                wrong,
            });
        }
        rest = after;
        number = number.saturating_add(1);
    }
    if rest.is_empty() {
        Ok(weights)
    } else {
        Err(WeightsFault {
            line: number,
            wrong: WrongWords::Open,
        })
    }
}

/// The weight that a word says.
fn weight_in(word: &[u8]) -> Option<u16> {
    match number(word)? {
        weight @ 0..=1_000 => Some(weight as u16),
        _ => None,
    }
}

/// The verb of this name that doesn't only ask.
fn drawn_named(word: &[u8]) -> Option<Verb> {
    let verb = Verb::named(word)?;
    if verb.place() < DRAWN {
        Some(verb)
    } else {
        None
    }
}

/// What has a weight by this name.
fn weighed_named(word: &[u8]) -> Option<Weighed> {
    match (drawn_named(word), read_kind(word)) {
        (Some(verb), _) => Some(Weighed::Verb(verb)),
        (None, Some(kind)) => Some(Weighed::Kind(kind)),
        (None, None) => None,
    }
}

/// What has a weight, and the weight, as a line says them.
fn weight_of(line: &[u8]) -> Result<(Weighed, u16), WrongWords<'_>> {
    let Some((name, rest)) = first_word(line) else {
        return Err(WrongWords::Missing);
    };
    if let Some((_, behind)) = first_word(rest) {
        return Err(WrongWords::Behind(behind));
    }
    match (weighed_named(name), weight_in(rest)) {
        (Some(weighed), Some(weight)) => Ok((weighed, weight)),
        (Some(_), None) => Err(WrongWords::Weight(rest)),
        (None, _) => Err(WrongWords::Verb(name)),
    }
}

impl Weights {
    /// Takes a line; what is wrong with it, if anything.
    fn add<'a>(&mut self, line: &'a [u8]) -> Option<WrongWords<'a>> {
        if is_comment(line) {
            return None;
        }
        match weight_of(line) {
            Ok((weighed, weight)) => {
                self.set(weighed, weight);
                None
            }
            Err(wrong) => Some(wrong),
        }
    }

    /// Gives this weight.
    fn set(&mut self, weighed: Weighed, weight: u16) {
        match weighed {
            Weighed::Verb(verb) => self.by_place[verb.place()] = weight,
            Weighed::Kind(kind) => self.by_kind[usize::from(kind.number())] = weight,
        }
    }

    /// The weights of the usual verbs, and of kinds that weigh alike.
    /// Source: `docs/FORMATS.md`, "Drawn files".
    pub fn usual() -> Weights {
        Weights {
            by_place: USUAL,
            by_kind: [1; KINDS],
        }
    }

    /// The same weights, but those of kinds that aren't in the set are 0; and where those that are have weight 0 too, these
    /// have weight 1.
    /// Source: `docs/FORMATS.md`, "Drawn files".
    pub fn of_kinds(self, kinds: &KindSet) -> Weights {
        let mut by_kind = self.by_kind;
        leave_out(&mut by_kind, &ALL_KINDS, kinds);
        if sum_of(&by_kind) == 0 {
            by_kind = [1; KINDS];
            leave_out(&mut by_kind, &ALL_KINDS, kinds);
        }
        let by_place = self.by_place;
        Weights { by_place, by_kind }
    }

    /// The verb of a word: by the weights, or of those that don't only ask with one chance, and none then whose weight is 0.
    pub(crate) fn verb_by(&self, even: bool, word: u32) -> Option<Verb> {
        if even {
            self.even_verb(word)
        } else {
            weighted_verb(&self.by_place, word)
        }
    }

    /// The verb of a word, of those that don't only ask with one chance; none whose weight is 0.
    fn even_verb(&self, word: u32) -> Option<Verb> {
        let place = word % 19;
        if self.by_place[place as usize] == 0 {
            None
        } else {
            Verb::at(place as usize)
        }
    }
}

/// All kinds of request, each at its place.
const ALL_KINDS: [Kind; KINDS] = [
    Kind::ReadNotSharedDirty,
    Kind::ReadShared,
    Kind::ReadUnique,
    Kind::CleanUnique,
    Kind::Evict,
    Kind::WriteBackFull,
    Kind::WriteCleanFull,
    Kind::WriteEvictFull,
];

/// Makes those of these kinds weigh 0 that aren't in the set.
fn leave_out(weights: &mut [u16; KINDS], kinds: &[Kind], set: &KindSet) {
    for kind in kinds {
        if !set.has(*kind) {
            weights[usize::from(kind.number())] = 0;
        }
    }
}

/// The verb of a word, by the weights; none where all are 0.
fn weighted_verb(weights: &[u16], word: u32) -> Option<Verb> {
    Verb::at(place_by(weights, word)?)
}

/// The place of a word, by the weights; none where all are 0.
pub(crate) fn place_by(weights: &[u16], word: u32) -> Option<usize> {
    let sum = sum_of(weights);
    if sum == 0 {
        return None;
    }
    place_of(weights, word % sum)
}

/// The sum of weights.
fn sum_of(weights: &[u16]) -> u32 {
    let mut sum: u32 = 0;
    for weight in weights {
        sum = sum.saturating_add(u32::from(*weight));
    }
    sum
}

/// The place in whose weight the number falls; none where it is behind them all.
fn place_of(weights: &[u16], number: u32) -> Option<usize> {
    let mut left = number;
    for place in 0..weights.len() {
        let weight = u32::from(weights[place]);
        if left < weight {
            return Some(place);
        }
        left -= weight;
    }
    None
}
