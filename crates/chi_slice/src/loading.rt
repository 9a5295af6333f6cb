//! A slice out of its parts: whether they keep what a slice keeps, and the index of the slots in use.

ghost use Rattle.std.specs.Prelude.{◌≡◌, ◌<◌, ◌↔◌, ℕ, IfNone, IfSome, IsTrue, List, Option, is_some, true};
ghost use Rattle.chi_slice.specs.declared.places.RequestPlace.{RequestPlace};
ghost use Rattle.chi_slice.specs.Index.{Indexed, IsShown, at_line};
ghost use Rattle.chi_slice.specs.Loading.{AreLinesKept, AreSlotsLow, HasRows, IsFound, IsHiddenAt, IsKeptAt, IsLookedUp, IsLowAt, IsShownAt, JournalFits, lines_alone};
ghost use Rattle.chi_slice.specs.Slice.{SliceKept, is_line_in_range, line as line_of_slice, slice_with};

use crate::places::{RequestPlace, RequestPlaces};
use crate::slice::row_count;
use chi_flit::{Agent, Config, Line, Slot};
use chi_journal::Journal;
use chi_line::{CoherentLine, Position};
use std::alloc::Allocator;

/// Whether these parts keep what a slice keeps.
pub(crate) fn are_parts_kept<A: Allocator>(
    config: &Config,
    index: u8,
    lines: &[CoherentLine],
    journal: &Journal<A>,
) -> bool
    ensures { IsTrue result
        ↔ SliceKept (slice_with config.now index lines.now journal.now) }
{
    has_rows(config, index, lines)
        && does_journal_fit(config, index, lines, journal)
        && are_lines_kept(config, index, lines, journal)
}

/// Whether there is a slice of that index, and the lines are as many as it has.
fn has_rows(config: &Config, index: u8, lines: &[CoherentLine]) -> bool
    ensures { IsTrue result ↔ HasRows (lines_alone config.now index lines.now) }
{
    index < config.slices() && lines.len() == usize::from(row_count(config, index))
}

/// Whether the journal is of such a node, and legal.
fn does_journal_fit<A: Allocator>(
    config: &Config,
    index: u8,
    lines: &[CoherentLine],
    journal: &Journal<A>,
) -> bool
    ensures { IsTrue result
        ↔ JournalFits (slice_with config.now index lines.now journal.now) }
{
    journal.lines() == usize::from(config.lines())
        && journal.limit() == config.journal()
        && journal.legal()
}

/// Whether each line keeps what a line keeps, with the values that the journal has as last stored to it.
fn are_lines_kept<A: Allocator>(
    config: &Config,
    index: u8,
    lines: &[CoherentLine],
    journal: &Journal<A>,
) -> bool
    requires rows { HasRows (lines_alone config.now index lines.now) }
    requires journal { journal.now.lines ≡ config.now.lines }
    ensures { IsTrue result
        ↔ AreLinesKept (slice_with config.now index lines.now journal.now) }
{
    let count = config.lines();
    let mut kept = true;
    for line in 0..count {
        kept &= is_line_kept(config, index, lines, journal, Line(line));
    }
    kept
}

/// Whether a line, if it is in the slice, keeps what a line keeps.
fn is_line_kept<A: Allocator>(
    config: &Config,
    index: u8,
    lines: &[CoherentLine],
    journal: &Journal<A>,
    line: Line,
) -> bool
    requires rows { HasRows (lines_alone config.now index lines.now) }
    requires line { line.0 < journal.now.lines }
    ensures { IsTrue result
        ↔ IsKeptAt (slice_with config.now index lines.now journal.now) line.0 }
{
    match line_at(config, index, lines, line) {
        Some(at) => at.keeps(&journal.last_words(line)),
        None => true,
    }
}

/// The line, where it is in the slice.
fn line_at<'a>(
    config: &Config,
    index: u8,
    lines: &'a [CoherentLine],
    line: Line,
) -> Option<&'a CoherentLine>
    requires { HasRows (lines_alone config.now index lines.now) }
    ensures inside { is_some result
        ≡ is_line_in_range (lines_alone config.now index lines.now) line.0 }
    ensures line { IfSome result
        (λ at. at.now ≡ line_of_slice (lines_alone config.now index lines.now) line.0) }
{
    match config.row_in(index, line.0) {
        Some(row) => Some(&lines[usize::from(row)]),
        None => None,
    }
}

/// The index of the slots in use at these lines; `None` exactly where none stands: where a slot is in use at
/// two lines, or one has a number above 7.
pub(crate) fn places_in(config: &Config, index: u8, lines: &[CoherentLine]) -> Option<RequestPlaces>
    requires { HasRows (lines_alone config.now index lines.now) }
    ensures index { IfSome result
        (λ places. Indexed (lines_alone config.now index lines.now) places) }
    ensures always { (places : List (Option RequestPlace))
        → Indexed (lines_alone config.now index lines.now) places → IsTrue (is_some result) }
{
    let mut places = RequestPlaces::new();
    let mut single = are_slots_low(config, index, lines);
    for number in 0..64 {
        let (agent, slot) = (Agent(number / 8), Slot(number % 8));
        let found = look_up(config, index, lines, agent, slot);
        places.set(agent, slot, found.place);
        single &= found.single;
    }
    if single { Some(places) } else { None }
}

/// Whether no slot of a number above 7 is in use at these lines.
fn are_slots_low(config: &Config, index: u8, lines: &[CoherentLine]) -> bool
    requires { HasRows (lines_alone config.now index lines.now) }
    ensures { IsTrue result ↔ AreSlotsLow (lines_alone config.now index lines.now) }
{
    let count = config.lines();
    let mut low = true;
    for line in 0..count {
        low &= is_line_low(config, index, lines, Line(line));
    }
    low
}

/// Whether no slot of a number above 7 is in use at a line, if it is in the slice.
fn is_line_low(config: &Config, index: u8, lines: &[CoherentLine], line: Line) -> bool
    requires { HasRows (lines_alone config.now index lines.now) }
    ensures { IsTrue result ↔ IsLowAt (lines_alone config.now index lines.now) line.0 }
{
    match line_at(config, index, lines, line) {
        Some(at) => at.has_low_slots(),
        None => true,
    }
}

/// A place of a slot, if some line shows one, and whether each line shows the slot as the place says.
#[derive(Clone, Copy)]
struct Found {
    place: Option<RequestPlace>,
    single: bool,
}

/// Looks for an agent's slot at all lines.
fn look_up(config: &Config, index: u8, lines: &[CoherentLine], agent: Agent, slot: Slot) -> Found
    requires rows { HasRows (lines_alone config.now index lines.now) }
    requires agent { agent.0 < 8 }
    ensures { IsLookedUp (lines_alone config.now index lines.now)
        agent.0 slot result.place result.single }
{
    let place = first_place(config, index, lines, agent, slot);
    Found {
        place,
        single: is_single(config, index, lines, agent, slot, place),
    }
}

/// The place of an agent's slot at the first line that shows it; `None` where none does.
fn first_place(
    config: &Config,
    index: u8,
    lines: &[CoherentLine],
    agent: Agent,
    slot: Slot,
) -> Option<RequestPlace>
    requires rows { HasRows (lines_alone config.now index lines.now) }
    requires agent { agent.0 < 8 }
    ensures found { IfSome result
        (λ place. IsFound (lines_alone config.now index lines.now) agent.0 slot place) }
    ensures none { IfNone result
        ((l : ℕ) → IsHiddenAt (lines_alone config.now index lines.now) agent.0 slot l) }
{
    let count = config.lines();
    for line in 0..count {
        let place = place_at(config, index, lines, Line(line), agent, slot);
        if place.is_some() {
            return place;
        }
    }
    None
}

/// The place of an agent's slot at a line; `None` where the line isn't in the slice, or doesn't show the slot.
fn place_at(
    config: &Config,
    index: u8,
    lines: &[CoherentLine],
    line: Line,
    agent: Agent,
    slot: Slot,
) -> Option<RequestPlace>
    requires rows { HasRows (lines_alone config.now index lines.now) }
    requires agent { agent.0 < 8 }
    ensures found { IfSome result
        (λ place. IsFound (lines_alone config.now index lines.now) agent.0 slot place) }
    ensures none { IfNone result
        (IsHiddenAt (lines_alone config.now index lines.now) agent.0 slot line.0) }
{
    match line_at(config, index, lines, line) {
        Some(at) => match at.position(agent, slot) {
            Some(at) => Some(RequestPlace { line, at }),
            None => None,
        },
        None => None,
    }
}

/// Whether each line shows an agent's slot as the place says.
fn is_single(
    config: &Config,
    index: u8,
    lines: &[CoherentLine],
    agent: Agent,
    slot: Slot,
    place: Option<RequestPlace>,
) -> bool
    requires rows { HasRows (lines_alone config.now index lines.now) }
    requires agent { agent.0 < 8 }
    ensures { IsTrue result
        ↔ IsShown (lines_alone config.now index lines.now) agent.0 slot place }
{
    let count = config.lines();
    let mut shown = true;
    for line in 0..count {
        shown &= is_shown_at(config, index, lines, Line(line), agent, slot, place);
    }
    shown
}

/// Whether a line, if it is in the slice, shows an agent's slot as the place says.
fn is_shown_at(
    config: &Config,
    index: u8,
    lines: &[CoherentLine],
    line: Line,
    agent: Agent,
    slot: Slot,
    place: Option<RequestPlace>,
) -> bool
    requires rows { HasRows (lines_alone config.now index lines.now) }
    requires agent { agent.0 < 8 }
    ensures { IsTrue result
        ↔ IsShownAt (lines_alone config.now index lines.now) agent.0 slot place line.0 }
{
    match line_at(config, index, lines, line) {
        Some(at) => is_same_position(at.position(agent, slot), at_line(place, line)),
        None => true,
    }
}

/// What a place says of a line: nothing where it is at another one.
fn at_line(place: Option<RequestPlace>, line: Line) -> Option<Position>
    ensures { result ≡ at_line place line.0 }
{
    match place {
        Some(place) if place.line.0 == line.0 => Some(place.at),
        Some(_) | None => None,
    }
}

/// Whether two positions are the same, if there are any.
#[tactic(auto, using(crate::proofs::Loadings::same_position))]
fn is_same_position(one: Option<Position>, other: Option<Position>) -> bool
    ensures { IsTrue result ↔ (one ≡ other) }
{
    match (one, other) {
        (Some(one), Some(other)) => one == other,
        (None, None) => true,
        (Some(_), None) | (None, Some(_)) => false,
    }
}
