//! The lines of memory that flits have touched.

ghost use Rattle.std.specs.Prelude.{◌≡◌, IfOk, None, OnOk, nat_eq};
ghost use Rattle.std.specs.Map.{lookup};
ghost use Rattle.chi_observe.specs.declared.lines.LineStop.TheVariants as stops;
ghost use Rattle.chi_observer.specs.WordedLines.{words_of};
ghost use Rattle.chi_observe.specs.Judges.{before_of};
ghost use Rattle.chi_observe.specs.Lacking.{unknown_in};
ghost use Rattle.chi_observe.specs.LateReasons.{reason_in};
ghost use Rattle.chi_observe.specs.Lines.{IsBegunTold, IsBetweenTold, IsEarlyTold, IsEndTold, IsFlitTold, IsHeldTold, IsHoldTold, IsLastTold, IsLineTold, IsShownTold, IsTold, asks_lacking, early_of, forgets_data, had_lacking, held_next, home_of, is_apart, is_aside, is_given, is_showing, is_wanted_free, is_wanted_known, lacks_of, left_open, line_state, lines_in, marked_next, opened_line, presented, put_aside, shown_more, shown_words, shows_home, told_as, wanted_of, with_shown, word_in};

use crate::ids::Later;
use crate::judges::{Before, Judge};
use crate::lacking::Lacking;
use crate::marks::{Marks, shows_some, teller_of};
use crate::reasons::LineReason;
use crate::words::{
    agrees, but_known, but_one, lacks_some, left_of, unknown_behind, with_known, words_with,
};
use chi_flit::{Data, WordNo};
use chi_ids::CacheLine;
use chi_observer::{
    Act, Aside, CacheFlit, Flit, HomeFlit, KnownWords, Reason, Untaken, Wanted, Word,
};
use chi_trace::NodeId;
use indexmap::IndexMap;
use std::alloc::{AllocError, Allocator};
use std::hash::{BuildHasherDefault, FoldHasher};

/// What flits have told of a line.
/// Source: `docs/OBSERVER.md`, "A trace of many lines".
#[derive(Drop)]
pub(crate) struct LineSeen<A: Allocator> {
    /// The home of its first flit.
    pub home: NodeId,
    /// It isn't judged any more.
    pub aside: bool,
    /// Why, where what is on its way left it open.
    pub why: Option<Aside>,
    /// What data of it lack that come in beats.
    pub lacking: Lacking,
    pub judge: Judge<A>,
    /// By which lines of the trace.
    pub marks: Marks<A>,
}

/// What a line is told of.
#[derive(Clone, Copy)]
pub(crate) enum LineNews {
    /// A flit, with all words; none where it isn't judged.
    Flit(Option<Flit>),
    /// The first beat of data whose words are known, or tell nothing, with all words.
    Early(Flit),
    /// The first beat of data that lack these words, with any in their places.
    Begun(Flit, [bool; 8]),
    /// The last one, with all words; none where the data aren't judged.
    Ended(Option<Flit>),
    /// A later one of data whose words were known at the first: whether it has them.
    Held(bool),
    /// One that tells nothing.
    Nothing,
}

/// What came of telling a line.
#[derive(Clone, Copy)]
pub(crate) struct LineTold {
    /// It was the line's first flit.
    pub fresh: bool,
    /// The line was judged so far, and isn't any more.
    pub aside: bool,
    /// The line is judged behind it.
    pub judged: bool,
    /// What data of the line lacked before it.
    pub lacked: Lacking,
}

impl LineTold {
    /// Whether it set the line aside while data of it lacked words without which the line wasn't told of them.
    pub(crate) fn forgets_data(&self) -> bool
        ensures { result ≡ forgets_data self.now }
    {
        self.aside && matches!(self.lacked, Lacking::Data)
    }

    /// Whether data of the line lacked words.
    pub(crate) fn had_lacking(&self) -> bool
        ensures { result ≡ had_lacking self.now }
    {
        !matches!(self.lacked, Lacking::Nothing)
    }
}

/// The lines that flits have touched, each under its number.
pub(crate) type LineTable<A> = IndexMap<u64, LineSeen<A>, BuildHasherDefault<FoldHasher>, A>;

/// Memory for the marks of lines that no flit has touched.
pub(crate) type SpareMarks<A> = Vec<Vec<usize, A>, A>;

/// Why a line wasn't told of a flit.
#[derive(Clone, Copy, Debug, PartialEq, Eq)]
pub(crate) enum LineStop {
    /// It doesn't take the flit.
    Refused(LineReason),
    /// Memory ran out.
    NoMemory,
}

impl From<AllocError> for LineStop {
    ghost from_gives = { λ _ stop. stop ≡ stops.NoMemory };

    fn from(_lack: AllocError) -> LineStop {
        LineStop::NoMemory
    }
}

impl<A: Allocator + Copy> LineSeen<A> {
    /// A line that no flit has touched before the one with this number.
    fn new(
        memory: Vec<usize, A>,
        before: &Before,
        home: NodeId,
        number: usize,
    ) -> Result<LineSeen<A>, AllocError>
        ensures { IfOk result
            (λ seen. line_state seen ≡ opened_line (before_of before.now) number home) }
    {
        let judge = Judge::new(*memory.allocator(), before.log, before.stores, number)?;
        Ok(LineSeen {
            home,
            aside: false,
            why: None,
            lacking: Lacking::Nothing,
            judge,
            marks: Marks::new(memory, number),
        })
    }
}

impl<A: Allocator> LineSeen<A> {
    /// It isn't judged any more.
    fn set_aside(&mut self)
        ensures { line_state self.new ≡ put_aside (line_state self.old) }
    {
        self.aside = true;
    }

    /// Nor any more since a flit left open what it tells.
    fn leave_open(&mut self, why: Aside)
        ensures { line_state self.new ≡ left_open (reason_in why) (line_state self.old) }
    {
        self.aside = true;
        self.why = Some(why);
    }

    /// A flit that was taken is marked by its number, but a request that isn't told yet.
    fn mark(&mut self, flit: &Flit, number: usize) -> Result<(), AllocError>
        ensures { OnOk result
            (line_state self.new ≡ marked_next (line_state self.old) number flit.now) }
    {
        if self.judge.holds(teller_of(*flit)) {
            return Ok(());
        }
        self.marks.mark(flit, &self.judge.observer().home, number)
    }

    /// Takes a flit of this home, and with this number; one that isn't judged, or leaves open what it tells, sets the line
    /// aside. Where it isn't taken nothing changes.
    fn take_flit(
        &mut self,
        before: &Before,
        home: NodeId,
        flit: &Option<Flit>,
        number: usize,
    ) -> Result<(), LineStop>
        ensures { IsFlitTold (before_of before.now) (line_state self.old) (line_state self.new)
            number home flit.now result }
    {
        let Some(flit) = flit else {
            self.set_aside();
            return Ok(());
        };
        if self.aside {
            return Ok(());
        }
        if self.home.0 != home.0 {
            return Err(LineStop::Refused(LineReason::OtherHome(self.home)));
        }
        match self.judge.take(*flit, before, number) {
            Ok(()) => Ok(self.mark(flit, number)?),
            Err(Untaken::Fault(reason)) => Err(LineStop::Refused(LineReason::Rule(reason))),
            Err(Untaken::SetAside(why)) => {
                self.leave_open(why);
                Ok(())
            }
        }
    }

    /// Data lack words from now on without which the line isn't told of them; where others lack words already, it isn't
    /// judged any more.
    fn hold(&mut self)
        ensures { line_state self.new ≡ held_next (line_state self.old) }
    {
        if !matches!(self.lacking, Lacking::Nothing) {
            self.aside = true;
        }
        self.lacking = Lacking::Data;
    }

    /// What the words of a flit have to be; `Nothing` where the line isn't judged.
    fn wanted(&self, flit: Flit) -> Wanted
        ensures { result ≡ wanted_of (line_state self.now) flit }
    {
        if !self.aside {
            self.judge.wanted(flit)
        } else {
            Wanted::Nothing
        }
    }

    /// A flit with words that are known, or else the home's, in place of those that it lacks, and with the home's in place of
    /// those that no flit has shown.
    pub(crate) fn presented(&self, flit: Flit, lacks: &[bool; 8]) -> Flit
        ensures { result ≡ presented (line_state self.now) flit lacks.now }
    {
        let own = shown_words(flit);
        let home = match &self.judge.observer().home {
            Some(home) => *home,
            None => own,
        };
        let known = with_known(&home, &self.judge.told_words(flit));
        let filled = words_with(&own, &known, lacks);
        with_shown(flit, words_with(&filled, &home, &self.lacking.unknown()))
    }

    /// The home has the words that this flit was the first to show.
    fn show(&mut self, flit: Flit, lacks: &[bool; 8])
        ensures { line_state self.new ≡ shown_more (line_state self.old) flit lacks.now }
    {
        let Some(home) = &self.judge.observer().home else {
            return;
        };
        let there = left_of(&self.lacking.unknown(), lacks);
        let words = words_with(home, &shown_words(flit), &there);
        self.judge.show(words);
    }

    /// Takes a flit that lacks such words, and shows some of those that lack so far; this lacks behind it.
    fn take_shown(
        &mut self,
        before: &Before,
        home: NodeId,
        flit: Flit,
        lacks: &[bool; 8],
        lacking: Lacking,
        number: usize,
    ) -> Result<(), LineStop>
        ensures { IsShownTold (before_of before.now) (line_state self.old) (line_state self.new)
            number home flit lacks.now lacking result }
    {
        let whole = self.presented(flit, lacks);
        self.take_flit(before, home, &Some(whole), number)?;
        self.show(flit, lacks);
        self.marks.words = number;
        self.lacking = lacking;
        Ok(())
    }

    /// Takes the first beat of data that lack these words.
    fn begin(
        &mut self,
        before: &Before,
        home: NodeId,
        flit: Flit,
        lacks: &[bool; 8],
        number: usize,
    ) -> Result<(), LineStop>
        ensures { IsBegunTold (before_of before.now) (line_state self.old) (line_state self.new)
            number home flit lacks.now result }
    {
        let known = self.judge.told_words(flit);
        let given = is_given(flit);
        match self.lacking.with(self.wanted(flit), given, lacks, &known) {
            None => {
                self.hold();
                Ok(())
            }
            Some(lacking) => self.take_shown(before, home, flit, lacks, lacking, number),
        }
    }

    /// Takes the last beat of data of which the line wasn't told.
    fn end_held(
        &mut self,
        before: &Before,
        home: NodeId,
        flit: &Option<Flit>,
        number: usize,
    ) -> Result<(), LineStop>
        ensures { IsHeldTold (before_of before.now) (line_state self.old) (line_state self.new)
            number home flit.now result }
    {
        self.take_flit(before, home, flit, number)?;
        self.lacking = Lacking::Nothing;
        Ok(())
    }

    /// Takes the last beat of data of which the line was told at their first.
    fn end_early(&mut self, flit: &Option<Flit>, number: usize) -> Result<(), LineStop>
        ensures { IsLastTold (line_state self.old) (line_state self.new) number flit.now result }
    {
        let left = self.lacking.without();
        let Some(flit) = flit else {
            self.lacking = left;
            self.set_aside();
            return Ok(());
        };
        let words = shown_words(*flit);
        let unknown = self.lacking.unknown();
        if !self.aside && !agrees(&unknown, &self.judge.observer().home, &words) {
            return Err(LineStop::Refused(LineReason::Rule(Reason::OtherWords)));
        }
        if !self.aside {
            self.judge.show(words);
            self.marks.words = number;
        }
        self.lacking = left;
        Ok(())
    }

    /// Takes the last beat of data.
    fn end(
        &mut self,
        before: &Before,
        home: NodeId,
        flit: &Option<Flit>,
        number: usize,
    ) -> Result<(), LineStop>
        ensures { IsEndTold (before_of before.now) (line_state self.old) (line_state self.new)
            number home flit.now result }
    {
        match self.lacking {
            Lacking::Nothing => self.end_held(before, home, flit, number),
            Lacking::Data => self.end_held(before, home, flit, number),
            Lacking::Words(_, _, _) => self.end_early(flit, number),
        }
    }

    /// A later beat of data whose words were known at the first: it has them, or doesn't.
    fn hold_to(&self, same: bool) -> Result<(), LineStop>
        ensures { IsHoldTold (line_state self.now) same result }
    {
        if self.aside || same {
            Ok(())
        } else {
            Err(LineStop::Refused(LineReason::Rule(Reason::OtherWords)))
        }
    }

    /// Whether a flit shows words that have to be the home's, and may show them.
    fn shows_home(&self, flit: Flit) -> bool
        ensures { result ≡ shows_home (line_state self.now) flit }
    {
        !self.aside
            && ((is_wanted_known(self.judge.wanted(flit)) || self.judge.observer().reads_home(flit))
                && self.lacking.may_show(is_given(flit), &lacks_of(flit)))
    }

    /// Whether a flit shows words of which some lack so far.
    fn is_showing(&self, flit: &Option<Flit>) -> bool
        ensures { result ≡ is_showing (line_state self.now) flit.now }
    {
        match flit {
            None => false,
            Some(flit) => match self.lacking {
                Lacking::Nothing => false,
                Lacking::Data => false,
                Lacking::Words(_, _, _) => self.shows_home(*flit),
            },
        }
    }

    /// Whether a flit is a load of a word that no flit has shown yet, which may tell of a store: only the beat that lacks can
    /// say what it may load.
    fn asks_lacking(&self, flit: Flit, unknown: &[bool; 8]) -> bool
        ensures { result ≡ asks_lacking (line_state self.now) flit unknown.now }
    {
        self.judge.observer().may_tell_store(flit) && lacks_some(&left_of(unknown, &lacks_of(flit)))
    }

    /// Whether a flit goes on by itself, whatever words data lack.
    fn is_apart(&self, flit: &Option<Flit>) -> bool
        ensures { result ≡ is_apart (line_state self.now) flit.now }
    {
        match flit {
            None => true,
            Some(flit) => match self.lacking {
                Lacking::Nothing => true,
                Lacking::Data => false,
                Lacking::Words(unknown, _, _) => {
                    (!shows_some(flit) || is_wanted_free(self.wanted(*flit)))
                        && (!self.judge.keeps_store(*flit) && !self.asks_lacking(*flit, &unknown))
                }
            },
        }
    }

    /// Takes a flit of this home, and with this number, between the beats of data or not.
    fn take_between(
        &mut self,
        before: &Before,
        home: NodeId,
        flit: &Option<Flit>,
        number: usize,
    ) -> Result<(), LineStop>
        ensures { IsBetweenTold (before_of before.now) (line_state self.old) (line_state self.new)
            number home flit.now result }
    {
        let Some(sent) = flit else {
            self.set_aside();
            return Ok(());
        };
        if self.is_showing(flit) {
            let lacks = lacks_of(*sent);
            let lacking = self.lacking.shown(&lacks);
            return self.take_shown(before, home, *sent, &lacks, lacking, number);
        }
        if self.is_apart(flit) {
            return self.take_flit(before, home, flit, number);
        }
        self.set_aside();
        Ok(())
    }

    /// Takes the first beat of data whose words are known, or tell nothing: it shows none that weren't shown.
    fn take_early(
        &mut self,
        before: &Before,
        home: NodeId,
        flit: Flit,
        number: usize,
    ) -> Result<(), LineStop>
        ensures { IsEarlyTold (before_of before.now) (line_state self.old) (line_state self.new)
            number home flit result }
    {
        let words = self.marks.words;
        self.take_between(before, home, &Some(flit), number)?;
        self.marks.words = words;
        Ok(())
    }

    /// What the words of data that lack such words are known to be at their first beat, and what the later ones are then;
    /// `None` where they aren't known.
    pub(crate) fn early(&self, flit: Flit, lacks: &[bool; 8]) -> Option<(Later, Data)>
        ensures { result ≡ early_of (line_state self.now) flit lacks.now }
    {
        match self.wanted(flit) {
            Wanted::Free => Some((Later::Free, shown_words(flit))),
            Wanted::Known => {
                if !self.lacking.is_known() {
                    return None;
                }
                let home = self.judge.observer().home?;
                Some((Later::Held, words_with(&shown_words(flit), &home, lacks)))
            }
            Wanted::Any => None,
            Wanted::Nothing => None,
        }
    }

    /// Takes what a line is told of, by this home and with this number. Where it isn't taken nothing changes.
    #[tactic(auto, unfolding(crate::specs::Lines::takes_line, crate::specs::Lines::line_next, crate::specs::Lines::is_line_reason))]
    fn take(
        &mut self,
        before: &Before,
        home: NodeId,
        news: &LineNews,
        number: usize,
    ) -> Result<(), LineStop>
        ensures { IsLineTold (before_of before.now) (line_state self.old) (line_state self.new)
            number home news.now result }
    {
        match news {
            LineNews::Flit(flit) => self.take_between(before, home, flit, number),
            LineNews::Early(flit) => self.take_early(before, home, *flit, number),
            LineNews::Begun(flit, lacks) => self.begin(before, home, *flit, lacks, number),
            LineNews::Ended(flit) => self.end(before, home, flit, number),
            LineNews::Held(same) => self.hold_to(*same),
            LineNews::Nothing => Ok(()),
        }
    }

    /// Takes it too, and says what came of that; `fresh` is whether it is the line's first flit.
    fn tell(
        &mut self,
        before: &Before,
        home: NodeId,
        news: &LineNews,
        number: usize,
        fresh: bool,
    ) -> Result<LineTold, LineStop>
        ensures told { IsLineTold (before_of before.now) (line_state self.old) (line_state self.new)
            number home news.now result }
        ensures done { IfOk result
            (λ done. done ≡ told_as fresh (line_state self.old) (line_state self.new)) }
    {
        let (was, lacked) = (self.aside, self.lacking);
        self.take(before, home, news, number)?;
        Ok(LineTold {
            fresh,
            aside: self.aside && !was,
            judged: !self.aside,
            lacked,
        })
    }
}

/// The words of a flit: a load's word in the place of each.
fn shown_words(flit: Flit) -> Data
    ensures { result ≡ shown_words flit }
{
    match flit {
        Flit::Up(sent) => match sent.act {
            Act::Load(word) => [word.value; 8],
            _ => sent.shown,
        },
        Flit::Down(given) => given.shown,
    }
}

/// The word of these in a place.
fn word_in(words: &Data, place: WordNo) -> u64
    ensures { result ≡ word_in words.now place }
{
    match words.get(usize::from(place.0)) {
        Some(word) => *word,
        None => 0,
    }
}

/// The flit with these words; a load with that of its place.
fn with_shown(flit: Flit, words: Data) -> Flit
    ensures { result ≡ with_shown flit words }
{
    match flit {
        Flit::Up(sent) => match sent.act {
            Act::Load(word) => {
                let value = word_in(&words, word.place);
                let act = Act::Load(Word { value, ..word });
                Flit::Up(CacheFlit { act, ..sent })
            }
            _ => Flit::Up(CacheFlit {
                shown: words,
                ..sent
            }),
        },
        Flit::Down(given) => Flit::Down(HomeFlit {
            shown: words,
            ..given
        }),
    }
}

/// The words that a whole flit lacks: of a load all but one.
pub(crate) fn lacks_of(flit: Flit) -> [bool; 8]
    ensures { result ≡ lacks_of flit }
{
    match flit {
        Flit::Up(sent) => match sent.act {
            Act::Load(word) => but_one(word.place.0),
            _ => [false; 8],
        },
        Flit::Down(_) => [false; 8],
    }
}

/// Whether the home sends a flit.
fn is_given(flit: Flit) -> bool
    ensures { result ≡ is_given flit }
{
    matches!(flit, Flit::Down(_))
}

/// Whether the words have to be those that are known.
fn is_wanted_known(wanted: Wanted) -> bool
    ensures { result ≡ is_wanted_known wanted }
{
    matches!(wanted, Wanted::Known)
}

/// Whether the words may be any, and tell nothing.
fn is_wanted_free(wanted: Wanted) -> bool
    ensures { result ≡ is_wanted_free wanted }
{
    matches!(wanted, Wanted::Free)
}

/// Whether the line isn't judged any more.
pub(crate) fn is_aside<A: Allocator>(lines: &LineTable<A>, line: CacheLine) -> bool
    ensures { result ≡ is_aside (lines_in lines.now.entries line.0) }
{
    match lines.get(&line.0) {
        Some(seen) => seen.aside,
        None => false,
    }
}

/// The home of the line's first flit; none of a line that no flit has touched.
pub(crate) fn home_of<A: Allocator>(lines: &LineTable<A>, line: CacheLine) -> Option<NodeId>
    ensures { result ≡ home_of (lines_in lines.now.entries line.0) }
{
    match lines.get(&line.0) {
        Some(seen) => Some(seen.home),
        None => None,
    }
}

/// Tells the line of this by this home, and with this number. Where the line doesn't take it nothing changes.
pub(crate) fn tell<A: Allocator + Copy>(
    lines: &mut LineTable<A>,
    spare: &mut SpareMarks<A>,
    before: &Before,
    line: CacheLine,
    home: NodeId,
    news: &LineNews,
    number: usize,
) -> Result<LineTold, LineStop>
    ensures { IsTold (before_of before.now) (lines_in lines.old.entries) (lines_in lines.new.entries) number line home news.now result }
{
    match lines.get_mut(&line.0) {
        Some(seen) => seen.tell(before, home, news, number, false),
        None => tell_new(lines, spare, before, line, home, news, number),
    }
}

/// The same of a line that no flit has touched.
fn tell_new<A: Allocator + Copy>(
    lines: &mut LineTable<A>,
    spare: &mut SpareMarks<A>,
    before: &Before,
    line: CacheLine,
    home: NodeId,
    news: &LineNews,
    number: usize,
) -> Result<LineTold, LineStop>
    requires { lookup (nat_eq line.0) lines.old.entries ≡ None }
    ensures { IsTold (before_of before.now) (lines_in lines.old.entries) (lines_in lines.new.entries) number line home news.now result }
{
    let memory = spare.pop().unwrap_or(Vec::new(*lines.allocator()));
    let mut seen = LineSeen::new(memory, before, home, number)?;
    let told = match seen.tell(before, home, news, number, true) {
        Ok(told) => told,
        Err(stop) => return Err(stop),
    };
    match lines.insert(line.0, seen) {
        Ok(_) => Ok(told),
        Err(_) => Err(LineStop::NoMemory),
    }
}
