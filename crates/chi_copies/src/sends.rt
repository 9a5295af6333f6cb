//! What a flit of a cache leaves of one copy, by the words that are known.

ghost use Rattle.std.specs.Prelude.{◌≡◌, ◌&&◌, ◌||◌, false, not, true};
ghost use Rattle.chi_observer.specs.Rules.{word_at};
ghost use Rattle.chi_observer.specs.Rules.{is_answered_from, is_issued_from, is_written_from, same_kind};
ghost use Rattle.chi_observer.specs.declared.flits.Act.TheVariants.{SnpResp};
ghost use Rattle.chi_observer.specs.declared.flits.Due.TheVariants.{Nothing};
ghost use Rattle.chi_observer.specs.declared.kinds.Kind.TheVariants.{Evict};
ghost use Rattle.chi_copies.specs.Rules.{acts, may_hide};
ghost use Rattle.chi_copies.specs.Images.{fitting, is_idle, is_plain, replied, sent_from, written};
ghost use Rattle.chi_copies.specs.Copies.{Held as HeldOf, image, leaves, same_held};
ghost use Rattle.chi_copies.specs.Observed.{differs_at, fits_at, fits_each, may_own};
ghost use Rattle.chi_copies.specs.Worlds.{is_placed};
ghost use Rattle.chi_copies.specs.Sets.{held_is, members, some_held};
ghost use Rattle.chi_copies.specs.Lines.{fits_any, fits_by, fits_of, known_at, sends_by};

use crate::acts::{acts, gives_up_due, is_copy_back_due, is_resent, is_whole_write_due, may_hide};
use crate::copies::{Copies, EVERY, Row};
use crate::held::Held;
use crate::rules::{are_hidden, drops, has_data};
use crate::tests::{FRESH, NEWER, storable};
use chi_flit::{Data, State};
use chi_observer::{Act, Answer, CacheFlit, Due, Kind, Stores};

// A bit is that of what the cache has (copies.rt), of a copy that is neither cancelled nor stored to; 7 more if its
// request is cancelled, and 14 more if it was stored to.

/// No copy.
const NONE: Copies = Copies { bits: 0 };

/// Each copy.
const EACH: Copies = Copies { bits: EVERY };

/// None, or any without data that no other cache has beside it.
const INVALID_OR_EMPTY: Copies = Copies { bits: 0x0122_4489 };

/// None, UCE or shared.
const NOT_UNIQUE: Copies = Copies { bits: 0x056a_d5ab };

/// None, SC or UC.
const INVALID_OR_CLEAN: Copies = Copies { bits: 0x00e1_c387 };

/// None.
const INVALID: Copies = Copies { bits: 0x0020_4081 };

/// Clean: SC, UC or UCE.
const CLEAN: Copies = Copies { bits: 0x01c3_870e };

/// SC or UC.
const CLEAN_WITH_DATA: Copies = Copies { bits: 0x00c1_8306 };

/// Dirty.
const DIRTY: Copies = Copies { bits: 0x060c_1830 };

/// UC.
const UNIQUE_CLEAN: Copies = Copies { bits: 0x0081_0204 };

/// UC or UCE.
const UNIQUE_NOT_DIRTY: Copies = Copies { bits: 0x0183_060c };

/// UD.
const UNIQUE_DIRTY: Copies = Copies { bits: 0x0204_0810 };

/// None, or clean.
const NOT_DIRTY: Copies = Copies { bits: 0x01e3_c78f };

/// SC.
const SHARED_CLEAN: Copies = Copies { bits: 0x0040_8102 };

/// SD.
const SHARED_DIRTY: Copies = Copies { bits: 0x0408_1020 };

/// None, while the data of a WriteUniqueFull are due.
const WRITING: Copies = Copies { bits: 0x0810_2040 };

/// Whose request isn't cancelled.
const WAITING: Copies = Copies { bits: 0x001f_c07f };

/// Whose request is cancelled.
const CANCELLED: Copies = Copies { bits: 0x0fe0_3f80 };

/// To none of each.
const TO_INVALID: [Row; 4] = [
    Row {
        from: Copies { bits: 0x0000_007f },
        to: Copies { bits: 0x0000_0001 },
    },
    Row {
        from: Copies { bits: 0x0000_3f80 },
        to: Copies { bits: 0x0000_0080 },
    },
    Row {
        from: Copies { bits: 0x001f_c000 },
        to: Copies { bits: 0x0000_4000 },
    },
    Row {
        from: Copies { bits: 0x0fe0_0000 },
        to: Copies { bits: 0x0020_0000 },
    },
];

/// To SC of each.
const TO_SHARED_CLEAN: [Row; 4] = [
    Row {
        from: Copies { bits: 0x0000_007f },
        to: Copies { bits: 0x0000_0002 },
    },
    Row {
        from: Copies { bits: 0x0000_3f80 },
        to: Copies { bits: 0x0000_0100 },
    },
    Row {
        from: Copies { bits: 0x001f_c000 },
        to: Copies { bits: 0x0000_8000 },
    },
    Row {
        from: Copies { bits: 0x0fe0_0000 },
        to: Copies { bits: 0x0040_0000 },
    },
];

/// To none of each, whose words the home has.
const TO_SHOWN_INVALID: [Row; 2] = [
    Row {
        from: WAITING,
        to: Copies { bits: 0x00000001 },
    },
    Row {
        from: CANCELLED,
        to: Copies { bits: 0x00000080 },
    },
];

/// To SC of each, whose words the home has.
const TO_SHOWN_SHARED_CLEAN: [Row; 2] = [
    Row {
        from: WAITING,
        to: Copies { bits: 0x00000002 },
    },
    Row {
        from: CANCELLED,
        to: Copies { bits: 0x00000100 },
    },
];

/// To UC of each, whose words the home has.
const TO_SHOWN_UNIQUE_CLEAN: [Row; 2] = [
    Row {
        from: WAITING,
        to: Copies { bits: 0x00000004 },
    },
    Row {
        from: CANCELLED,
        to: Copies { bits: 0x00000200 },
    },
];

/// To UD of each, whose words the home has.
const TO_SHOWN_UNIQUE_DIRTY: [Row; 2] = [
    Row {
        from: WAITING,
        to: Copies { bits: 0x00000010 },
    },
    Row {
        from: CANCELLED,
        to: Copies { bits: 0x00000800 },
    },
];

/// To SD of each, whose words the home has.
const TO_SHOWN_SHARED_DIRTY: [Row; 2] = [
    Row {
        from: WAITING,
        to: Copies { bits: 0x00000020 },
    },
    Row {
        from: CANCELLED,
        to: Copies { bits: 0x00001000 },
    },
];

/// What the words of a flit of a cache may be, beside those that are known of a copy.
/// Source: `docs/COPIES.md`, "The relation".
#[derive(Clone, Copy, Debug, PartialEq, Eq)]
pub struct Fits {
    /// Whether its data may be the copy's.
    pub shown: bool,
    /// Whether the word of a load may be the copy's; true of others.
    pub own: bool,
    /// Whether the word of a load may be another.
    pub other: bool,
}

/// A flit of a cache, beside what is kept of the line.
/// Source: `docs/COPIES.md`, "The relation".
#[derive(Clone, Copy, Debug, PartialEq, Eq)]
pub struct Sent {
    /// Whether each store of a processor is told of.
    pub stores: Stores,
    /// What it is.
    pub act: Act,
    /// Whether the snoop lets dirty data be thrown away.
    pub goes: bool,
    /// What is due of its agent's request.
    pub due: Due,
    /// How the flit's words fit the home's.
    pub home: Fits,
    /// How the flit's words fit those that are known of the value while the home hasn't it.
    pub news: Fits,
}

/// Whether a load or a store is of one of the line's eight words.
pub(crate) fn is_placed(act: Act) -> bool
    ensures { result ≡ is_placed act }
{
    match act {
        Act::Load(word) | Act::Store(word) => word.place.0 < 8,
        Act::Request(_)
        | Act::Resend(_)
        | Act::SnpResp(_)
        | Act::CompAck
        | Act::CopyBackWrData(_)
        | Act::NonCopyBackWrData => true,
    }
}

/// Whether a word may be what is known of it.
fn fits_at(known: Option<u64>, value: u64) -> bool
    ensures { result ≡ fits_at known value }
{
    match known {
        None => true,
        Some(known) => known == value,
    }
}

/// Whether a word may be another than what is known of it.
fn differs_at(known: Option<u64>, value: u64) -> bool
    ensures { result ≡ differs_at known value }
{
    match known {
        None => true,
        Some(known) => !(known == value),
    }
}

/// Whether all words may be what is known of them.
pub(crate) fn fits_each(known: &[Option<u64>; 8], words: &Data) -> bool
    ensures { result ≡ fits_each (known_at known.now) (word_at words.now) }
{
    let mut fits = true;
    for n in 0..8 {
        fits = fits_at(known[n], words[n]) && fits;
    }
    fits
}

/// Whether the word of a load may be the copy's, of which these are known.
fn may_be_own(known: &[Option<u64>; 8], act: Act) -> bool
    requires { is_placed act ≡ true }
    ensures { result ≡ may_own act (known_at known.now) true }
{
    match act {
        Act::Load(word) => fits_at(known[usize::from(word.place.0)], word.value),
        Act::Request(_)
        | Act::Resend(_)
        | Act::SnpResp(_)
        | Act::CompAck
        | Act::CopyBackWrData(_)
        | Act::NonCopyBackWrData
        | Act::Store(_) => true,
    }
}

/// Whether the word of a load may be another than the copy's.
fn may_be_other(known: &[Option<u64>; 8], act: Act) -> bool
    requires { is_placed act ≡ true }
    ensures { result ≡ may_own act (known_at known.now) false }
{
    match act {
        Act::Load(word) => differs_at(known[usize::from(word.place.0)], word.value),
        Act::Request(_)
        | Act::Resend(_)
        | Act::SnpResp(_)
        | Act::CompAck
        | Act::CopyBackWrData(_)
        | Act::NonCopyBackWrData
        | Act::Store(_) => false,
    }
}

/// What the words of the flit may be, beside these.
#[inline(always)]
pub(crate) fn fits_by(flit: CacheFlit, known: &[Option<u64>; 8]) -> Fits
    requires { is_placed flit.act ≡ true }
    ensures { result ≡ fits_by flit (known_at known.now) }
{
    Fits {
        shown: !has_data(flit.act) || fits_each(known, &flit.shown),
        own: may_be_own(known, flit.act),
        other: may_be_other(known, flit.act),
    }
}

/// What the words of the flit may be where none are known.
fn fits_any(act: Act) -> Fits
    ensures { result ≡ fits_any act }
{
    Fits {
        shown: true,
        own: true,
        other: matches!(act, Act::Load(_)),
    }
}

/// The set with the copy, if it is to have one more.
pub(crate) fn with_left(left: Copies, more: bool, held: Option<Held>) -> Copies
    ensures { (h : HeldOf) → members result h ≡ (members left h || (more && leaves (some_held held) h)) }
{
    match held {
        None => left,
        Some(held) => if more { left.with(held) } else { left },
    }
}

/// The copies that a request of the kind is issued from.
fn issued_from(kind: Kind) -> Copies
    ensures { (h : HeldOf) → members result h ≡ is_issued_from kind h.copy }
{
    match kind {
        Kind::ReadNotSharedDirty | Kind::ReadShared | Kind::ReadClean => INVALID_OR_EMPTY,
        Kind::ReadUnique | Kind::CleanUnique | Kind::MakeUnique => NOT_UNIQUE,
        Kind::CleanShared => INVALID_OR_CLEAN,
        Kind::ReadOnce | Kind::CleanInvalid | Kind::MakeInvalid | Kind::WriteUniqueFull => INVALID,
        Kind::Evict => CLEAN,
        Kind::WriteBackFull | Kind::WriteCleanFull => DIRTY,
        Kind::WriteEvictFull => UNIQUE_CLEAN,
    }
}

/// The copies that the answer is given from.
fn answered_from(answer: Answer) -> Copies
    ensures { (h : HeldOf) → members result h ≡ is_answered_from answer h.copy }
{
    match answer {
        Answer::SnpRespI => NOT_DIRTY,
        Answer::SnpRespSC | Answer::SnpRespDataI | Answer::SnpRespDataSC => CLEAN_WITH_DATA,
        Answer::SnpRespUC => UNIQUE_NOT_DIRTY,
        Answer::SnpRespDataUC => UNIQUE_CLEAN,
        Answer::SnpRespDataUD | Answer::SnpRespDataUCPD => UNIQUE_DIRTY,
        Answer::SnpRespDataSD | Answer::SnpRespDataIPD | Answer::SnpRespDataSCPD => DIRTY,
    }
}

/// The copies that the answer is given from; `goes` says that the snoop lets dirty data be thrown away.
fn replied_from(answer: Answer, goes: bool) -> Copies
    ensures { (h : HeldOf) → members result h ≡ sent_from (SnpResp answer) goes Nothing h }
{
    let from = answered_from(answer);
    if goes && drops(answer) {
        from.or(DIRTY)
    } else {
        from
    }
}

/// The copies that write data of the form are sent from.
fn written_from(form: State) -> Copies
    ensures { (h : HeldOf) → members result h ≡ is_written_from form h.copy }
{
    match form {
        State::I => NOT_DIRTY,
        State::SC => SHARED_CLEAN,
        State::UC => UNIQUE_CLEAN,
        State::UD => UNIQUE_DIRTY,
        State::SD => SHARED_DIRTY,
    }
}

/// The copies whose cache sends a flit, if what is due lets it.
fn waiting(lets: bool, from: Copies) -> Copies
    ensures { (h : HeldOf) → members result h ≡ (lets && members from h) }
{
    if lets { from } else { NONE }
}

/// The copies that a flit, but for a load or a store, is sent from.
fn sent_from(act: Act, goes: bool, due: Due) -> Copies
    ensures { (h : HeldOf) → members result h ≡ sent_from act goes due h }
{
    match act {
        Act::Request(kind) => issued_from(kind),
        Act::Resend(kind) => waiting(is_resent(kind, due), WAITING),
        Act::SnpResp(answer) => replied_from(answer, goes),
        Act::CompAck => waiting(matches!(due, Due::Acknowledgement), EACH),
        Act::CopyBackWrData(form) => waiting(is_copy_back_due(due), written_from(form)),
        Act::NonCopyBackWrData => waiting(is_whole_write_due(due), WRITING),
        Act::Load(_) | Act::Store(_) => NONE,
    }
}

/// Whether the flit leaves the copies that it may have been sent from, or one for each of them.
pub(crate) fn is_plain(act: Act, due: Due, may: Copies) -> bool
    ensures { result ≡ is_plain act due (members may) }
{
    match act {
        Act::Request(kind) => is_asked(kind, due) && !may.meets(CANCELLED),
        Act::Resend(_)
        | Act::SnpResp(_)
        | Act::CompAck
        | Act::CopyBackWrData(_)
        | Act::NonCopyBackWrData => true,
        Act::Load(_) | Act::Store(_) => false,
    }
}

/// Whether nothing is due, and the request leaves the copies that it was issued from.
fn is_asked(kind: Kind, due: Due) -> bool
    ensures { result ≡ (is_idle due && not (same_kind Evict kind)) }
{
    matches!(due, Due::Nothing) && !matches!(kind, Kind::Evict)
}

/// What is left of the copies that an answer is given from.
fn replied(answer: Answer, from: Copies) -> Copies
    ensures { (h : HeldOf) → members result h ≡ image (λ k. same_held (replied answer k)) (members from) h }
{
    match answer {
        Answer::SnpRespI => from.led(&TO_INVALID),
        Answer::SnpRespSC => from.led(&TO_SHARED_CLEAN),
        Answer::SnpRespUC => from,
        Answer::SnpRespDataI => from.led(&TO_SHOWN_INVALID),
        Answer::SnpRespDataSC => from.led(&TO_SHOWN_SHARED_CLEAN),
        Answer::SnpRespDataUC => from.led(&TO_SHOWN_UNIQUE_CLEAN),
        Answer::SnpRespDataUD => from.led(&TO_SHOWN_UNIQUE_DIRTY),
        Answer::SnpRespDataSD => from.led(&TO_SHOWN_SHARED_DIRTY),
        Answer::SnpRespDataIPD => from.led(&TO_SHOWN_INVALID),
        Answer::SnpRespDataSCPD => from.led(&TO_SHOWN_SHARED_CLEAN),
        Answer::SnpRespDataUCPD => from.led(&TO_SHOWN_UNIQUE_CLEAN),
    }
}

/// What is left of the copies that write data are sent from; `up` says that they leave none.
fn written(form: State, up: bool, from: Copies) -> Copies
    ensures { (h : HeldOf) → members result h ≡ image (λ k. same_held (written form up k)) (members from) h }
{
    match form {
        State::I => from.led(&TO_INVALID),
        State::SC => if up {
            from.led(&TO_SHOWN_INVALID)
        } else {
            from.led(&TO_SHOWN_SHARED_CLEAN)
        },
        State::UC => if up {
            from.led(&TO_SHOWN_INVALID)
        } else {
            from.led(&TO_SHOWN_UNIQUE_CLEAN)
        },
        State::UD => if up {
            from.led(&TO_SHOWN_INVALID)
        } else {
            from.led(&TO_SHOWN_UNIQUE_CLEAN)
        },
        State::SD => if up {
            from.led(&TO_SHOWN_INVALID)
        } else {
            from.led(&TO_SHOWN_SHARED_CLEAN)
        },
    }
}

/// What such a flit leaves of the copies.
pub(crate) fn plain(act: Act, goes: bool, due: Due, may: Copies) -> Copies
    requires { is_plain act due (members may) ≡ true }
    ensures { (z : Stores) (h : HeldOf) → members result h ≡ image (λ k. leaves (acts z act true goes due k)) (members may) h }
{
    let from = may.and(sent_from(act, goes, due));
    match act {
        Act::SnpResp(answer) => replied(answer, from),
        Act::Request(_) => from,
        Act::Resend(_) => from,
        Act::CompAck => from,
        Act::CopyBackWrData(form) => written(form, gives_up_due(due), from),
        Act::NonCopyBackWrData => from.led(&TO_SHOWN_INVALID),
        Act::Load(_) => from,
        Act::Store(_) => from,
    }
}

/// The copies to which a store that isn't told of may be done while this is due.
fn hideable(stores: Stores, due: Due) -> Copies
    ensures { (h : HeldOf) → members result h ≡ may_hide stores due h }
{
    if are_hidden(stores) {
        storable(due)
    } else {
        NONE
    }
}

/// The copies whose words a flit's may be, if the home's (`home`) and those known of the value meanwhile (`news`) may.
pub(crate) fn fitting(stores: Stores, due: Due, home: bool, news: bool) -> Copies
    ensures { (h : HeldOf) → members result h ≡ fitting stores due home news h }
{
    let fresh = waiting(!home, FRESH);
    let known = hideable(stores, due).others().and(NEWER);
    let newer = waiting(!news, known);
    fresh.or(newer).others()
}

impl Sent {
    /// What its words may be, beside those known of the copy.
    fn fits(self, held: Held) -> Fits
        ensures { result ≡ fits_of self (held_is held) }
    {
        if held.is_fresh() {
            self.home
        } else if held.is_newer() && !may_hide(self.stores, self.due, held) {
            self.news
        } else {
            fits_any(self.act)
        }
    }

    /// What it leaves of the copy, where its word is the copy's, or another.
    fn acts(self, own: bool, held: Held) -> Option<Held>
        ensures { some_held result ≡ acts self.stores self.act own self.goes self.due (held_is held) }
    {
        acts(self.stores, self.act, own, self.goes, self.due, held)
    }

    /// The set with what it leaves of the copy.
    pub(crate) fn leads(self, held: Held, left: Copies) -> Copies
        ensures { (h : HeldOf) → members result h ≡ (members left h || sends_by self (held_is held) h) }
    {
        let fits = self.fits(held);
        if !fits.shown {
            return left;
        }
        let own = with_left(left, fits.own, self.acts(true, held));
        if fits.other {
            with_left(own, true, self.acts(false, held))
        } else {
            own
        }
    }
}
