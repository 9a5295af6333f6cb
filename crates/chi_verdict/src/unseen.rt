//! Words that no beat has had where a trace ends: they are those of a run of the model.
//! They are the search's, which isn't trusted: chi_explain does again what it finds, and compares.

ghost use Rattle.std.specs.Prelude.{◌≡◌, OnOk};
ghost use Rattle.chi_verdict.specs.Unseen.{AreFilled, filled_with, message_with, seen_with, words_with, written_with};

use chi_explain::{Observed, SentFlit, StoreListing};
use chi_flit::{CompData, DatUp, Data, Msg, NoMemory};
use chi_monitor::{PartSeen, words_of_run};
use chi_resolution::{OpenData, Resolved};
use chi_slice::Config;
use chi_trace::Beat;
use std::alloc::{AllocError, Allocator};

/// The words that the beats have had, and these in place of those that lack.
fn words_with(beats: &Beat, others: &Data) -> Data
    ensures { result ≡ words_with beats.now others.now }
{
    [
        beats.word(0).unwrap_or(others[0]),
        beats.word(1).unwrap_or(others[1]),
        beats.word(2).unwrap_or(others[2]),
        beats.word(3).unwrap_or(others[3]),
        beats.word(4).unwrap_or(others[4]),
        beats.word(5).unwrap_or(others[5]),
        beats.word(6).unwrap_or(others[6]),
        beats.word(7).unwrap_or(others[7]),
    ]
}

/// The words that the beats have had, each where it is there.
fn words_of(beats: &Beat) -> [Option<u64>; 8] {
    [
        beats.word(0),
        beats.word(1),
        beats.word(2),
        beats.word(3),
        beats.word(4),
        beats.word(5),
        beats.word(6),
        beats.word(7),
    ]
}

/// Data to the home with these words.
fn written_with(written: &DatUp, words: Data) -> DatUp
    ensures { result ≡ written_with written.now words }
{
    match written {
        DatUp::SnpRespDataIPD(_) => DatUp::SnpRespDataIPD(words),
        DatUp::SnpRespDataSCPD(_) => DatUp::SnpRespDataSCPD(words),
        DatUp::SnpRespDataSD(_) => DatUp::SnpRespDataSD(words),
        DatUp::CopyBackWrData(state, _) => DatUp::CopyBackWrData(*state, words),
    }
}

/// The message with these words, if it has data.
fn message_with(message: &Msg, words: Data) -> Msg
    ensures { result ≡ message_with message.now words }
{
    match message {
        Msg::DatDown(read) => Msg::DatDown(CompData { words, ..*read }),
        Msg::DatUp(written) => Msg::DatUp(written_with(written, words)),
        other => *other,
    }
}

/// What was seen, with these words, if it has data.
fn seen_with(seen: &Observed, words: Data) -> Observed
    ensures { result ≡ seen_with seen.now words }
{
    match seen {
        Observed::Flit(sent) => Observed::Flit(SentFlit {
            agent: sent.agent,
            message: message_with(&sent.message, words),
        }),
        other => *other,
    }
}

/// The words of a run in place of those that lack, in the items of all lines as they were resolved.
///
/// `NoMemory` where memory runs out.
pub(crate) fn fill_data<A: Allocator + Copy>(
    alloc: A,
    config: &Config,
    stores: StoreListing,
    items: &mut Vec<Resolved, A>,
    unfinished: &[OpenData],
) -> Result<(), NoMemory>
    ensures { OnOk result (AreFilled unfinished.now items.old.items items.new.items) }
{
    for begun in unfinished {
        let others = others_of(alloc, config, stores, items, unfinished, begun)?;
        fill_one(items, begun, &others);
    }
    Ok(())
}

/// These words in place of those that the data lacks.
fn fill_one<A: Allocator>(items: &mut Vec<Resolved, A>, begun: &OpenData, others: &Data)
    ensures { items.new.items ≡ filled_with begun.now others.now items.old.items }
{
    if let Some(item) = items.get_mut(begun.place) {
        item.flit = seen_with(&item.flit, words_with(&begun.beat, others));
    }
}

/// What was seen of a line, and what of it lacks words.
#[derive(Drop)]
struct LineParts<A: Allocator> {
    seen: Vec<Observed, A>,
    parts: Vec<PartSeen, A>,
    /// The place of the data that is asked for.
    place: usize,
}

/// The words of the data in a run of the model that sends what was seen of its line.
fn others_of<A: Allocator + Copy>(
    alloc: A,
    config: &Config,
    stores: StoreListing,
    items: &[Resolved],
    unfinished: &[OpenData],
    begun: &OpenData,
) -> Result<Data, NoMemory> {
    let mut line = LineParts {
        seen: Vec::new(alloc),
        parts: Vec::new(alloc),
        place: 0,
    };
    for (at, item) in items.iter().enumerate() {
        if item.line == begun.line {
            line.add(item, unfinished, at, at == begun.place)?;
        }
    }
    words_of_run(alloc, config, stores, &line.seen, &line.parts, line.place)
}

impl<A: Allocator> LineParts<A> {
    /// One more item, which stands at this place among those of all lines.
    fn add(
        &mut self,
        item: &Resolved,
        unfinished: &[OpenData],
        at: usize,
        is_asked: bool,
    ) -> Result<(), AllocError> {
        let place = self.seen.len();
        if is_asked {
            self.place = place;
        }
        if let Some(data) = unfinished.iter().find(|data| data.place == at) {
            let words = words_of(&data.beat);
            self.parts.push(PartSeen { place, words })?;
        }
        self.seen.push(item.flit)?;
        Ok(())
    }
}
