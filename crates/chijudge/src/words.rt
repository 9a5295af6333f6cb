//! The words on the command line.

use chi_log::{Listing, Opcodes, Options};
use chi_observer::Stores;
use chi_transactions::CreditTypes;
use chi_watch::{Settings, Start};

/// What is asked for.
#[derive(Clone, Copy)]
pub(crate) struct Asked<'a> {
    pub path: &'a str,
    pub settings: Settings,
    pub reading: Options,
}

/// A trace from its beginning, which may lack stores.
const SETTINGS: Settings = Settings {
    types: CreditTypes::Any,
    early_grants: false,
    stores: Stores::Hidden,
    start: Start::Empty,
};

/// What the words ask for; `None` where they are none of the program's.
pub(crate) fn asked_in(texts: &[String]) -> Option<Asked<'_>> {
    let mut asked = Asked {
        path: "",
        settings: SETTINGS,
        reading: Options::USUAL,
    };
    let mut words = texts.iter();
    while let Some(text) = words.next() {
        let word = text.as_str();
        if word == "--early-grants" {
            asked.settings.early_grants = true;
        } else if word.starts_with("--") {
            put(&mut asked, word, words.next()?.as_str())?;
        } else {
            asked.path = word;
        }
    }
    if asked.path.is_empty() {
        None
    } else {
        Some(asked)
    }
}

/// Puts the value of an option; `None` where it is none.
fn put(asked: &mut Asked<'_>, option: &str, value: &str) -> Option<()> {
    if option == "--types" {
        asked.settings.types = types_of(value)?;
    } else if option == "--stores" {
        asked.settings.stores = stores_of(value)?;
    } else if option == "--start" {
        asked.settings.start = start_of(value)?;
    } else if option == "--data" {
        asked.reading.listing = listing_of(value)?;
    } else if option == "--opcodes" {
        asked.reading.opcodes = opcodes_of(value)?;
    } else {
        return None;
    }
    Some(())
}

/// The types of credit that the word names.
fn types_of(value: &str) -> Option<CreditTypes> {
    if value == "any" {
        Some(CreditTypes::Any)
    } else if value == "two" {
        Some(CreditTypes::Two)
    } else if value == "four" {
        Some(CreditTypes::Four)
    } else {
        None
    }
}

/// Whether stores are listed, by the word.
fn stores_of(value: &str) -> Option<Stores> {
    if value == "hidden" {
        Some(Stores::Hidden)
    } else if value == "listed" {
        Some(Stores::Listed)
    } else {
        None
    }
}

/// What was before a trace, by the word.
fn start_of(value: &str) -> Option<Start> {
    if value == "empty" {
        Some(Start::Empty)
    } else if value == "unknown" {
        Some(Start::Unknown)
    } else {
        None
    }
}

/// Whether data are listed, by the word.
fn listing_of(value: &str) -> Option<Listing> {
    if value == "listed" {
        Some(Listing::Listed)
    } else if value == "none" {
        Some(Listing::None)
    } else {
        None
    }
}

/// Which opcodes a trace may have, by the word.
fn opcodes_of(value: &str) -> Option<Opcodes> {
    if value == "issue-b" {
        Some(Opcodes::IssueB)
    } else if value == "any" {
        Some(Opcodes::Any)
    } else {
        None
    }
}
