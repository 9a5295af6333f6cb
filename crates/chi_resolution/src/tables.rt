//! What is open where a flit is taken, and what the flit does to it.

ghost use Rattle.std.specs.Prelude.{◌≡◌, length};
ghost use Rattle.chi_resolution.specs.Ids.{plain_id};
ghost use Rattle.chi_resolution.specs.Tables.{booking_of, freed, named, new_id, plain_flit, sent, table_of};

use crate::beats::{OpenData, find_data};
use crate::ids::{KeyTable, OpenId, OpenKey, find_id, plain_id};
use crate::ledger::{Booking, CreditEvent, CreditLedger, find_account};
use crate::lines::{CacheLine, Resolved, line_of};
use crate::nodes::Ends;
use crate::reasons::IdReason;
use crate::resolution::Options;
use chi_explain::{Observed, SentFlit};
use chi_flit::Msg;
use chi_trace::{Address, NodeId, PcrdType};
use std::alloc::Allocator;

/// What a flit does to what is open.
#[derive(Clone, Copy)]
pub(crate) enum Change {
    /// It is of a line.
    Flit(LineFlit),
    /// It grants or returns a credit.
    Credit(Booking),
    /// It is a further beat of data.
    Beat(Further),
}

/// What a flit of a line does that isn't a further beat.
#[derive(Clone, Copy)]
pub(crate) struct LineFlit {
    pub line: CacheLine,
    pub flit: Observed,
    /// The key of the id that it frees.
    pub frees: Option<OpenKey>,
    /// The key of the retried copy-back that it shows to be cancelled.
    pub cancels: Option<OpenKey>,
    pub opens: Option<OpenId>,
    pub books: Option<Booking>,
    /// Its data, where words lack.
    pub begins: Option<OpenData>,
    /// A load or a store that waits for a CompAck of its requester.
    pub waits: bool,
}

/// What a further beat does.
#[derive(Clone, Copy)]
pub(crate) struct Further {
    /// The data with the words of the beat.
    pub joined: OpenData,
    pub flit: Observed,
    /// The key of the id that the data frees, where no word lacks any more.
    pub frees: Option<OpenKey>,
}

/// What is open, and the flits that are resolved.
#[derive(Drop)]
pub(crate) struct Tables<'a, A: Allocator> {
    pub options: Options,
    pub ids: &'a KeyTable<OpenId, A>,
    pub unfinished: &'a KeyTable<OpenData, A>,
    pub accounts: &'a [CreditLedger],
    pub flits: &'a [Resolved],
    pub waiting: &'a [Resolved],
}

/// A flit that neither frees, opens nor books.
pub(crate) fn plain_flit(line: CacheLine, flit: Observed) -> LineFlit
    ensures { result ≡ plain_flit line flit }
{
    LineFlit {
        line,
        flit,
        frees: None,
        cancels: None,
        opens: None,
        books: None,
        begins: None,
        waits: false,
    }
}

/// A flit between the home and the agent.
pub(crate) fn sent(ends: &Ends, message: Msg) -> Observed
    ensures { result ≡ sent ends.now message }
{
    Observed::Flit(SentFlit {
        agent: ends.agent,
        message,
    })
}

impl<A: Allocator> Tables<'_, A> {
    /// An id that is opened behind the flits that are resolved.
    pub(crate) fn plain_id(&self, key: OpenKey, line: CacheLine) -> OpenId
        ensures { result ≡ plain_id key line (length self.now.flits.now) }
    {
        plain_id(key, line, self.flits.len())
    }

    /// The key, which no open id has.
    pub(crate) fn new_id(&self, key: OpenKey) -> Result<OpenKey, IdReason>
        ensures { result ≡ new_id (table_of self.now) key }
    {
        match find_id(self.ids, key) {
            Some(_) => Err(IdReason::InUse(key)),
            None => Ok(key),
        }
    }

    /// The open id that a flit names, whose line the flit's address is in, if it has one.
    pub(crate) fn named(&self, key: OpenKey, address: Option<Address>) -> Result<OpenId, IdReason>
        ensures { result ≡ named (table_of self.now) key address }
    {
        let found = find_id(self.ids, key).ok_or(IdReason::NotOpen(key))?;
        match address {
            Some(named) if line_of(named).0 != found.line.0 => Err(IdReason::WrongAddress {
                named,
                line: found.line,
            }),
            Some(_) | None => Ok(found),
        }
    }

    /// The open id that a flit without data frees.
    pub(crate) fn freed(&self, key: OpenKey, address: Option<Address>) -> Result<OpenId, IdReason>
        ensures { result ≡ freed (table_of self.now) key address }
    {
        let found = self.named(key, address)?;
        match find_data(self.unfinished, key) {
            Some(_) => Err(IdReason::Unfinished(key)),
            None => Ok(found),
        }
    }

    /// One more in the account of the node and the type.
    pub(crate) fn booking(&self, node: NodeId, pcrd: PcrdType, event: CreditEvent) -> Booking
        ensures { result ≡ booking_of (table_of self.now) node pcrd event }
    {
        Booking {
            held: find_account(self.accounts, node, pcrd),
            event,
        }
    }
}
