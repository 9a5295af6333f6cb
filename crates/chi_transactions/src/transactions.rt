//! The ids and credits of a trace, flit by flit.

ghost use Rattle.std.specs.Prelude.{◌≡◌};
ghost use Rattle.chi_transactions.specs.declared.entries.Stop.TheVariants.{NoMemory};
ghost use Rattle.chi_transactions.specs.State.{state_of};
ghost use Rattle.chi_transactions.specs.Steps.{IsTaken, nothing_kept};

use crate::entries::{Begun, Credits, OpenId, Options, Stop, Taken};
use crate::flits::role;
use crate::maps::{Table, WaitingTable, new_table, new_waiting};
use chi_issue_b::{Flit, Role};
use std::alloc::{AllocError, Allocator};

/// What is outstanding behind the flits of a trace so far.
/// Source: `docs/TRANSACTIONS.md`, "The rule".
#[derive(Drop)]
pub struct Transactions<A: Allocator> {
    pub(crate) options: Options,
    pub(crate) ids: Table<OpenId, A>,
    pub(crate) waiting: WaitingTable<A>,
    pub(crate) credits: Table<Credits, A>,
    pub(crate) begun: Table<Begun, A>,
    pub(crate) attempts: Table<u64, A>,
}

impl From<AllocError> for Stop {
    ghost from_gives = { λ _ stop. stop ≡ NoMemory };

    fn from(_lack: AllocError) -> Stop {
        Stop::NoMemory
    }
}

impl<A: Allocator + Copy> Transactions<A> {
    /// Behind no flits: no id is open, and no credit is there.
    /// Source: `docs/TRANSACTIONS.md`, "The rule".
    pub fn new(alloc: A, options: Options) -> Transactions<A>
        ensures { state_of result ≡ nothing_kept options }
    {
        Transactions {
            options,
            ids: new_table(alloc),
            waiting: new_waiting(alloc),
            credits: new_table(alloc),
            begun: new_table(alloc),
            attempts: new_table(alloc),
        }
    }
}

impl<A: Allocator> Transactions<A> {
    /// Takes the next flit of a trace, which has this number, counted from 1, and of its data the words of this mask: bit n of
    /// word n. `Ok` exactly where ids and credits allow it; it tells then what the flit is of. Else it is the first reason, and
    /// nothing changes.
    /// Source: `docs/TRANSACTIONS.md`, "The rule".
    pub fn take(&mut self, flit: &Flit, there: u8, number: u64) -> Result<Taken, Stop>
        ensures { IsTaken (state_of self.old) (state_of self.new) flit.now there number result }
    {
        match role(flit) {
            Role::Request => self.take_request(flit, number),
            Role::CreditReturn => self.take_return(flit),
            Role::Snoop => self.take_snoop(flit, number),
            Role::Retry => self.take_retry(flit, number),
            Role::CreditGrant => self.take_grant(flit),
            Role::NoTransaction => Ok(Taken::Nothing),
            Role::Completion
            | Role::BufferGrant
            | Role::Receipt
            | Role::Answer
            | Role::Acknowledgement
            | Role::WriteData
            | Role::WriteCancel => self.take_named(flit, there, number),
        }
    }
}
