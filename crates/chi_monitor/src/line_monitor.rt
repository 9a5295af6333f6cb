//! A monitor of one line.
//! Whether a flit is taken isn't trusted: what is kept is explained by chi_explain.

ghost use Rattle.std.specs.Prelude.{◌≡◌, IfOk, OnErr, OnOk, nat_lt, true};
ghost use Rattle.chi_monitor.specs.Watched.{IsToldOf, has_no_room, unwatched_line, watched_after};

use crate::explained::explain_flits;
use crate::faults::{LineFault, SeenAt};
use crate::monitor::NotExplained;
use crate::open_flits::OpenFlits;
use crate::search::{LineSearch, take};
use chi_explain::{Observed, SentFlit, StoreListing};
use chi_slice::Config;
use std::alloc::Allocator;
use std::marker::Model;

/// A line as a monitor sees it: the flits that it keeps, what is open, and what they have shown. Contracts see it as
/// a `WatchedLine`.
#[derive(Drop)]
pub(crate) struct LineMonitor<A: Allocator> {
    room: usize,
    flits: Vec<Observed, A>,
    open_flits: [OpenFlits; 8],
    search: LineSearch<A>,
}

impl<A: Allocator> Model for LineMonitor<A> {
    ghost use Rattle.chi_monitor.specs.Watched.{WatchedLine};

    ghost Value = { WatchedLine };

    ghost view = { λ w. record { room = w.room; flits = w.flits.items; open_flits = w.open_flits } };
}

impl<A: Allocator + Copy> LineMonitor<A> {
    /// A line of which nothing was seen, with room for so many flits.
    pub fn new(alloc: A, config: &Config, room: usize) -> Result<LineMonitor<A>, LineFault>
        ensures { IfOk result (λ w. w ≡ unwatched_line room) }
    {
        let search = LineSearch::new(alloc, config, StoreListing::Partial)?;
        let flits = Vec::with_capacity(alloc, room)?;
        Ok(LineMonitor {
            room,
            flits,
            open_flits: [OpenFlits::NONE; 8],
            search,
        })
    }
}

impl<A: Allocator> LineMonitor<A> {
    /// Whether the flits are kept, and there is no room for one more.
    pub fn has_no_room(&self) -> bool
        ensures { result ≡ has_no_room self.now }
    {
        0 < self.room && !(self.flits.len() < self.room)
    }

    /// Takes the next flit, of this number, where a run of the model sends it.
    pub fn take(&mut self, number: u64, flit: &SentFlit) -> Result<(), LineFault>
        ensures taken { OnOk result (self.new ≡ watched_after self.old flit.now) }
        ensures refused { OnErr result (self.new ≡ self.old) }
    {
        let place = usize::from(flit.agent.0);
        if place >= 8 {
            return Err(LineFault::NoAgent);
        }
        self.look(number, flit)?;
        if 0 < self.room {
            self.flits.push(Observed::Flit(*flit))?;
        }
        self.open_flits[place] = self.open_flits[place].behind(&flit.message);
        Ok(())
    }

    /// Whether a run of the model sends the flit next.
    fn look(&mut self, number: u64, flit: &SentFlit) -> Result<(), LineFault>
        ensures { self.new ≡ self.old }
    {
        take(&mut self.search, &Observed::Flit(*flit), SeenAt(number))?;
        self.search.forget()
    }

    /// What is open of each agent.
    pub fn open_flits(&self) -> [OpenFlits; 8]
        ensures { result ≡ self.now.open_flits }
    {
        self.open_flits
    }

    /// Explains the flits that are kept: actions of a node of this size were found, and done, and send just these.
    pub fn explain<B: Allocator + Copy>(
        &self,
        alloc: B,
        config: &Config,
    ) -> Result<(), NotExplained>
        ensures { IsToldOf (nat_lt 0 self.now.room) config.now self.now result }
    {
        if 0 < self.room {
            self.explain_kept(alloc, config)
        } else {
            Err(NotExplained::NotKept)
        }
    }

    /// The same where flits are kept.
    fn explain_kept<B: Allocator + Copy>(
        &self,
        alloc: B,
        config: &Config,
    ) -> Result<(), NotExplained>
        ensures { IsToldOf true config.now self.now result }
    {
        match explain_flits(alloc, config, StoreListing::Partial, &self.flits) {
            Ok(_) => Ok(()),
            Err(cause) => Err(NotExplained::Not(cause)),
        }
    }
}
