//! Who is told what a command came to.

ghost use Rattle.std.specs.Prelude.{◌≡◌, [], ◌∷◌, ◌++◌, Ok, OnOk, Result, string_bytes};
ghost use Rattle.chi_flit.specs.declared.refusal.NoMemory.{NoMemory};
ghost use Rattle.chi_node.specs.Home.{HomeState};
ghost use Rattle.chi_replay.specs.declared.replies.Reply.{Reply};
ghost use Rattle.chi_replay.specs.declared.replies.Reply.TheVariants as replies;
ghost use Rattle.chi_replay.specs.Replies.{reply_text};

use crate::credits::SeenCredits;
use crate::prints::Printable;
use crate::replies::{Reply, print_totals};
use crate::totals::NodeTotals;
use chi_flit::NoMemory;
use chi_node::System;
use std::alloc::Allocator;

/// Who is told what a command came to: so what is only printed is printed where it was found, and no value
/// of an answer is moved.
pub(crate) trait Listener {
    ghost hears: { Self → HomeState → Reply → Self → Result (Unit {0}) NoMemory → Type 0 };

    /// Hears the reply of a command that left the system so.
    fn hear<A: Allocator>(&mut self, system: &System<A>, reply: Reply) -> Result<(), NoMemory>
        ensures { hears self.old system.now.home reply self.new result };

    /// Hears the reply of a `see`, which is asked for so often that no reply as large as the largest is made.
    fn hear_credits<A: Allocator>(
        &mut self,
        system: &System<A>,
        credits: SeenCredits,
    ) -> Result<(), NoMemory>
        ensures { hears self.old system.now.home (replies.Credits credits) self.new result };

    /// Hears the reply of a `totals`, whose numbers are the largest part that a reply can have: they are lent.
    fn hear_totals<A: Allocator>(
        &mut self,
        system: &System<A>,
        totals: &NodeTotals,
    ) -> Result<(), NoMemory>
        ensures { hears self.old system.now.home (replies.Totals totals.now) self.new result };
}

/// A text gets each reply's line. Refused where memory for it runs out.
impl<B: Allocator> Listener for String<B> {
    ghost hears = { λ old home reply new result. OnOk result
        (string_bytes new ≡ string_bytes old ++ (reply_text home reply ++ (10 ∷ []))) };

    #[inline(always)]
    fn hear<A: Allocator>(&mut self, system: &System<A>, reply: Reply) -> Result<(), NoMemory> {
        reply.put(system, self)?;
        self.push('\n')?;
        Ok(())
    }

    #[inline(always)]
    fn hear_credits<A: Allocator>(
        &mut self,
        _system: &System<A>,
        credits: SeenCredits,
    ) -> Result<(), NoMemory> {
        credits.print(self)?;
        self.push('\n')?;
        Ok(())
    }

    #[inline(always)]
    fn hear_totals<A: Allocator>(
        &mut self,
        _system: &System<A>,
        totals: &NodeTotals,
    ) -> Result<(), NoMemory> {
        print_totals(totals, self)?;
        self.push('\n')?;
        Ok(())
    }
}

/// The reply that was heard last.
#[derive(Drop)]
pub(crate) struct Heard(pub(crate) Reply);

impl Listener for Heard {
    ghost hears = { λ old home reply new result. (result ≡ Ok tt) × (new.0 ≡ reply) };

    #[inline(always)]
    fn hear<A: Allocator>(&mut self, _system: &System<A>, reply: Reply) -> Result<(), NoMemory> {
        self.0 = reply;
        Ok(())
    }

    #[inline(always)]
    fn hear_credits<A: Allocator>(
        &mut self,
        _system: &System<A>,
        credits: SeenCredits,
    ) -> Result<(), NoMemory> {
        self.0 = Reply::Credits(credits);
        Ok(())
    }

    #[inline(always)]
    fn hear_totals<A: Allocator>(
        &mut self,
        _system: &System<A>,
        totals: &NodeTotals,
    ) -> Result<(), NoMemory> {
        self.0 = Reply::Totals(*totals);
        Ok(())
    }
}
