//! What is written as bytes: numbers, marks, what may be missing, and lists.

ghost use Rattle.std.specs.Prelude.{◌≡◌, ◌<◌, ◌++◌, ℕ, List, OnOk, length};
ghost use Rattle.std.specs.List.{flat_map};
ghost use Rattle.chi_snapshot.specs.Bytes.{eight_bytes, four_bytes, list_bytes, long_list_bytes, mark_bytes, one_byte, option_bytes, two_bytes};

use chi_flit::{Agent, Line, NoMemory, Slot, WordNo};
use std::alloc::Allocator;

/// A value that is written as bytes.
pub(crate) trait Written {
    // The bytes of a value.
    ghost bytes: { Self → List ℕ };

    /// Writes the value behind what was written. Refused where memory runs out.
    fn write<A: Allocator>(&self, out: &mut Vec<u8, A>) -> Result<(), NoMemory>
        ensures { OnOk result (out.new.items ≡ out.old.items ++ bytes self.now) };
}

impl Written for u8 {
    ghost bytes = { one_byte };

    fn write<A: Allocator>(&self, out: &mut Vec<u8, A>) -> Result<(), NoMemory> {
        out.push(*self)?;
        Ok(())
    }
}

impl Written for u16 {
    ghost bytes = { two_bytes };

    fn write<A: Allocator>(&self, out: &mut Vec<u8, A>) -> Result<(), NoMemory> {
        let number = *self;
        out.push((number % 256) as u8)?;
        out.push((number / 256) as u8)?;
        Ok(())
    }
}

impl Written for u32 {
    ghost bytes = { four_bytes };

    #[tactic(auto, unfolding(crate::specs::Bytes::four_bytes))]
    fn write<A: Allocator>(&self, out: &mut Vec<u8, A>) -> Result<(), NoMemory> {
        let number = *self;
        let low = (number % 65536) as u16;
        let high = (number / 65536) as u16;
        low.write(out)?;
        high.write(out)
    }
}

impl Written for u64 {
    ghost bytes = { eight_bytes };

    #[tactic(auto, unfolding(crate::specs::Bytes::eight_bytes))]
    fn write<A: Allocator>(&self, out: &mut Vec<u8, A>) -> Result<(), NoMemory> {
        let number = *self;
        let low = (number % 4294967296) as u32;
        let high = (number / 4294967296) as u32;
        low.write(out)?;
        high.write(out)
    }
}

impl Written for bool {
    ghost bytes = { mark_bytes };

    fn write<A: Allocator>(&self, out: &mut Vec<u8, A>) -> Result<(), NoMemory> {
        if *self {
            1u8.write(out)
        } else {
            0u8.write(out)
        }
    }
}

impl<T: Written> Written for Option<T> {
    ghost bytes = { option_bytes T.bytes };

    fn write<A: Allocator>(&self, out: &mut Vec<u8, A>) -> Result<(), NoMemory> {
        match self {
            Some(value) => {
                1u8.write(out)?;
                value.write(out)
            }
            None => 0u8.write(out),
        }
    }
}

impl Written for Agent {
    ghost use Rattle.chi_flit.specs.declared.numbers.Agent.{Agent};

    ghost bytes = { λ (agent : Agent). one_byte agent.0 };

    fn write<A: Allocator>(&self, out: &mut Vec<u8, A>) -> Result<(), NoMemory> {
        self.0.write(out)
    }
}

impl Written for Slot {
    ghost use Rattle.chi_flit.specs.declared.numbers.Slot.{Slot};

    ghost bytes = { λ (slot : Slot). one_byte slot.0 };

    fn write<A: Allocator>(&self, out: &mut Vec<u8, A>) -> Result<(), NoMemory> {
        self.0.write(out)
    }
}

/// Writes values one after the other.
fn write_each<T: Written, A: Allocator>(values: &[T], out: &mut Vec<u8, A>) -> Result<(), NoMemory>
    ensures { OnOk result (out.new.items ≡ out.old.items ++ flat_map T.bytes values.now) }
{
    for value in values {
        value.write(out)?;
    }
    Ok(())
}

/// Writes a short list.
pub(crate) fn write_list<T: Written, A: Allocator>(
    values: &[T],
    out: &mut Vec<u8, A>,
) -> Result<(), NoMemory>
    requires { length values.now < 256 }
    ensures { OnOk result (out.new.items ≡ out.old.items ++ list_bytes T.bytes values.now) }
{
    let count = values.len() as u8;
    count.write(out)?;
    write_each(values, out)
}

/// Writes a list of any length.
pub(crate) fn write_long_list<T: Written, A: Allocator>(
    values: &[T],
    out: &mut Vec<u8, A>,
) -> Result<(), NoMemory>
    ensures { OnOk result (out.new.items ≡ out.old.items ++ long_list_bytes T.bytes values.now) }
{
    let count = values.len() as u64;
    count.write(out)?;
    write_each(values, out)
}
