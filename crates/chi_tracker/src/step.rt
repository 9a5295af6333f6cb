//! What the atomic steps of a port are.

/// The atomic steps of a port, each with what it is for; there are no others. A look at a word of owed credits
/// has two readings, and so has the spending of a seen credit. Place p of type t is 8 t + p.
/// Source: `docs/PROTOCOL.md`, "Steps of the tracker".
#[derive(Clone, Copy, Debug, PartialEq, Eq)]
pub enum AtomicStep {
    /// Claims, in a scan of a type, an entry.
    Claim(usize, usize),
    /// Frees an entry in hand.
    Free(usize),
    /// Notes the lowest clear place of a type in the port's own word of owed credits.
    Note(usize),
    /// Sets the noted place: one more credit is owed.
    Owe(usize),
    /// Looks, in a sweep of a type, at what is owed to a requester.
    Look(usize, usize),
    /// Settles, for an entry in hand, at a requester a place.
    Settle(usize, usize, usize),
    /// Promises an entry in hand to a requester.
    Promise(usize, usize),
    /// Looks at one of the four words of what is promised to the port.
    See(usize),
    /// Takes to hand, of a type, a seen entry: its credit is spent.
    Spend(usize, usize),
    /// Takes to hand, of a type, a seen entry: its credit is returned.
    Return(usize, usize),
}
