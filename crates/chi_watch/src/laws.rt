//! Laws of the lines.

ghost use Rattle.chi_watch.specs.Logs.{JudgedIsLegal, LegalIsJudged, TailIsJudged, ToldInOrder};

/// The law of a line's flits: whatever comes to a line while there is room, its judge has been told exactly its flits before the first
/// one that lacks words, in the order of their first beats, each once and with all its words; and that one waits with those behind it.
/// Source: `docs/WATCH.md`, "Data in beats".
pub fn told_in_order()
    ensures { ToldInOrder }
{}

/// The law of what a line judges, from a trace's beginning: where each flit that it is told is judged, they are a legal trace; and where
/// they are one, each is judged. So the first fault is the first flit behind which no trace of the line is legal.
/// Source: `docs/COPIES.md`, "What is proved".
pub fn judged_lines()
    ensures legal { JudgedIsLegal }
    ensures judged { LegalIsJudged }
{
    chi_copies::traces();
}

/// The law of what a line judges where its trace begins in the middle: each flit that it is told is judged, if some flits before them make
/// the whole trace legal. So nothing legal is a fault, whatever was before.
/// Source: `docs/COPIES.md`, "A trace that begins in the middle".
pub fn judged_tails()
    ensures { TailIsJudged }
{
    chi_copies::tails();
}
