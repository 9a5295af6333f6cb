//! Laws of the grammar: what is read is what is written, in the words of the page on traces.

ghost use Rattle.std.specs.Prelude.{◌≡◌, ℕ, List, Ok, Some};
ghost use Rattle.chi_trace.specs.Files.{trace_of};
ghost use Rattle.chi_trace.specs.Flits.{flit_at};
ghost use Rattle.chi_trace.specs.Numbers.{hex_of};
ghost use Rattle.chi_trace.specs.Spelling.{IsFlitLine, IsHex, IsTrace};
ghost use Rattle.chi_trace.specs.Words.{blank_words};
ghost use Rattle.chi_trace.specs.declared.flits.Seen.{Seen};

/// A word is read as a number exactly where it is that number in hexadecimal, within the most that there may be.
/// Source: `docs/TRACES.md`, "Traces".
pub fn numbers_are_hexadecimal()
    ensures read { (most n : ℕ) (word : List ℕ) → hex_of most word ≡ Some n → IsHex most n word }
    ensures again { (most n : ℕ) (word : List ℕ) → IsHex most n word → hex_of most word ≡ Some n }
{}

/// A line is read as a flit exactly where it is a spelling of it.
/// Source: `docs/TRACES.md`, "Traces".
pub fn lines_are_flits()
    ensures read { (n : ℕ) (line : List ℕ) (seen : Seen)
        → flit_at n (blank_words line) ≡ Ok (Some seen) → IsFlitLine n seen line }
    ensures again { (n : ℕ) (line : List ℕ) (seen : Seen)
        → IsFlitLine n seen line → flit_at n (blank_words line) ≡ Ok (Some seen) }
{}

/// A file is read as flits exactly where it is lines, each with a line end behind it, that are comments and
/// these flits in their order, and has no more bytes than a trace may have.
/// Source: `docs/TRACES.md`, "Traces".
pub fn traces_are_lines()
    ensures read { (file : List ℕ) (flits : List Seen) → trace_of file ≡ Ok flits
        → IsTrace flits file }
    ensures again { (file : List ℕ) (flits : List Seen) → IsTrace flits file
        → trace_of file ≡ Ok flits }
{}
