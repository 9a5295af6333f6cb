//! Laws of numbers.

ghost use Rattle.chi_lanes.specs.Limits.{SixteenAreWithin, WithinIsUpTo};

/// The law that a number read with a limit, digit by digit, is the whole number where that is within it; and that
/// sixteen digits are within 64 bits. So a number of up to sixteen digits is what `digits_from` of chi_trace gives.
/// Source: `docs/TRACES.md`, "Traces".
pub fn limits()
    ensures whole { WithinIsUpTo }
    ensures sixteen { SixteenAreWithin }
{}
