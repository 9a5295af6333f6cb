//! The sizes of a chart.

ghost use Rattle.std.specs.Prelude.{◌<◌};

/// The sizes that a chart is laid out by: how many agents, lines and slices there are. All places are in
/// pixels from its left edge.
/// Source: `docs/FORMATS.md`, "Charts".
#[derive(Clone, Copy)]
pub(crate) struct Layout {
    pub(crate) agents: u8,
    pub(crate) lines: u8,
    pub(crate) slices: u8,
    pub(crate) ghost some_lines: { 0 < lines },
    pub(crate) ghost some_slices: { 0 < slices },
}
