//! Laws of the grammar of a line.

ghost use Rattle.std.specs.Prelude.{◌≡◌, None, Some};
ghost use Rattle.std.specs.List.{find};
ghost use Rattle.chi_log.specs.Lines.{is_wrong};
ghost use Rattle.chi_log.specs.Seen.{Read as ReadOf, read_of};
ghost use Rattle.chi_log.specs.declared.lines.TheConstants.{COLUMNS};
ghost use Rattle.chi_log.specs.declared.options.Options.{Options as OptionsOf};
ghost use Rattle.chi_log.specs.declared.rows.Row.{Row as RowOf};

/// No column is wrong of a line that is read: so a column that is told is told of no right line.
/// Source: `docs/TRACES.md`, "Traces".
pub fn right_lines_have_no_wrong_column()
    ensures { (options : OptionsOf) → (row : RowOf) → (read : ReadOf)
        → read_of options row ≡ Some read → find (is_wrong options row) COLUMNS ≡ None }
{}
