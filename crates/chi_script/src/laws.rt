//! Laws of the grammars: what is read is what is written, in the words of the page on each kind of file.

ghost use Rattle.std.specs.Prelude.{◌≡◌, ℕ, ◌+◌, List, take, true};
ghost use Rattle.chi_flit.specs.Config.{Sizes};
ghost use Rattle.chi_script.specs.declared.commands.Command.{Command};
ghost use Rattle.chi_script.specs.Words.{number_of};
ghost use Rattle.chi_script.specs.Headers.{is_in_limits, line_header};
ghost use Rattle.chi_script.specs.Commands.{line_command};
ghost use Rattle.chi_script.specs.Files.{file_of};
ghost use Rattle.chi_script.specs.Spelling.{FilesAll, FilesOnly, IsNumber, IsLine, IsHeaderLine, IsOfFile, IsReadAgain, ReadsAll, ReadsOnly};
ghost use Rattle.chi_script.specs.Checks.{check_of};
ghost use Rattle.chi_script.specs.CheckFiles.{check_file_of, most_check_bytes};
ghost use Rattle.chi_script.specs.CheckSpelling.{IsCheckFile, IsCheckLine, IsReplayed};
ghost use Rattle.chi_script.specs.Operations.{line_operation};
ghost use Rattle.chi_script.specs.StormSpelling.{IsOperationLine, IsStormFile};
ghost use Rattle.chi_script.specs.Storms.{storm_of};

/// A word is read as a number exactly where it is that number in decimal, below 2 ^ 64.
/// Source: `docs/FORMATS.md`, "Replay files".
pub fn numbers_are_decimal()
    ensures read { ReadsOnly number_of IsNumber }
    ensures again { ReadsAll number_of IsNumber }
{}

/// A line is read as a command exactly where it is a spelling of it, with one space between two words.
/// Source: `docs/FORMATS.md`, "Replay files".
pub fn commands_are_lines()
    ensures read { ReadsOnly line_command IsLine }
    ensures again { ReadsAll line_command IsLine }
{}

/// A command that a file may have is printed as one of its lines, and is read as itself again.
/// Source: `docs/FORMATS.md`, "Replay files".
pub fn printed_commands_are_read()
    ensures { (command : Command) → IsOfFile command → IsReadAgain command }
{}

/// A line is read as a header exactly where it is the one spelling of it and the header is within the
/// limits, with one space between two words.
/// Source: `docs/FORMATS.md`, "Replay files", and `docs/PROTOCOL.md`, "Limits".
pub fn headers_are_lines()
    ensures read { ReadsOnly line_header IsHeaderLine }
    ensures again { ReadsAll line_header IsHeaderLine }
{}

/// One byte more than a file may have is enough of it: the rest changes nothing.
/// Source: `docs/FORMATS.md`, "Replay files".
pub fn replay_front_is_enough()
    ensures { (file : List ℕ) → file_of (take 1048577 file) ≡ file_of file }
{}

/// A line is read as a check exactly where it is a spelling of its command, with an arrow and the wanted
/// answer behind it where one is wanted.
/// Source: `docs/FORMATS.md`, "Check files".
pub fn checks_are_lines()
    ensures read { (n : ℕ) → ReadsOnly (check_of n) (IsCheckLine n) }
    ensures again { (n : ℕ) → ReadsAll (check_of n) (IsCheckLine n) }
{}

/// A file is read as a header and checks exactly where it is lines, each with a line end behind it, that are
/// comments, the header and the checks in their order, the header within the limits and before all checks,
/// and has no more bytes than a check file may have.
/// Source: `docs/FORMATS.md`, "Check files", and `docs/PROTOCOL.md`, "Limits".
pub fn check_files_are_lines()
    ensures read { FilesOnly check_file_of (λ script. IsCheckFile script.0 script.1) }
    ensures again { FilesAll check_file_of (λ script. IsCheckFile script.0 script.1) }
{}

/// A replay file is a check file with the same header and commands, in which no answer is wanted.
/// Source: `docs/FORMATS.md`, "Check files".
pub fn replays_are_check_files()
    ensures { FilesOnly file_of (λ script file. IsReplayed script.0 script.1 (check_file_of file)) }
{}

/// One byte more than a check file may have is enough of it: the rest changes nothing.
/// Source: `docs/FORMATS.md`, "Check files".
pub fn check_front_is_enough()
    ensures { (file : List ℕ) → check_file_of (take (1 + most_check_bytes) file)
        ≡ check_file_of file }
{}

/// A line is read as an operation exactly where it is the one spelling of it, with one space between two
/// words, and its numbers are within the ranges of a header.
/// Source: `docs/FORMATS.md`, "Storm files".
pub fn operations_are_lines()
    ensures read { (header : Sizes) → ReadsOnly (line_operation header) (IsOperationLine header) }
    ensures again { (header : Sizes) → is_in_limits header ≡ true
        → ReadsAll (line_operation header) (IsOperationLine header) }
{}

/// A file is read as a header and operations exactly where it is the one text of them: a line each, with a
/// line end behind it, the header within the limits, each operation within the header's ranges, and no
/// more bytes than a file may have.
/// Source: `docs/FORMATS.md`, "Storm files", and `docs/PROTOCOL.md`, "Limits".
pub fn storms_are_files()
    ensures read { FilesOnly storm_of (λ storm. IsStormFile storm.0 storm.1) }
    ensures again { FilesAll storm_of (λ storm. IsStormFile storm.0 storm.1) }
{}

/// One byte more than a file may have is enough of it: the rest changes nothing.
/// Source: `docs/FORMATS.md`, "Storm files".
pub fn storm_front_is_enough()
    ensures { (file : List ℕ) → storm_of (take 1048577 file) ≡ storm_of file }
{}
