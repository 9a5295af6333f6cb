//! A law of the answers: each is a line of the text that a replay prints.

ghost use Rattle.std.specs.Prelude.{List};
ghost use Rattle.chi_script.specs.declared.commands.Command.{Command};
ghost use Rattle.chi_replay.specs.Turns.{TurnAnswer, Machine};
ghost use Rattle.chi_replay.specs.Answers.{AreLines, AreOneEach};

/// The answers of commands are the lines of their text, in order: each is one line, whatever it says.
/// Source: `docs/FORMATS.md`, "Replay files".
pub fn answers_are_lines()
    ensures lines { (m : Machine) (commands : List Command) (tracked : List TurnAnswer)
        → AreLines m commands tracked }
    ensures one_each { (m : Machine) (commands : List Command) (tracked : List TurnAnswer)
        → AreOneEach m commands tracked }
{}
