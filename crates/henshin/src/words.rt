//! The words that the program is called with.

ghost use Rattle.std.specs.Prelude.{◌≡◌, IfNone, IfSome, map, string_bytes};
ghost use Rattle.henshin.specs.declared.words.Command.{Command};
ghost use Rattle.henshin.specs.Words.{AreWords, word_of};

/// What the program is asked to do.
#[derive(Clone, Copy, PartialEq, Eq, Debug)]
pub enum Command {
    /// Run the requests of a bundle, and write the report.
    Apply,
    /// Write the problems of a bundle's graph.
    Validate,
    /// Write the canonical text of a bundle's rules.
    Check,
}

/// The command that the words are, if they are one.
pub fn command_of(words: &[String]) -> Option<Command>
    ensures some { IfSome result (AreWords (map string_bytes words.now)) }
    ensures none { IfNone result
        ((command : Command) → ¬ AreWords (map string_bytes words.now) command) }
{
    match words {
        [word] => command_named(word.as_str()),
        _ => None,
    }
}

fn command_named(word: &str) -> Option<Command>
    ensures some { IfSome result (λ command. word.now ≡ word_of command) }
    ensures none { IfNone result ((command : Command) → ¬ (word.now ≡ word_of command)) }
{
    if word == "apply" {
        Some(Command::Apply)
    } else if word == "validate" {
        Some(Command::Validate)
    } else if word == "check" {
        Some(Command::Check)
    } else {
        None
    }
}
