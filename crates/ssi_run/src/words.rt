//! The words of the command line.

ghost use Rattle.std.specs.Prelude.{◌≡◌};
ghost use Rattle.ssi_run.specs.Words.{command_of, texts};

/// What the words ask for.
#[derive(Clone, Copy, Debug, PartialEq, Eq)]
pub enum Command {
    /// `run`: a data part and a script are read, and the trace is written.
    Run,
}

/// The command that the words ask for; none where they have no known shape.
pub fn read_words(words: &[String]) -> Option<Command>
    ensures { result ≡ command_of (texts words.now) }
{
    match words {
        [word] if word.as_str() == "run" => Some(Command::Run),
        _ => None,
    }
}
