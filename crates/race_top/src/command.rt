//! What the words of the command line ask for.

ghost use Rattle.std.specs.Prelude.{◌≡◌, option_map};
ghost use Rattle.race_top.specs.Command.{case_name, command_of, module_name, task_of};

use rc_base::Words;

/// A command with the names of its files.
#[derive(Clone, Copy, Debug, PartialEq, Eq)]
pub enum Command<'w> {
    /// Replays the recorded run.
    Replay { module: &'w str, case: &'w str },
    /// Classifies the races of the recorded run.
    Classify { module: &'w str, case: &'w str },
}

impl<'w> Command<'w> {
    /// The command that the words spell, which are those after the program's name.
    pub fn from_words(words: &'w Words) -> Option<Command<'w>>
        ensures { option_map task_of result ≡ command_of words.now }
    {
        if words.count() == 3 && words.word(0) == "replay" {
            return Some(Command::Replay {
                module: words.word(1),
                case: words.word(2),
            });
        }
        // Not served yet: more than one worker.
        if words.count() == 5 && words.word(0) == "classify" && words.word(4) == "1" {
            return Some(Command::Classify {
                module: words.word(1),
                case: words.word(2),
            });
        }
        None
    }

    /// The name of the module's file.
    pub fn module(self) -> &'w str
        ensures { result.now ≡ module_name (task_of self.entry) }
    {
        match self {
            Command::Replay { module, .. } | Command::Classify { module, .. } => module,
        }
    }

    /// The name of the case's file.
    pub fn case(self) -> &'w str
        ensures { result.now ≡ case_name (task_of self.entry) }
    {
        match self {
            Command::Replay { case, .. } | Command::Classify { case, .. } => case,
        }
    }
}
