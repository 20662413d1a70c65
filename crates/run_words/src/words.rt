ghost use Rattle.std.specs.Prelude.{◌≡◌, ◌↔◌, ◌≤◌, ◌<◌, [], ◌∷◌, length, None, IsErrOf, IfOk, IfSome, IfNone, map, option_map, string_bytes};
ghost use Rattle.run_words.specs.RunOptions.{options_by};
ghost use Rattle.run_words.specs.declared.words.WordsFault.TheVariants.{NoMemory};
ghost use Rattle.run_words.specs.Words.{command_of, lone_command, options_for, IsPlanned, planned, plan_of_words};

use crate::options::{NO_OPTIONS, RunOptions, conditions_in, is_plain, read_options};
use std::alloc::{AllocError, Global};

/// What the program is asked to do.
#[derive(Clone, Copy, Debug, PartialEq, Eq, Drop)]
pub enum Command {
    /// Runs preflow-push on the network of a file.
    Flow,
    /// Clusters the points of a file.
    Cluster,
    /// Tells the classes of a table's rows.
    Classify,
    /// Tells how the program is called.
    Help,
    /// Tells the program's name and version.
    Version,
}

/// The words of a command line, understood.
#[derive(Debug, Drop)]
pub struct Plan {
    command: Command,
    file: Option<String>,
    conditions: Option<String>,
    options: RunOptions,
}

/// Why words are refused.
#[derive(Clone, Copy, Debug, PartialEq, Eq, Drop)]
pub enum WordsFault {
    Usage,
    NoMemory,
}

impl From<AllocError> for WordsFault {
    ghost from_gives = { λ _ e. e ≡ NoMemory };

    fn from(_refused: AllocError) -> WordsFault {
        WordsFault::NoMemory
    }
}

fn command_named(word: &str) -> Option<Command>
    ensures { result ≡ command_of word.now }
{
    match word {
        "flow" => Some(Command::Flow),
        "cluster" => Some(Command::Cluster),
        "classify" => Some(Command::Classify),
        _ => None,
    }
}

/// The command of a word that stands alone.
fn lone_command(word: &str) -> Option<Command>
    ensures { result ≡ lone_command word.now }
{
    match word {
        "--help" => Some(Command::Help),
        "--version" => Some(Command::Version),
        _ => None,
    }
}

/// The options that words are for a command. One that runs nothing has none.
fn options_for(command: Command, words: &[String]) -> Option<RunOptions>
    ensures options { result ≡ options_for command (map string_bytes words.now) }
    ensures workers { IfSome result (λ options. 1 ≤ options.workers) }
{
    match command {
        Command::Flow | Command::Cluster => read_options(words),
        Command::Classify | Command::Help | Command::Version => no_options(words),
    }
}

fn no_options(words: &[String]) -> Option<RunOptions>
    ensures some { IfSome result (λ options. (length words.now ≡ 0) × (options ≡ options_by [])) }
    ensures none { IfNone result (0 < length words.now) }
{
    if words.is_empty() {
        Some(NO_OPTIONS)
    } else {
        None
    }
}

/// Reads the words after the program's own name.
pub fn read_words(alloc: Global, words: &[String]) -> Result<Plan, WordsFault>
    ensures planned { IfOk result (IsPlanned (plan_of_words (map string_bytes words.now))) }
    ensures workers { IfOk result (λ plan. 1 ≤ (planned plan).options.workers) }
    ensures usage { IsErrOf result WordsFault.Usage ↔ (plan_of_words (map string_bytes words.now) ≡ None) }
{
    let Some((word, words)) = words.split_first() else {
        return Err(WordsFault::Usage);
    };
    match words.split_first() {
        Some((file, options)) => plan_on_file(alloc, word.as_str(), file.as_str(), options),
        None => plan_alone(word.as_str()),
    }
}

/// Reads a word that stands alone.
fn plan_alone(word: &str) -> Result<Plan, WordsFault>
    ensures planned { IfOk result (IsPlanned (plan_of_words (word.now ∷ []))) }
    ensures workers { IfOk result (λ plan. 1 ≤ (planned plan).options.workers) }
    ensures usage { IsErrOf result WordsFault.Usage ↔ (plan_of_words (word.now ∷ []) ≡ None) }
{
    match lone_command(word) {
        Some(command) => Ok(Plan {
            command,
            file: None,
            conditions: None,
            options: NO_OPTIONS,
        }),
        None => Err(WordsFault::Usage),
    }
}

/// The text of a word, where there is one.
fn owned(alloc: Global, word: Option<&str>) -> Result<Option<String>, AllocError>
    ensures { IfOk result (λ text. option_map string_bytes text ≡ option_map (λ word. word.now) word.entry) }
{
    match word {
        Some(word) => Ok(Some(String::from_str(alloc, word)?)),
        None => Ok(None),
    }
}

/// Reads a command, the name of a file, and options.
fn plan_on_file(alloc: Global, word: &str, file: &str, words: &[String]) -> Result<Plan, WordsFault>
    ensures planned { IfOk result (IsPlanned (plan_of_words (word.now ∷ file.now ∷ map string_bytes words.now))) }
    ensures workers { IfOk result (λ plan. 1 ≤ (planned plan).options.workers) }
    ensures usage { IsErrOf result WordsFault.Usage ↔ (plan_of_words (word.now ∷ file.now ∷ map string_bytes words.now) ≡ None) }
{
    let Some(command) = command_named(word) else {
        return Err(WordsFault::Usage);
    };
    if !is_plain(file) {
        return Err(WordsFault::Usage);
    }
    let Some(options) = options_for(command, words) else {
        return Err(WordsFault::Usage);
    };
    let file = String::from_str(alloc, file)?;
    let conditions = owned(alloc, conditions_in(words))?;
    Ok(Plan {
        command,
        file: Some(file),
        conditions,
        options,
    })
}

impl Plan {
    ghost use Rattle.std.specs.Prelude.{option_map};
    ghost use Rattle.run_words.specs.Words.{Planned, planned};

    pub fn command(&self) -> Command
        ensures { result ≡ (planned self.now).command }
    {
        self.command
    }

    /// How the command runs its bodies.
    pub fn options(&self) -> RunOptions
        ensures { result ≡ (planned self.now).options }
    {
        self.options
    }

    /// The name of the command's main file, where it reads one.
    pub fn file(&self) -> Option<&str>
        ensures { option_map (λ name. name.now) result ≡ (planned self.now).main }
    {
        match &self.file {
            Some(name) => Some(name.as_str()),
            None => None,
        }
    }

    /// The name of the file of conditions, where the words give one.
    pub fn conditions(&self) -> Option<&str>
        ensures { option_map (λ name. name.now) result ≡ (planned self.now).conditions }
    {
        match &self.conditions {
            Some(name) => Some(name.as_str()),
            None => None,
        }
    }
}
