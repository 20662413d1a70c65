ghost use Rattle.std.specs.Prelude.{◌≡◌, ◌≤◌, ◌<◌, ◌∷◌, length, true, IfSome, IfNone, codes, map, option_map, string_bytes};
ghost use Rattle.text_lines.specs.Numbers.{number_of};
ghost use Rattle.run_words.specs.RunOptions.{option_value, is_plain, is_between, may_have, are_options, names_two_tables, number_or, table_or, options_by, options_of};

use gx_base::Choice;
use table_choice::choice_named;
use text_lines::number;

/// How a command runs its bodies, and what it tells of that.
#[derive(Clone, Copy, Debug, PartialEq, Eq, Drop)]
pub struct RunOptions {
    /// How many virtual workers there are.
    pub workers: u32,
    /// How many turns are scheduled.
    pub turns: u64,
    /// The seed of the schedule.
    pub seed: u64,
    /// Whether each turn is told.
    pub trace: bool,
    /// Whether each conflict is told.
    pub told: bool,
    /// The shipped table that the objects are under, where the user gives none.
    pub table: Choice,
}

/// Those without any option on the command line.
pub(crate) const NO_OPTIONS: RunOptions = RunOptions {
    workers: 1,
    turns: 0,
    seed: 0,
    trace: false,
    told: false,
    table: Choice::Precise,
};

/// The options that words are: names and values in turn, each name once, and one table at most. None where they aren't.
pub(crate) fn read_options(words: &[String]) -> Option<RunOptions>
    ensures options { result ≡ options_of (map string_bytes words.now) }
    ensures workers { IfSome result (λ options. 1 ≤ options.workers) }
{
    if !are_options(words) || names_two_tables(words) {
        return None;
    }
    Some(options_in(words))
}

/// What options say.
fn options_in(words: &[String]) -> RunOptions
    requires { are_options (map string_bytes words.now) ≡ true }
    ensures options { result ≡ options_by (map string_bytes words.now) }
    ensures workers { 1 ≤ result.workers }
{
    RunOptions {
        workers: workers_in(words),
        turns: number_or(0, option_value(words, "--turns")),
        seed: number_or(0, option_value(words, "--seed")),
        trace: option_value(words, "--trace").is_some(),
        told: option_value(words, "--told").is_some(),
        table: table_or(Choice::Precise, option_value(words, "--table")),
    }
}

/// The name of the file of conditions that options say.
pub(crate) fn conditions_in(words: &[String]) -> Option<&str>
    ensures { option_map (λ name. name.now) result ≡ option_value (map string_bytes words.now) (codes "--conditions") }
{
    option_value(words, "--conditions")
}

/// Whether options name a shipped table, and a file of conditions too.
fn names_two_tables(words: &[String]) -> bool
    ensures { result ≡ names_two_tables (map string_bytes words.now) }
{
    option_value(words, "--table").is_some() && option_value(words, "--conditions").is_some()
}

/// How many virtual workers options say.
#[tactic(auto, using(crate::proofs::run_options::GivenValues::workers_within))]
fn workers_in(words: &[String]) -> u32
    requires { are_options (map string_bytes words.now) ≡ true }
    ensures workers { result ≡ number_or 1 (option_value (map string_bytes words.now) (codes "--virtual")) }
    ensures some { 1 ≤ result }
{
    number_or(1, option_value(words, "--virtual")) as u32
}

/// Whether each name has a value that it may have, and comes once.
fn are_options(words: &[String]) -> bool
    ensures { result ≡ are_options (map string_bytes words.now) }
{
    let mut rest = words;
    'options: while let Some((name, value, more)) = first_pair(rest) {
        if !may_have(name, value) {
            return false;
        }
        if option_value(more, name).is_some() {
            return false;
        }
        rest = more;
    }
    rest.is_empty()
}

/// The value that follows a name, where every other word is a name.
fn option_value<'a>(words: &'a [String], name: &str) -> Option<&'a str>
    ensures { option_map (λ value. value.now) result ≡ option_value (map string_bytes words.now) name.now }
{
    let mut rest = words;
    'names: while let Some((known, value, more)) = first_pair(rest) {
        if known == name {
            return Some(value);
        }
        rest = more;
    }
    None
}

/// The first name with its value, and the words after them.
fn first_pair(words: &[String]) -> Option<(&str, &str, &[String])>
    ensures pair { IfSome result (λ pair. map string_bytes words.now ≡ pair.0.now ∷ pair.1.now ∷ map string_bytes pair.2.now) }
    ensures shorter { IfSome result (λ pair. length pair.2.now < length words.now) }
    ensures none { IfNone result (length words.now ≤ 1) }
{
    let (name, words) = words.split_first()?;
    let (value, words) = words.split_first()?;
    Some((name.as_str(), value.as_str(), words))
}

/// Whether an option of this name may have the value.
fn may_have(name: &str, value: &str) -> bool
    ensures { result ≡ may_have name.now value.now }
{
    match name {
        "--virtual" => is_between(1, 64, value),
        "--turns" => is_between(0, 1_000_000, value),
        "--seed" => number(value.as_bytes()).is_some(),
        "--trace" | "--told" => value == "on",
        "--table" => choice_named(value).is_some(),
        "--conditions" => is_plain(value),
        _ => false,
    }
}

/// Whether a word isn't empty and doesn't begin with two dashes.
pub(crate) fn is_plain(word: &str) -> bool
    ensures { result ≡ is_plain word.now }
{
    !word.is_empty() && !word.starts_with("--")
}

fn is_between(least: u64, most: u64, value: &str) -> bool
    ensures { result ≡ is_between least most (number_of value.now) }
{
    match number(value.as_bytes()) {
        Some(number) => least <= number && number <= most,
        None => false,
    }
}

/// The number that is given, or else that by default.
fn number_or(default: u64, value: Option<&str>) -> u64
    ensures { result ≡ number_or default (option_map (λ value. value.now) value.entry) }
{
    match value {
        Some(value) => number(value.as_bytes()).unwrap_or(default),
        None => default,
    }
}

/// The shipped table that is named, or else that by default.
fn table_or(default: Choice, value: Option<&str>) -> Choice
    ensures { result ≡ table_or default (option_map (λ value. value.now) value.entry) }
{
    match value {
        Some(value) => choice_named(value).unwrap_or(default),
        None => default,
    }
}
