ghost use Rattle.std.specs.Prelude.{◌≡◌};
ghost use Rattle.table_choice.specs.Choices.{choice_of};

use gx_base::Choice;

/// The shipped table that a word of the command line names.
pub fn choice_named(word: &str) -> Option<Choice>
    ensures { result ≡ choice_of word.now }
{
    match word {
        "precise" => Some(Choice::Precise),
        "simple" => Some(Choice::Simple),
        "rw" => Some(Choice::Rw),
        "global" => Some(Choice::Global),
        _ => None,
    }
}
