// The words after the program's name.
ghost use Rattle.std.specs.Prelude.{◌≡◌, option_map};
ghost use Rattle.hrt_cli.specs.Requests.{asked_by, budget_of, is_file_name, named_budget, request_of, solve_of, texts_of, three, three_files, three_names, two, two_files};

use crate::Budget;

/// What is to be done, with the names of its files.
#[derive(Clone, Copy)]
pub enum Command<'a> {
    /// The instance, the files of its model and of a proof of what is found, and how many rows may be learned.
    Solve(&'a str, &'a str, &'a str, Budget),
    /// The instance and the pairs.
    Audit(&'a str, &'a str),
    /// The instance, and the file of its model.
    Model(&'a str, &'a str),
    /// The instance and the proof.
    Verify(&'a str, &'a str),
    /// The model and the proof.
    Check(&'a str, &'a str),
    /// The instance, and the files of its model and of a proof of its bound.
    Bound(&'a str, &'a str, &'a str),
    /// The instance, and the files of its model and of a proof of its bound and of a matching.
    Quick(&'a str, &'a str, &'a str),
}

/// The command that the words spell, if they spell one.
pub fn command_of<'a>(words: &'a [String]) -> Option<Command<'a>>
    ensures { option_map asked_by result ≡ request_of (texts_of words.now) }
{
    let [word, files @ ..] = words else {
        return None;
    };
    match word.as_str() {
        "solve" => solve_of(files),
        "audit" => {
            let (instance, pairs) = two_files(files)?;
            Some(Command::Audit(instance, pairs))
        }
        "model" => {
            let (instance, file) = two_files(files)?;
            Some(Command::Model(instance, file))
        }
        "verify" => {
            let (instance, proof) = two_files(files)?;
            Some(Command::Verify(instance, proof))
        }
        "check" => {
            let (model, proof) = two_files(files)?;
            Some(Command::Check(model, proof))
        }
        "bound" => {
            let (instance, model, proof) = three_files(files)?;
            Some(Command::Bound(instance, model, proof))
        }
        "quick" => {
            let (instance, model, proof) = three_files(files)?;
            Some(Command::Quick(instance, model, proof))
        }
        _ => None,
    }
}

// A file's name is not empty and doesn't begin with `-`.
fn is_file_name(word: &str) -> bool
    ensures { result ≡ is_file_name word.now }
{
    !word.is_empty() && word.as_bytes()[0] != b'-'
}

// Two names that differ.
fn two_files<'a>(files: &'a [String]) -> Option<(&'a str, &'a str)>
    ensures { option_map (λ f. two f.0.now f.1.now) result ≡ two_files (texts_of files.now) }
{
    match files {
        [first, second]
            if is_file_name(first.as_str())
                && is_file_name(second.as_str())
                && first.as_str() != second.as_str() => { Some((first.as_str(), second.as_str())) }
        _ => None,
    }
}

// Three names of which each two differ.
fn three_names<'a>(
    first: &'a str,
    second: &'a str,
    third: &'a str,
) -> Option<(&'a str, &'a str, &'a str)>
    ensures { option_map (λ f. three f.0.now f.1.now f.2.now) result ≡ three_names first.now second.now third.now }
{
    if is_file_name(first)
        && is_file_name(second)
        && is_file_name(third)
        && first != second
        && first != third
        && second != third
    {
        Some((first, second, third))
    } else {
        None
    }
}

fn three_files<'a>(files: &'a [String]) -> Option<(&'a str, &'a str, &'a str)>
    ensures { option_map (λ f. three f.0.now f.1.now f.2.now) result ≡ three_files (texts_of files.now) }
{
    match files {
        [first, second, third] => three_names(first.as_str(), second.as_str(), third.as_str()),
        _ => None,
    }
}

// How many rows may be learned, by an option and its value.
fn named_budget(option: &str, word: &str) -> Option<Budget>
    ensures { option_map (λ budget. budget.conflicts) result ≡ named_budget option.now word.now }
{
    if option == "--conflicts" {
        Budget::read(word)
    } else {
        None
    }
}

// How many rows may be learned, by the words behind the files.
fn budget_of(options: &[String]) -> Option<Budget>
    ensures { option_map (λ budget. budget.conflicts) result ≡ budget_of (texts_of options.now) }
{
    match options {
        [] => Some(Budget::usual()),
        [option, word] => named_budget(option.as_str(), word.as_str()),
        _ => None,
    }
}

// Three files, and behind them how many rows may be learned.
fn solve_of<'a>(words: &'a [String]) -> Option<Command<'a>>
    ensures { option_map asked_by result ≡ solve_of (texts_of words.now) }
{
    let [first, second, third, options @ ..] = words else {
        return None;
    };
    let (instance, model, proof) = three_names(first.as_str(), second.as_str(), third.as_str())?;
    let budget = budget_of(options)?;
    Some(Command::Solve(instance, model, proof, budget))
}
