// How many rows a search may learn.
ghost use Rattle.std.specs.Prelude.{◌≡◌, ◌≤◌, option_map};
ghost use Rattle.hrt_cli.specs.Budgets.{most_conflicts, number_up_to, usual_conflicts};

use hrt_base::capped_value;

const MOST: u64 = 1_000_000_000_000;

const USUAL: u64 = 1_000_000;

const MOST_DIGITS: usize = 20;

/// How many rows a search may learn: at most 10^12.
#[derive(Clone, Copy)]
pub struct Budget {
    pub conflicts: u64,
    ghost few: { conflicts ≤ most_conflicts },
}

impl Budget {
    /// What is meant where the words say nothing.
    pub fn usual() -> Budget
        ensures { result.conflicts ≡ usual_conflicts }
    {
        Budget { conflicts: USUAL }
    }

    /// The number that the word is, if it is one of 1 to 20 digits and not too great.
    pub fn read(word: &str) -> Option<Budget>
        ensures { option_map (λ budget. budget.conflicts) result ≡ number_up_to most_conflicts word.now }
    {
        let conflicts = number_up_to(word, MOST)?;
        Some(Budget { conflicts })
    }
}

// The number that the word is, unless it is greater than `most`.
fn number_up_to(word: &str, most: u64) -> Option<u64>
    ensures { result ≡ number_up_to most word.now }
{
    let digits = word.as_bytes();
    if digits.is_empty() || digits.len() > MOST_DIGITS {
        return None;
    }
    let value = capped_value(digits, u128::from(most) + 1)?;
    if value > u128::from(most) {
        return None;
    }
    Some(value as u64)
}
