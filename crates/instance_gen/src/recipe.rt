// What an instance is made from.
ghost use Rattle.std.specs.Prelude.{◌↔◌, IsTrue};
ghost use Rattle.instance_gen.specs.Drafts.{IsRecipe};

const MOST_RESIDENTS: u32 = 20_000;

const MOST_HOSPITALS: u32 = 20_000;

const MOST_SEATS: u32 = 20_000;

const MOST_PAIRS: u64 = 100_000;

const MOST_PERCENT: u32 = 100;

/// How many residents and hospitals there are, how many hospitals each resident chooses, how many posts there are in all, how
/// many of a hundred choices are tied with the one before on each side, and the number that the draws begin with.
#[derive(Clone, Copy, Debug, PartialEq, Eq)]
pub struct Recipe {
    pub residents: u32,
    pub hospitals: u32,
    pub choices: u32,
    pub seats: u32,
    pub resident_ties: u32,
    pub hospital_ties: u32,
    pub number: u64,
}

impl Recipe {
    /// Whether each number is in its range: at most 20,000 residents, 1 to 20,000 hospitals, no more choices than hospitals and
    /// at most 100,000 choices of all residents, at most 20,000 posts, and at most 100 of a hundred tied.
    pub fn is_in_range(&self) -> bool
        ensures { IsTrue result ↔ IsRecipe self.now }
    {
        self.residents <= MOST_RESIDENTS
            && 1 <= self.hospitals
            && self.hospitals <= MOST_HOSPITALS
            && self.choices <= self.hospitals
            && self.residents as u64 * self.choices as u64 <= MOST_PAIRS
            && self.seats <= MOST_SEATS
            && self.resident_ties <= MOST_PERCENT
            && self.hospital_ties <= MOST_PERCENT
    }
}
