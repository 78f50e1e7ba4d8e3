// What the given pairs make of one resident or hospital.
ghost use Rattle.std.specs.Prelude.{◌≡◌, ◌+◌, ◌<◌, ◌^◌};
ghost use Rattle.stability_audit.specs.Tallies.{one_more, wants};

// How many pairs it is in, and the worst rank that it gives in them, 0 where it is in none.
#[derive(Clone, Copy)]
pub struct Tally {
    pub count: usize,
    pub worst: u32,
}

impl Tally {
    pub const NO_PAIR: Tally = Tally { count: 0, worst: 0 };

    // With one pair more, in which it gives this rank.
    pub fn one_more(self, rank: u32) -> Tally
        requires { self.count + 1 < 2 ^ 64 }
        ensures { result ≡ one_more self rank }
    {
        Tally {
            count: self.count + 1,
            worst: self.worst.max(rank),
        }
    }

    // Whether it would take a pair of this rank: it has a free place, or a pair of a worse rank.
    pub fn wants(self, places: usize, rank: u32) -> bool
        ensures { result ≡ wants self places rank }
    {
        self.count < places || rank < self.worst
    }
}
