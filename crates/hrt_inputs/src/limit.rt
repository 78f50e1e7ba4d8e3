// What a run counts, and the most that it takes.
ghost use Rattle.std.specs.Prelude.{◌≡◌};
ghost use Rattle.hrt_inputs.specs.Limits.{most};

/// What there can be too much of.
#[derive(Clone, Copy, Debug, PartialEq, Eq)]
pub enum Limit {
    Residents,
    Hospitals,
    Pairs,
    /// The terms of the 0/1 model.
    Terms,
    InstanceBytes,
    PairsBytes,
    ModelBytes,
    /// The variables of a model.
    Variables,
    /// The rows of a model.
    Rows,
    ProofBytes,
}

impl Limit {
    /// The most of it that is taken.
    pub fn most(self) -> u64
        ensures { result ≡ most self }
    {
        match self {
            Limit::Residents | Limit::Hospitals => 20_000,
            Limit::Pairs => 100_000,
            Limit::Terms => 8_000_000,
            Limit::InstanceBytes | Limit::PairsBytes => 67_108_864,
            Limit::ModelBytes => 268_435_456,
            Limit::Variables => 100_000,
            Limit::Rows => 1_000_000,
            Limit::ProofBytes => 1 << 40,
        }
    }
}
