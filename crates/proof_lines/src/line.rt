// What a line of a proof says.
ghost use Rattle.std.specs.Prelude.{◌≡◌};

use crate::{Ids, Lits, PolSteps};
use hrt_base::{Lit, RowNo};
use row_text::Written;

/// A step of a `pol` line, on a stack of rows. Factors are at least 1.
#[derive(Clone, Copy, Debug, PartialEq, Eq)]
pub enum PolStep {
    /// Pushes a live row.
    Id(RowNo),
    /// Pushes the row that the literal is at least 0.
    Axiom(Lit),
    /// Adds the two upper rows.
    Add,
    Times(i128),
    Divide(i128),
    Saturate,
    /// Weakens the upper row by a variable.
    Weaken(u32),
}

// What a `SmallVec` keeps in its unused places.
impl Default for PolStep {
    fn default() -> PolStep
        ensures { result ≡ PolStep.Add }
    {
        PolStep::Add
    }
}

/// What a proof is for.
#[derive(Clone, Copy, Debug, PartialEq, Eq)]
pub enum Claim {
    /// Bounds of the least objective, each if there is one.
    Bounds {
        lower: Option<i128>,
        upper: Option<i128>,
    },
    /// No point satisfies the formula.
    Unsat,
    Nothing,
}

/// A line of a proof.
#[derive(Debug, Drop)]
pub enum Line {
    Header,
    /// How many rows the formula has.
    Count(u64),
    Pol(PolSteps),
    Rup(Written),
    Soli(Lits),
    Del(Ids),
    Output,
    Conclusion(Claim),
    End,
    Comment,
    Blank,
}
