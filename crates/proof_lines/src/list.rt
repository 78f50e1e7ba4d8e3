// Lists that contracts see as lists.
ghost use Rattle.std.specs.Prelude.{◌≡◌, [], ◌∷◌, ◌++◌, OnOk, OnErr};

use crate::PolStep;
use hrt_base::{Lit, NoMemory, RowNo};
use smallvec::SmallVec;
use std::alloc::Global;
use std::marker::Model;

/// Items in their order.
#[derive(Debug, Drop)]
pub struct List<T> {
    items: Vec<T>,
}

impl<T> Model for List<T> {
    ghost use Rattle.std.specs.Prelude.{List};
    ghost use Rattle.std.specs.Coded.{coded_list};

    ghost Value = { List T };

    ghost coded = { coded_list T.code };

    ghost view = { λ l. l.items.items };
}

impl<T> List<T> {
    /// No item. It takes no memory.
    pub fn new(alloc: Global) -> List<T>
        ensures { result ≡ [] }
    {
        List {
            items: Vec::new(alloc),
        }
    }

    /// The items in their order.
    pub fn as_slice(&self) -> &[T]
        ensures { result.now ≡ self.now }
    {
        self.items.as_slice()
    }
}

impl<T: Drop> List<T> {
    /// Puts an item at the end.
    pub fn push(&mut self, item: T) -> Result<(), NoMemory>
        ensures ok { OnOk result (self.new ≡ self.old ++ item ∷ []) }
        ensures err { OnErr result (self.new ≡ self.old) }
    {
        self.items.push(item)?;
        Ok(())
    }
}

/// Literals.
pub type Lits = List<Lit>;

/// Numbers of rows.
pub type Ids = List<RowNo>;

/// Variables.
pub type Vars = List<u32>;

/// The steps of a `pol` line. Most lines have few, which are kept in place.
#[derive(Debug, Drop)]
pub struct PolSteps {
    items: SmallVec<PolStep, 8>,
}

impl Model for PolSteps {
    ghost use Rattle.std.specs.Prelude.{List};
    ghost use Rattle.proof_lines.specs.declared.line.PolStep.{PolStep};

    ghost Value = { List PolStep };

    ghost view = { λ l. l.items.items };
}

impl PolSteps {
    /// No step. It takes no memory.
    pub fn new(alloc: Global) -> PolSteps
        ensures { result ≡ [] }
    {
        PolSteps {
            items: SmallVec::new(alloc),
        }
    }

    /// Puts a step at the end.
    pub fn push(&mut self, item: PolStep) -> Result<(), NoMemory>
        ensures ok { OnOk result (self.new ≡ self.old ++ item ∷ []) }
        ensures err { OnErr result (self.new ≡ self.old) }
    {
        self.items.push(item)?;
        Ok(())
    }

    /// The steps in their order.
    pub fn as_slice(&self) -> &[PolStep]
        ensures { result.now ≡ self.now }
    {
        self.items.as_slice()
    }
}
