// The closures with which an engine is compared.
use crate::checks::{are_covered, is_over};
use hrt_base::{Lit, NoMemory, RowNo};
use pb_rows::Row;
use rup_engine::Live;
use std::alloc::Global;
use std::marker::Model;
use std::test::Fail;

/// Rows over so many variables.
#[derive(Drop)]
pub struct Reference {
    vars: u32,
    live: Live,
}

impl Model for Reference {
    ghost use Rattle.std.specs.Prelude.{◌≡◌};
    ghost use Rattle.rup_engine.specs.Live.{LiveRows};

    ghost Value = { LiveRows };

    ghost view = { λ r. r.live };

    ghost invariant = { λ r. r.live.vars ≡ r.vars };
}

impl Reference {
    /// No rows, over the variables 1 to `vars`.
    pub fn new(alloc: Global, vars: u32) -> Result<Reference, NoMemory> {
        Ok(Reference {
            vars,
            live: Live::new(alloc, vars)?,
        })
    }

    /// Adds a row under a number that no row has.
    pub fn add(&mut self, alloc: Global, row: &Row, number: u64) -> Result<(), Fail> {
        if !is_over(row, self.vars) {
            return Err("the row has other variables".into());
        }
        let copy = row.copy(alloc)?;
        match self.live.get(RowNo(number)) {
            Some(_) => Err("a row has the number".into()),
            None => {
                self.live.add(alloc, RowNo(number), copy)?;
                Ok(())
            }
        }
    }

    /// The closure of literals, or none where the rows and they are refuted.
    pub fn closure(&mut self, alloc: Global, given: &[Lit]) -> Result<Option<Vec<Lit>>, Fail> {
        if !are_covered(given, self.vars) {
            return Err("a literal has another variable".into());
        }
        let mut out = Vec::new(alloc);
        match self.live.closure(alloc, given, &mut out)? {
            true => Ok(None),
            false => Ok(Some(out)),
        }
    }
}
