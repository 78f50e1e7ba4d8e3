// What is learned of the last clause.
ghost use Rattle.std.specs.Prelude.{◌≡◌, ◌≤◌, IfOk, length};
ghost use Rattle.rank_tables.specs.WellFormed.{most_pairs};
ghost use Rattle.conflict_rows.specs.Ends.{ClauseEnd};
ghost use Rattle.engine_trails.specs.History.{history};
ghost use Rattle.pb_propagate.specs.Moments.{IsInOrder};
ghost use Rattle.conflict_rows.specs.Tables.{AreMarks};
ghost use Rattle.conflict_cuts.specs.Ends.{EndsIn};

use crate::levels::lowest_level;
use crate::making::Made;
use conflict_rows::{Mark, asserted};
use hrt_base::{Lit, NoMemory, RowNo};
use pb_propagate::Engine;
use pb_rows::Row;
use std::alloc::Global;

/// What an analysis comes to: the last clause, with the level to go back to and the literal that follows there, or a row that holds
/// nowhere.
#[derive(Drop)]
pub enum Learned {
    Clause {
        id: RowNo,
        row: Row,
        level: u32,
        asserts: Lit,
    },
    Root(RowNo),
}

/// What is learned of the last clause.
pub(crate) fn learn(
    alloc: Global,
    engine: &Engine,
    marks: &[Mark],
    last: Made,
) -> Result<Learned, NoMemory>
    requires order { IsInOrder engine.now }
    requires table { AreMarks marks.now (history engine.now) }
    requires size { length marks.now ≡ engine.now.vars }
    requires few { engine.now.vars ≤ most_pairs }
    requires end { ClauseEnd engine.now.vars (history engine.now) last.row }
    ensures { IfOk result (EndsIn engine.now last) }
{
    if last.row.terms().is_empty() {
        return Ok(Learned::Root(last.id));
    }
    let Some(level) = lowest_level(alloc, &last.row, marks)? else {
        unreachable!()
    };
    let Some(asserts) = asserted(&last.row, marks, level) else {
        unreachable!()
    };
    Ok(Learned::Clause {
        id: last.id,
        row: last.row,
        level,
        asserts,
    })
}
