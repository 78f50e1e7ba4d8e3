// The table of an engine's trail, by variable.
ghost use Rattle.std.specs.Prelude.{◌≡◌, IfOk, if◌then◌else◌, is_none, length};
ghost use Rattle.conflict_rows.specs.Tables.{AreMarks};
ghost use Rattle.pb_propagate.specs.Tables.{number_of};
ghost use Rattle.engine_trails.specs.History.{history};

use conflict_rows::Mark;
use hrt_base::NoMemory;
use pb_propagate::Engine;
use row_arena::Place;
use std::alloc::Global;

/// How many levels a literal with this reason opens: one where it was decided.
fn opened(reason: Option<Place>) -> u32
    ensures { result ≡ (if is_none (number_of reason) then 1 else 0) }
{
    match reason {
        None => 1,
        Some(_) => 0,
    }
}

/// The marks of a trail, which has variable v at place v - 1: made in one pass.
pub fn marks_of(alloc: Global, engine: &Engine) -> Result<Vec<Mark>, NoMemory>
    ensures marks { IfOk result (λ marks. AreMarks marks.items (history engine.now)) }
    ensures vars { IfOk result (λ marks. length marks.items ≡ engine.now.vars) }
{
    let free = Mark {
        place: 0,
        neg: false,
        level: 0,
    };
    let trail = engine.trail();
    let mut marks = vec![in alloc; free; engine.vars() as usize]?;
    let mut level = 0;
    for k in 0..trail.len() {
        let lit = trail[k];
        level += opened(engine.reason(lit.var));
        marks[(lit.var - 1) as usize] = Mark {
            place: k as u32 + 1,
            neg: lit.neg,
            level,
        };
    }
    Ok(marks)
}
