// Going back to where rows that were added are open.
ghost use Rattle.std.specs.Prelude.{◌<◌, length};
ghost use Rattle.std.specs.List.{All};
ghost use Rattle.pb_search.specs.Returning.{GoesBack, IsBroken, IsLowest};

use pb_propagate::Engine;
use row_arena::Place;

// The lowest level at which a row at these places is open.
fn lowest_level(engine: &Engine, places: &[Place]) -> u32
    requires { All (IsBroken engine.now) places.now }
    ensures { IsLowest places.now engine.now result }
{
    let mut lowest = engine.level();
    for place in places {
        let level = engine.lowest_open_level(*place);
        lowest = lowest.min(level.unwrap_or(lowest));
    }
    lowest
}

/// Goes back to the lowest level at which one of the rows at these places, which are falsified, is open.
pub(crate) fn return_to_lowest(engine: &mut Engine, places: &[Place])
    requires some { 0 < length places.now }
    requires broken { All (IsBroken engine.old) places.now }
    ensures { GoesBack places.now engine.old engine.new }
{
    let level = lowest_level(engine, places);
    engine.back_to(level);
}
