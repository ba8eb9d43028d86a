//! Whether the rows of a picture have room for shapes.

ghost use Rattle.std.specs.Prelude.{◌≡◌, All};
ghost use Rattle.std.specs.List.{list_all};
ghost use Rattle.rt_words.specs.Limits.{tick_limit};
ghost use Rattle.rt_chart.specs.Looks as looks;
ghost use Rattle.rt_drawing.specs.Standing.{finished};
ghost use Rattle.rt_chart.specs.Standing.{all_finished};
ghost use Rattle.rt_drawing.specs.Drawn.{IsSound};

use rt_drawing::{Sketch, Window};

/// Whether the row of a task, whose number does not matter, has room for shapes in so many units.
fn has_room(window: &Window, width: u64, sketch: &Sketch<'_>) -> bool
    requires { IsSound tick_limit sketch.now }
    ensures { result ≡ looks.has_room width (finished window.now 0 sketch.now) }
{
    let last = sketch.last_marks(window);
    let count = sketch.marks().len() as u64 + last.len() as u64;
    8 * count <= width
}

/// Whether the row of each of some tasks has room for shapes in so many units.
pub(crate) fn all_have_room(window: &Window, width: u64, sketches: &[Sketch<'_>]) -> bool
    requires { All (IsSound tick_limit) sketches.now }
    ensures { result ≡ list_all (looks.has_room width) (all_finished window.now sketches.now) }
{
    for sketch in sketches {
        if !has_room(window, width, sketch) {
            return false;
        }
    }
    true
}
