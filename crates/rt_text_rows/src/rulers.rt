//! Rows of the scale of pictures.
ghost use Rattle.std.specs.Prelude.{◌≡◌, [], ◌∷◌};
ghost use Rattle.rt_drawing.specs.declared.window.Window.{Window};
ghost use Rattle.rt_chart.specs.Scale.{place, middle, extent};
ghost use Rattle.rt_text_rows.specs.Charts.{Spans, usual};
ghost use Rattle.rt_text_rows.specs.Rulers.{WidthsAre, StepsAre};

/// Ten units for each tick, 800 at least, and 1,600 at most: `usual_width`.
pub fn widths_of_pictures()
    ensures { WidthsAre ((1, 800) ∷ (80, 800) ∷ (81, 810) ∷ (160, 1600) ∷ (161, 1600) ∷ (100000, 1600) ∷ []) }
{}

/// A step of the axis is 100 units wide at least: `step`.
pub fn steps_of_the_axis()
    ensures of_800_units { StepsAre ((8, 1) ∷ (9, 2) ∷ (16, 2) ∷ (17, 5) ∷ (40, 5) ∷ (41, 10) ∷ (80, 10) ∷ []) }
    ensures of_ten_a_tick { StepsAre ((81, 10) ∷ (160, 10) ∷ []) }
    ensures of_1600_units { StepsAre ((161, 20) ∷ (320, 20) ∷ (321, 50) ∷ (800, 50) ∷ (801, 100) ∷ (1600, 100)
        ∷ (1601, 200) ∷ (3200, 200) ∷ (8000, 500) ∷ (8001, 1000) ∷ (80000, 5000) ∷ (100000, 10000) ∷ []) }
{}

/// A tick of three is a third of 800 units, rounded down, and one outside is at the edge; a run of one tick among 100,000, of which
/// 62 share a unit, is one unit wide all the same: `place`, `middle`, `extent`.
pub fn places_in_a_window()
    ensures before { (w : Window) → Spans 10 13 w → place w usual 9 ≡ 0 }
    ensures first { (w : Window) → Spans 10 13 w → place w usual 10 ≡ 0 }
    ensures second { (w : Window) → Spans 10 13 w → place w usual 11 ≡ 266 }
    ensures behind { (w : Window) → Spans 10 13 w → place w usual 14 ≡ 800 }
    ensures halfway { (w : Window) → Spans 10 13 w → middle w usual 11 ≡ 399 }
    ensures of_two_ticks { (w : Window) → Spans 10 13 w → extent w usual 11 13 ≡ 534 }
    ensures narrow { (w : Window) → Spans 0 100000 w → extent w usual 0 1 ≡ 1 }
{}
