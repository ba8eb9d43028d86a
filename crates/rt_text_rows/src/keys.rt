//! Rows of the axis above a picture's rows, and of the key below them.
ghost use Rattle.std.specs.Prelude.{◌≡◌, []};
ghost use Rattle.rt_drawing.specs.declared.window.Window.{Window};
ghost use Rattle.rt_chart.specs.Axis.{upper_axis_text};
ghost use Rattle.rt_chart.specs.Key.{key_text};
ghost use Rattle.rt_chart.specs.Looks.{look_of};
ghost use Rattle.rt_text_rows.specs.Charts.{Spans, usual};
ghost use Rattle.rt_text_rows.specs.Keys.{axis_above, key_of_shapes};

/// The ticks stand above 13 rows too, and not above 12: `upper_axis_text`, `tick_label`, `is_tall`.
pub fn axis_above_many_rows()
    ensures twelve { (w : Window) → Spans 0 3 w → upper_axis_text (look_of w usual []) 12 ≡ [] }
    ensures thirteen { (w : Window) → Spans 0 3 w → upper_axis_text (look_of w usual []) 13 ≡ axis_above }
{}

/// Each kind of mark with what it means: `key_text`.
pub fn key_of_marks()
    ensures { (w : Window) → key_text (look_of w usual []).marks ≡ key_of_shapes }
{}
