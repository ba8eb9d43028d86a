//! Rows of pictures: what is drawn of a task.
ghost use Rattle.std.specs.Prelude.{◌≡◌, [], ◌∷◌, None, Some};
ghost use Rattle.rt_drawing.specs.declared.window.Window.{Window};
ghost use Rattle.rt_chart.specs.Looks.{look_of};
ghost use Rattle.rt_chart.specs.ChartText.{row_text};
ghost use Rattle.rt_rows.specs.Reporting.{soft_set};
ghost use Rattle.rt_text_rows.specs.Charts.{Spans, drawn, rows_drawn, soft_drawing, soft_part, misses_drawn, lacks_one, short, short_text, usual, compact, all_marks, crowd, marks_as_shapes, marks_as_lines, marks_as_low_lines};

/// The ticks of a task, its wakes, its deadlines and its budget along a history, and those in a part of it: `stretches`,
/// `moment_marks`, `wake_of`, `outcome_marks`, `drawing_of`.
pub fn what_is_drawn()
    ensures whole { (w : Window) → Spans 0 30 w → drawn w soft_set ≡ soft_drawing ∷ [] }
    ensures part { (w : Window) → Spans 9 26 w → drawn w soft_set ≡ soft_part ∷ [] }
{}

/// The first deadline that each task misses, which a picture of later ticks leaves out: `misses`, `first_miss`, `shown_miss`.
pub fn what_is_missed()
    ensures shown { (w : Window) → Spans 0 12 w → misses_drawn w ≡ None ∷ Some lacks_one ∷ [] }
    ensures before { (w : Window) → Spans 11 21 w → misses_drawn w ≡ None ∷ None ∷ [] }
{}

/// The row of one task over three ticks, with its budget before its period: `row_text`, `label_text`.
pub fn rows_of_pictures()
    ensures { (w : Window) → Spans 0 3 w → rows_drawn w short ≡ short_text }
{}

/// How each mark is drawn and what its title says, as a shape, as a line, and as a line of a low row: `place_of`, `shape_text`,
/// `event_text`, `bar_place`.
pub fn shapes_and_lines()
    ensures shapes { (w : Window) → Spans 0 400 w → row_text (look_of w usual (all_marks ∷ [])) all_marks ≡ marks_as_shapes }
    ensures lines { (w : Window) → Spans 0 400 w → row_text (look_of w usual (all_marks ∷ crowd ∷ [])) all_marks ≡ marks_as_lines }
    ensures low_lines { (w : Window) → Spans 0 400 w → row_text (look_of w compact (all_marks ∷ [])) all_marks ≡ marks_as_low_lines }
{}
