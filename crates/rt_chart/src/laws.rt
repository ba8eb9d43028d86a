//! What the definitions of a picture say, in other words. Each function does nothing: its clause is the law.

ghost use Rattle.std.specs.Prelude.{ℕ, ◌≡◌, ◌+◌, ◌<◌, ◌≤◌, ◌^◌};
ghost use Rattle.rt_image.specs.ObjectFile.{ObjectValue, IsObject};
ghost use Rattle.rt_names.specs.TaskName.{task_name};
ghost use Rattle.rt_chart.specs.declared.style.Style.{Style};
ghost use Rattle.rt_drawing.specs.declared.stretch.Stretch.{Stretch};
ghost use Rattle.rt_drawing.specs.declared.window.Window.{Window};
ghost use Rattle.rt_chart.specs.Escapes.{IsPlainText};
ghost use Rattle.rt_chart.specs.MarkText.{over_since};
ghost use Rattle.rt_chart.specs.Scale.{width, place, extent};

/// A later tick lies no further left, no tick lies outside the picture, and of each stretch something is to be seen.
pub fn places_rise()
    ensures rising { (w : Window) (s : Style) (t u : ℕ) → t ≤ u → place w s t ≤ place w s u }
    ensures within { (w : Window) (s : Style) (t : ℕ) → place w s t ≤ width w s }
    ensures seen { (w : Window) (s : Style) (from to : ℕ) → from < to → 1 ≤ extent w s from to }
{}

/// The name of a task stands in a picture as it is: it has no byte that is the begin or the end of something else in a file of XML.
pub fn names_are_plain()
    ensures { (i : ℕ) (o : ObjectValue) → i < 2 ^ 32 → IsObject o → IsPlainText (task_name i o) }
{}

/// The title of a bar that is over its period says that it is so since a period behind its job's release.
pub fn over_since_a_period_behind_the_release()
    ensures { (period : ℕ) (s : Stretch) → s.job.release + period ≤ s.to → over_since period s ≡ s.job.release + period }
{}
