//! The picture of a system's schedule.

ghost use Rattle.std.specs.Prelude.{◌≡◌, List, false};
ghost use Rattle.rt_names.specs.declared.task_word.TaskWord.{TaskWord};
ghost use Rattle.rt_programs.specs.Charting.{MeanTasks, ChartMeans};
ghost use Rattle.rt_opening.specs.Ends.{Ends};

use rt_chart::{Chart, Style, Window};
use rt_core::Machine;
use rt_exec::Fetcher;
use rt_follow::{Beat, Listener, follow};
use rt_history::{Entry, params_of};
use rt_image::read_system;
use rt_opening::{Admission, SimFault, answer, open_set};
use rt_queue::MinQueue;
use rt_sink::Sink;
use std::alloc::{AllocError, Global};

/// A picture that is drawn while a machine goes on, until there is no memory for it.
#[derive(Drop)]
struct Drawn<'b, 'x> {
    chart: Chart<'b>,
    /// The tasks that it is drawn without their jobs over the period.
    except: &'x [usize],
}

impl Listener for Drawn<'_, '_> {
    ghost use Rattle.std.specs.Prelude.{◌≡◌, ℕ, List, length, true};
    ghost use Rattle.rt_chart.specs.declared.style.Style.{Style};
    ghost use Rattle.rt_drawing.specs.declared.window.Window.{Window};
    ghost use Rattle.rt_chart.specs.Standing.{chart_at};

    type Fault = AllocError;

    ghost Kept = { Window × Style × List ℕ };

    ghost kept = { λ d. (d.chart.window, d.chart.style, d.except.now) };

    ghost tick = { λ d. d.chart.tick };

    ghost count = { λ d. length d.chart.tasks };

    ghost told = { λ _ d set t. d.chart ≡ chart_at d.chart.window d.chart.style d.except.now set t };

    ghost stopped = { λ _ _ _ _. Unit {0} };

    ghost plain = { true };

    #[inline(always)]
    fn takes_plain(&self) -> bool {
        true
    }

    #[inline(always)]
    fn add<Q: MinQueue, F: Fetcher>(
        &mut self,
        entry: Entry,
        _machine: &Machine<Q, F>,
    ) -> Result<(), AllocError> {
        self.chart.add(entry)
    }

    #[inline(always)]
    fn add_plain(&mut self, task: u32, n: u64) -> Result<u64, AllocError> {
        self.chart.add_plain(task, n)
    }
}

/// Runs the system of a file (RTS1 or RTS2) to the end of a window, and writes a picture of the ticks in it in this style, as SVG 1.1: a row for
/// each task, with when it ran and what its server did, and the axis of ticks. Of an excepted task no job is over its period. It beats
/// while it runs. The answer is the text's length in bytes.
///
/// # Errors
///
/// In this order: the refusal of the file, that of admission, `ImageTooBig` or `BadEntry` of the first task with such a fault; or
/// there is no memory. Then the sink has taken nothing. `Device` where the sink failed: it took so many of the first bytes of the
/// text.
pub fn chart<S: Sink, B: Beat>(
    alloc: Global,
    bytes: &[u8],
    admission: Admission,
    window: Window,
    style: Style,
    except: &[usize],
    out: &mut S,
    beat: &B,
) -> Result<u64, SimFault>
    requires { (S.seen out.old).failed ≡ false }
    ensures { (words : List TaskWord) → MeanTasks bytes.now words except.now → Ends S.seen (ChartMeans bytes.now admission window style words) out.old result out.new }
{
    let system = read_system(alloc, bytes)?;
    let params = params_of(alloc, &system.tasks)?;
    let mut opened = open_set(alloc, admission, &system, &params)?;
    let runnable = &opened.runnable;
    let chart = Chart::new(alloc, runnable, &system.tasks, window, style, except)?;
    let mut drawn = Drawn { chart, except };
    follow(&mut opened.machine, &mut drawn, window.to, beat)?;
    answer(drawn.chart.write_text(out))
}
