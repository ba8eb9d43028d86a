//! What the tasks of a set ask for.

ghost use Rattle.std.specs.Prelude.{◌≡◌, IfOk};
ghost use Rattle.rt_image.specs.SystemFile.{set_tasks};
ghost use Rattle.rt_history.specs.Admitted.{task_params};

use rt_admit::Params;
use rt_image::Task;
use std::alloc::{AllocError, Global};

/// What the tasks ask for.
pub fn params_of(alloc: Global, tasks: &[Task]) -> Result<Vec<Params>, AllocError>
    ensures { IfOk result (λ params. params.items ≡ task_params (set_tasks tasks.now)) }
{
    let mut params = Vec::new(alloc);
    for task in tasks {
        params.push(Params {
            budget: task.budget,
            period: task.period,
            start: task.start,
        })?;
    }
    Ok(params)
}
