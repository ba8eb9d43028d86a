//! The names of the tasks of a set.

ghost use Rattle.std.specs.Prelude.{◌≡◌, ◌+◌, ◌^◌, ◌<◌, ◌≤◌, IfOk, Ok, Err, position, bytes_eq};
ghost use Rattle.rt_image.specs.SystemFile.{IsSystem, task_set};
ghost use Rattle.rt_names.specs.TaskNames.{task_names, name_at};
ghost use Rattle.rt_names.specs.TaskWords.{having, task_of, tasks_of};
ghost use Rattle.rt_names.specs.declared.task_word.TaskFault.{TaskFault};
ghost use Rattle.rt_words.specs.declared.or_memory.OrMemory.TheVariants.{Fault};

use crate::task_name::TaskName;
use crate::task_word::{TaskFault, TaskWord};
use rt_image::System;
use rt_text_out::{Out, Text, plain};
use rt_words::OrMemory;
use std::alloc::{AllocError, Global};
use std::marker::Model;

/// The names of the tasks of a set, in order of number. Contracts see the bytes of each.
#[derive(Drop)]
pub struct TaskNames<'a> {
    names: Vec<TaskName<'a>>,
}

impl<'a> Model for TaskNames<'a> {
    ghost use Rattle.std.specs.Prelude.{ℕ, List};

    ghost Value = { List (List ℕ) };

    ghost view = { λ t. t.names.items };
}

impl<'a> TaskNames<'a> {
    /// Those of the tasks of a system, each of which has a name.
    ///
    /// # Errors
    ///
    /// There is no memory for them.
    pub fn of(alloc: Global, system: &System<'a>) -> Result<TaskNames<'a>, AllocError>
        requires { IsSystem (task_set system.now) }
        ensures { IfOk result (λ names. names ≡ task_names (task_set system.now)) }
    {
        let mut names = Vec::new(alloc);
        for (number, task) in system.tasks.iter().enumerate() {
            names.push(TaskName::of(number as u32, &task.object))?;
        }
        Ok(TaskNames { names })
    }

    /// The name of a task, if it is there.
    pub fn get(&self, task: u32) -> Option<&TaskName<'a>> {
        let place = task as usize;
        self.names.get(place)
    }

    /// How many tasks have this name.
    fn having(&self, word: &str) -> u64
        ensures { result ≡ having word.now self.now }
    {
        let mut count = 0;
        for name in &self.names {
            if name.is(word) {
                count += 1;
            }
        }
        count
    }

    /// The first task that has this name.
    fn first_having(&self, word: &str) -> Option<usize>
        ensures { result ≡ position (λ name. bytes_eq name word.now) self.now }
    {
        self.names.iter().position(|name| name.is(word))
    }

    /// The task that a word means, a number or a name. Takes no memory.
    ///
    /// # Errors
    ///
    /// There is no task of this number, none of this name, or more than one.
    pub fn task_of<'w>(&self, word: TaskWord<'w>) -> Result<usize, TaskFault<'w>>
        ensures { result ≡ task_of self.now word.entry }
    {
        let count = self.names.len() as u64;
        match word {
            TaskWord::Number(task) if u64::from(task) < count => Ok(task as usize),
            TaskWord::Number(task) => Err(TaskFault::NoTask { task, count }),
            TaskWord::Name(name) => match (self.first_having(name), self.having(name)) {
                (None, _) => Err(TaskFault::NoName(name)),
                (Some(task), 1) => Ok(task),
                (Some(_), several) => Err(TaskFault::Several(name, several)),
            },
        }
    }

    /// The tasks that words mean, in the order of the words.
    ///
    /// # Errors
    ///
    /// The first word that means no task, and why; or there is no memory.
    pub fn tasks_of<'w>(
        &self,
        alloc: Global,
        words: &[TaskWord<'w>],
    ) -> Result<Vec<usize>, OrMemory<TaskFault<'w>>>
        ensures found { IfOk result (λ tasks. tasks_of self.now words.now ≡ Ok tasks.items) }
        ensures refused { (fault : TaskFault) → result ≡ Err (Fault fault) → tasks_of self.now words.now ≡ Err fault }
    {
        let mut tasks = Vec::new(alloc);
        for word in words {
            match self.task_of(*word) {
                Ok(task) => tasks.push(task)?,
                Err(fault) => return Err(OrMemory::Fault(fault)),
            }
        }
        Ok(tasks)
    }
}

/// The name of a task of a set; of no task nothing.
#[derive(Clone, Copy)]
pub struct NameAt<'n, 'a> {
    pub names: &'n TaskNames<'a>,
    pub task: u32,
}

impl<'n, 'a> Text for NameAt<'n, 'a> {
    ghost text = { λ x. name_at x.names.now x.task };

    ghost most = { 532 };

    fn offer<O: Out>(&self, out: &mut O) {
        let names = self.names;
        match names.names.get(self.task as usize) {
            Some(name) => Text::offer(name, out),
            None => plain(b"").offer(out),
        }
    }
}
