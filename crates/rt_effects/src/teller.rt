//! What the lines of ticks have of tasks: their names and symbols.

ghost use Rattle.std.specs.Prelude.{◌≡◌, ◌+◌, ◌≤◌, ◌<◌, ◌++◌, All, length, nat_lt, slice_get, decimal, Some, true, IfOk};
ghost use Rattle.arrayvec.specs.ArrayVec.{array_vec_len};
ghost use Rattle.rt_words.specs.Limits.{line_limit};
ghost use Rattle.rt_image.specs.ObjectFile.{IsObject, object_value, labels};
ghost use Rattle.rt_image.specs.SystemFile.{IsSystem, set_task, task_set};
ghost use Rattle.rt_effects.specs.TraceText.{TaskWords, words_of, words_in, place_text, busy_line};
ghost use Rattle.rt_isa.specs.Table.{ins};
ghost use Rattle.rt_core.specs.Plain.{plain_attempt};
ghost use Rattle.rt_effects.specs.Working.Kept.{middle_text, IsKept};

use crate::did::push_did;
use crate::instruction::push_carried_out;
use crate::kept::Kept;
use crate::page::{LINE_ROOM, PAGE_LEN, Page};
use crate::scratch::Scratch;
use crate::trace_line::{TRACE_LINE_LEN, TraceLine, push_instruction, push_part};
use rt_history::{Attempt, AttemptOutcome};
use rt_image::{System, Task};
use rt_isa::{Ins, decode};
use rt_names::{Places, TaskName};
use rt_sink::{push_byte, push_decimal, push_hex};
use rt_words::MAX_TICKS;
use std::alloc::{AllocError, Global};
use std::marker::Model;

/// The name and the parts of a task. Contracts see the name and the symbols.
#[derive(Drop)]
struct TaskPlaces<'s, 'a> {
    name: TaskName<'a>,
    places: Places<'s, 'a>,
}

impl<'s, 'a> Model for TaskPlaces<'s, 'a> {
    ghost use Rattle.std.specs.Prelude.{◌≤◌, All, length};
    ghost use Rattle.rt_words.specs.Limits.{line_limit};
    ghost use Rattle.rt_effects.specs.TraceText.{TaskWords};

    ghost Value = { TaskWords };

    ghost view = { λ t. record { name = t.name; labels = t.places } };

    ghost invariant = { λ t. All (λ l. length l.name ≤ line_limit) t.places };
}

impl<'s, 'a> TaskPlaces<'s, 'a> {
    /// Those of task `number`.
    fn new(alloc: Global, number: u32, task: &'s Task<'a>) -> Result<TaskPlaces<'s, 'a>, AllocError>
        requires { IsObject (object_value task.now.object) }
        ensures { IfOk result (λ made. made ≡ words_of number (set_task task.now)) }
    {
        let name = TaskName::of(number, &task.object);
        let places = Places::new(alloc, task.object.symbols.as_slice())?;
        Ok(TaskPlaces { name, places })
    }

    /// Appends where the task is at an address: at most 1036 bytes.
    fn push_place(&self, line: &mut TraceLine, has_name: bool, address: u32)
        requires { array_vec_len line.old ≤ 64 }
        ensures text { line.new.items ≡ line.old.items ++ place_text has_name self.now address }
        ensures room { array_vec_len line.new ≤ array_vec_len line.old + 1036 }
    {
        if has_name {
            self.name.push(line);
            push_byte(line, b':');
        }
        push_part(line, self.places.namer_at(address), address);
    }
}

/// How many instructions are kept.
const KEPT: usize = 1024;

/// Where an instruction is kept: tasks whose programs lie at the same addresses have places of their own.
#[inline(always)]
fn slot_of(task: u32, pc: u32) -> usize
    ensures { result < KEPT }
{
    (pc / 4).wrapping_add(task.wrapping_mul(112)) as usize % KEPT
}

/// The names and the symbols of the tasks of a system, and what is reported of the instructions that ran lately. Contracts see the names
/// and the symbols of each task, in order.
#[derive(Drop)]
pub struct Teller<'s, 'a> {
    tasks: Vec<TaskPlaces<'s, 'a>>,
    kept: Vec<Option<Kept>>,
}

impl<'s, 'a> Model for Teller<'s, 'a> {
    ghost use Rattle.std.specs.Prelude.{◌≡◌, List, All, IfSome, length};
    ghost use Rattle.rt_effects.specs.TraceText.{TaskWords};
    ghost use Rattle.rt_effects.specs.Working.Kept.{IsKept};

    ghost Value = { List TaskWords };

    ghost view = { λ t. t.tasks.items };

    ghost invariant = { λ t. (length t.kept.items ≡ 1024) × All (λ k. IfSome k (IsKept t.tasks.items)) t.kept.items };
}

impl<'s, 'a> Teller<'s, 'a> {
    /// Those of a system. All room that lines need is taken here, some 180 KiB and what the symbols need.
    ///
    /// # Errors
    ///
    /// There is no memory for them.
    pub fn new(alloc: Global, system: &'s System<'a>) -> Result<Teller<'s, 'a>, AllocError>
        requires { IsSystem (task_set system.now) }
        ensures { IfOk result (λ made. made ≡ words_in (task_set system.now)) }
    {
        let mut tasks = Vec::new(alloc);
        for (number, task) in system.tasks.iter().enumerate() {
            tasks.push(TaskPlaces::new(alloc, number as u32, task)?)?;
        }
        let mut kept = Vec::new(alloc);
        kept.resize(KEPT, None)?;
        Ok(Teller { tasks, kept })
    }

    /// Appends what stands between the tick of a line and what a word of task `number` at `pc` did.
    fn push_middle(&self, line: &mut TraceLine, number: u32, pc: u32, word: Option<u32>)
        requires short { array_vec_len line.old ≤ 20 }
        requires task { number < length self.now }
        ensures text { (w : TaskWords) → slice_get self.now number ≡ Some w → line.new.items ≡ line.old.items ++ middle_text (nat_lt 1 (length self.now)) w number pc word }
        ensures room { array_vec_len line.new ≤ array_vec_len line.old + 1094 }
    {
        let tasks = self.tasks.as_slice();
        push_byte(line, b'\t');
        push_decimal(line, u64::from(number));
        push_byte(line, b'\t');
        push_hex(line, pc);
        push_byte(line, b'\t');
        tasks[number as usize].push_place(line, tasks.len() > 1, pc);
        push_byte(line, b'\t');
        push_instruction(line, pc, word);
        push_byte(line, b'\t');
    }

    /// Appends the line of the attempt of tick `t` to an empty line, with the task's registers before the tick, and its pc and
    /// registers after it. Takes no memory.
    pub fn push_tick(
        &self,
        line: &mut TraceLine,
        t: u64,
        rec: &Attempt,
        before: &[u32; 32],
        next: u32,
        x: &[u32; 32],
    )
        requires empty { array_vec_len line.old ≡ 0 }
        requires task { rec.now.task < length self.now }
        ensures { (w : TaskWords) → slice_get self.now rec.now.task ≡ Some w →
            line.new.items ≡ busy_line (nat_lt 1 (length self.now)) w before.now (record { pc = next; x = x.now }) t rec.now }
    {
        push_decimal(line, t);
        self.push_middle(line, rec.task, rec.pc, rec.word);
        push_did(line, before, next, x, rec);
        push_byte(line, b'\n');
    }

    /// Builds up the line of the attempt of tick `t`.
    #[cold]
    #[inline(never)]
    fn tell(
        &self,
        line: &mut TraceLine,
        t: u64,
        rec: &Attempt,
        before: &[u32; 32],
        next: u32,
        x: &[u32; 32],
    )
        requires task { rec.now.task < length self.now }
        ensures { (w : TaskWords) → slice_get self.now rec.now.task ≡ Some w →
            line.new.items ≡ busy_line (nat_lt 1 (length self.now)) w before.now (record { pc = next; x = x.now }) t rec.now }
    {
        line.clear();
        self.push_tick(line, t, rec, before, next, x);
    }

    /// Builds up what stands before what a word of task `number` did at `pc` in the line of tick `t`, and keeps what can be kept of it.
    fn push_kept(
        &mut self,
        line: &mut TraceLine,
        t: u64,
        number: u32,
        pc: u32,
        word: u32,
        instruction: &Ins,
    )
        requires task { number < length self.old }
        requires decoded { ins word ≡ Some instruction.now }
        ensures same { self.new ≡ self.old }
        ensures text { (w : TaskWords) → slice_get self.old number ≡ Some w →
            line.new.items ≡ decimal t ++ middle_text (nat_lt 1 (length self.old)) w number pc (Some word) }
        ensures room { array_vec_len line.new ≤ 1114 }
    {
        line.clear();
        push_decimal(line, t);
        let from = line.len();
        self.push_middle(line, number, pc, Some(word));
        self.kept[slot_of(number, pc)] = Kept::new(&line[from..], number, pc, word, *instruction);
    }

    /// Builds up the line of tick `t`, in which task `number` carried out a word, and keeps what can be kept of it.
    #[cold]
    #[inline(never)]
    fn tell_plain(
        &mut self,
        line: &mut TraceLine,
        t: u64,
        number: u32,
        pc: u32,
        word: u32,
        before: &[u32; 32],
        next: u32,
        x: &[u32; 32],
    )
        requires task { number < length self.old }
        ensures same { self.new ≡ self.old }
        ensures text { (w : TaskWords) → slice_get self.old number ≡ Some w →
            line.new.items ≡ busy_line (nat_lt 1 (length self.old)) w before.now (record { pc = next; x = x.now }) t (plain_attempt number pc word) }
    {
        match decode(word) {
            Some(instruction) => {
                self.push_kept(line, t, number, pc, word, &instruction);
                push_carried_out(line, before, next, x, pc, instruction);
                push_byte(line, b'\n');
            }
            None => {
                let rec = Attempt {
                    task: number,
                    pc,
                    word: Some(word),
                    outcome: AttemptOutcome::Next,
                };
                self.tell(line, t, &rec, before, next, x);
            }
        }
    }

    /// Appends the line of tick `t`, in which task `number` carried out a word, to a page, with the task's registers before the tick in
    /// `scratch`, and its pc and registers after it.
    #[inline(always)]
    fn put_plain(
        &mut self,
        page: &mut Page<'_>,
        scratch: &mut Scratch,
        t: u64,
        number: u32,
        pc: u32,
        word: u32,
        next: u32,
        x: &[u32; 32],
    )
        requires limit { t ≤ MAX_TICKS }
        requires task { number < length self.old }
        requires room { length page.old + LINE_ROOM ≤ PAGE_LEN }
        ensures same { self.new ≡ self.old }
        ensures text { (w : TaskWords) → slice_get self.old number ≡ Some w →
            page.new ≡ page.old ++ busy_line (nat_lt 1 (length self.old)) w scratch.old.before (record { pc = next; x = x.now }) t (plain_attempt number pc word) }
        ensures short { length page.new ≤ length page.old + TRACE_LINE_LEN }
    {
        let Scratch {
            line,
            before,
            hundred,
        } = scratch;
        if let Some(kept) = &self.kept[slot_of(number, pc)]
            && kept.is_of(number, pc, word)
        {
            kept.put_line(page, hundred, t, before, next, x);
            return;
        }
        self.tell_plain(line, t, number, pc, word, before, next, x);
        page.put_text(line);
    }

    /// Appends the line of the attempt of tick `t` to a page, with the task's registers before the tick in `scratch`, and its pc and
    /// registers after it.
    #[inline(always)]
    pub(crate) fn put_tick(
        &mut self,
        page: &mut Page<'_>,
        scratch: &mut Scratch,
        t: u64,
        rec: Attempt,
        next: u32,
        x: &[u32; 32],
    )
        requires limit { t ≤ MAX_TICKS }
        requires task { rec.task < length self.old }
        requires room { length page.old + LINE_ROOM ≤ PAGE_LEN }
        ensures same { self.new ≡ self.old }
        ensures text { (w : TaskWords) → slice_get self.old rec.task ≡ Some w →
            page.new ≡ page.old ++ busy_line (nat_lt 1 (length self.old)) w scratch.old.before (record { pc = next; x = x.now }) t rec }
        ensures short { length page.new ≤ length page.old + TRACE_LINE_LEN }
    {
        match rec {
            Attempt {
                task,
                pc,
                word: Some(word),
                outcome: AttemptOutcome::Next,
            } => self.put_plain(page, scratch, t, task, pc, word, next, x),
            Attempt {
                task,
                pc,
                word,
                outcome,
            } => {
                // Made anew here, so that the attempt itself stays in registers.
                let rec = Attempt {
                    task,
                    pc,
                    word,
                    outcome,
                };
                let Scratch { line, before, .. } = scratch;
                self.tell(line, t, &rec, before, next, x);
                page.put_text(line);
            }
        }
    }
}
