//! Commands that only look.

ghost use Rattle.std.specs.Prelude.{◌≡◌, ◌*◌, ◌<◌, ◌^◌, length, slice_get, IfOk, IfSome, Ok, Option};
ghost use Rattle.rt_words.specs.Chain.{mapped};
ghost use Rattle.rt_words.specs.Found.{Finds};
ghost use Rattle.rt_image.specs.ObjectFile.{labels};
ghost use Rattle.rt_image.specs.SystemFile.{set_tasks, task_set};
ghost use Rattle.rt_exec.specs.mem.Span.{span};
ghost use Rattle.rt_core.specs.View.{lent};
ghost use Rattle.rt_debug.specs.reply.Shown.{mem_shown, words_shown};
ghost use Rattle.rt_debug.specs.reply.ShownText.{bytes_lent, shown_text};
ghost use Rattle.rt_debug.specs.Looking.{view_of, of_task, of_span, words_in, shows, looked, address_in, symbol_in, address_of, pc_at, place_pc};

use crate::reply::Shown;
use rt_command::{Command, Place, Refusal};
use rt_core::{Machine, View};
use rt_exec::Fetcher;
use rt_exec::mem::span;
use rt_history::ring::Ring;
use rt_image::{Symbol, System, Task};
use rt_queue::MinQueue;

/// Whether a command shows a task or the ring: `regs`, `server`, `mem`, `list`, `out`, `trace`.
pub fn shows(command: &Command) -> bool
    ensures { result ≡ shows command.now }
{
    matches!(
        command,
        Command::Regs(_)
            | Command::Server(_)
            | Command::Mem { .. }
            | Command::List { .. }
            | Command::Out(_)
            | Command::Trace(_)
    )
}

/// What a command shows of a machine of these tasks and of a ring. Takes no memory.
///
/// # Errors
///
/// `UnknownTask` before all others; `UnknownSymbol` for a name that the task's object hasn't; `BadAddress` for bytes that aren't all in RAM, or words that don't begin at a multiple of 4;
/// `UnknownCommand` for a command that shows nothing.
pub fn look<'a, Q: MinQueue, F: Fetcher>(
    tasks: &[Task],
    machine: &'a Machine<Q, F>,
    ring: &'a Ring,
    command: &Command,
) -> Result<Shown<'a>, Refusal>
    ensures text { mapped shown_text result ≡ looked (set_tasks tasks.now) machine.now ring.now.items command.now }
    ensures few { IfOk result (λ shown. length (bytes_lent shown) < 2 ^ 34) }
{
    match command {
        Command::Regs(task) => Ok(Shown::Regs(view(machine, *task)?)),
        Command::Server(task) => Ok(Shown::Server {
            task: *task,
            view: view(machine, *task)?,
        }),
        Command::Mem { task, place, count } => {
            let view = view(machine, *task)?;
            mem(&view, address_of(tasks, *task, place)?, *count)
        }
        Command::List { task, place, count } => {
            let view = view(machine, *task)?;
            list(&view, address_of(tasks, *task, place)?, *count)
        }
        Command::Out(task) => match machine.output(*task) {
            Some(output) => Ok(Shown::Out(output)),
            None => Err(Refusal::UnknownTask),
        },
        Command::Trace(count) => Ok(Shown::Trace {
            ring,
            count: *count,
        }),
        _ => Err(Refusal::UnknownCommand),
    }
}

/// What is shown of a task.
fn view<Q: MinQueue, F: Fetcher>(machine: &Machine<Q, F>, task: u32) -> Result<View<'_>, Refusal>
    ensures { mapped lent result ≡ of_task Ok (view_of machine.now task) }
{
    match machine.view(task) {
        Some(view) => Ok(view),
        None => Err(Refusal::UnknownTask),
    }
}

/// `mem` of a task.
fn mem<'a>(view: &View<'a>, address: u32, count: u32) -> Result<Shown<'a>, Refusal>
    ensures text { mapped shown_text result ≡ of_span (mem_shown address) (span view.now.ram.now address count) }
    ensures few { IfOk result (λ shown. length (bytes_lent shown) < 2 ^ 34) }
{
    match span(view.ram, address, u64::from(count)) {
        Some(bytes) => Ok(Shown::Mem { address, bytes }),
        None => Err(Refusal::BadAddress),
    }
}

/// `list` of a task.
fn list<'a>(view: &View<'a>, address: u32, count: u32) -> Result<Shown<'a>, Refusal>
    ensures text { mapped shown_text result ≡ of_span (words_shown address) (words_in view.now.ram.now address count) }
    ensures few { IfOk result (λ shown. length (bytes_lent shown) < 2 ^ 34) }
{
    match words(view.ram, address, count) {
        Some(bytes) => Ok(Shown::Words { address, bytes }),
        None => Err(Refusal::BadAddress),
    }
}

/// The words of `list`.
fn words<'a>(ram: &'a [u8], address: u32, count: u32) -> Option<&'a [u8]>
    ensures bytes { Finds (λ x. x.now) result (words_in ram.now address count) }
    ensures size { IfSome result (λ x. length x.now ≡ 4 * count) }
{
    if !address.is_multiple_of(4) {
        return None;
    }
    span(ram, address, 4 * u64::from(count))
}

/// The address of the first symbol of this name.
fn address_in(symbols: &[Symbol], name: &[u8]) -> Option<u32>
    ensures { result ≡ address_in (labels symbols.now) name.now }
{
    for symbol in symbols {
        if symbol.name == name {
            return Some(symbol.address);
        }
    }
    None
}

/// The address of a symbol of a task's object.
fn symbol_in(tasks: &[Task], task: u32, name: &[u8]) -> Option<u32>
    ensures { result ≡ symbol_in (slice_get (set_tasks tasks.now) task) name.now }
{
    let task = tasks.get(task as usize)?;
    address_in(&task.object.symbols, name)
}

/// The address that a place of a task names.
fn address_of(tasks: &[Task], task: u32, place: &Place) -> Result<u32, Refusal>
    ensures { result ≡ address_of (slice_get (set_tasks tasks.now) task) place.now }
{
    match place {
        Place::Address(address) => Ok(*address),
        Place::Symbol(name) => match symbol_in(tasks, task, name.bytes()) {
            Some(address) => Ok(address),
            None => Err(Refusal::UnknownSymbol),
        },
    }
}

/// The pc at an address, where a stop may be.
fn pc_at(view: &View, address: u32) -> Result<u32, Refusal>
    ensures { result ≡ pc_at address view.now.ram.now }
{
    if address.is_multiple_of(4) && span(view.ram, address, 4).is_some() {
        return Ok(address);
    }
    Err(Refusal::BadAddress)
}

/// The pc that a place of a task names, where a stop may be: a multiple of 4 whose word is in RAM. Takes no memory.
///
/// # Errors
///
/// `UnknownTask`, else `UnknownSymbol`, else `BadAddress`.
pub fn place_pc<Q: MinQueue, F: Fetcher>(
    system: &System,
    machine: &Machine<Q, F>,
    task: u32,
    place: &Place,
) -> Result<u32, Refusal>
    ensures { result ≡ place_pc (task_set system.now) machine.now task place.now }
{
    let view = view(machine, task)?;
    pc_at(&view, address_of(&system.tasks, task, place)?)
}
