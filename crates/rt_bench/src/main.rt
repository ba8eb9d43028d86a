//! Times a queue or a fetcher.
//!
//! `rt_bench scan|heap|tournament ENTRIES TIMES` fills a queue, postpones its least entry again and again, as a busy machine
//! does, and prints the sum of the keys that were the least in turn. With no words it takes 64 entries and 1,000 times, with each
//! kind of queue.
//!
//! `rt_bench plain|predecoded TICKS` runs a loop of two instructions alone by this fetcher, and prints the text of the run.
//!
//! `rt_bench silent SYS TICKS` runs the system of this file and prints the tick that it comes to, and nothing of the ticks before.
#![tactic(auto)]

ghost use Rattle.std.specs.Prelude.{◌≡◌, length, IfOk};

use rt_core::Machine;
use rt_exec::{Fetcher, Plain, Predecoded};
use rt_fault_lines::FaultLines;
use rt_image::read_system;
use rt_programs::{SimFault, SoloTask, solo};
use rt_queue::heap::Heap;
use rt_queue::{MinQueue, Scan, Tournament};
use rt_sink::{Buffered, OverWrite};
use rt_token::value_up_to;
use std::alloc::{AllocError, Global};
use std::env::Env;
use std::io::Printer;
use std::process::ExitCode;
use std::rt::Files;
use std::{env, fs, io};

/// An object file of `addi x1,x1,1` and a jump back to it.
const LOOP: &[u8] =
    b"RTI1\x00\x00\x00\x80\x08\x00\x00\x00\x00\x00\x00\x00\x93\x80\x10\x00\x6f\xf0\xdf\xff";

/// A queue of all numbers below a capacity, each with itself as its key.
fn filled<Q: MinQueue>(alloc: Global, capacity: u32) -> Result<Q, AllocError>
    ensures { IfOk result (λ queue. length (Q.keys queue) ≡ capacity) }
{
    let mut queue = Q::make(alloc, capacity)?;
    for number in 0..capacity {
        if queue.key_of(number).is_none() {
            queue.insert(number, u64::from(number));
        }
    }
    Ok(queue)
}

/// Postpones the least entry by a period of its own, 1 to 7, and answers its key.
fn postpone<Q: MinQueue>(queue: &mut Q, capacity: u32) -> u64
    requires { length (Q.keys queue.old) ≡ capacity }
    ensures { length (Q.keys queue.new) ≡ capacity }
{
    let Some((key, number)) = queue.least() else {
        return 0;
    };
    queue.rekey_least((key, number), key.wrapping_add(u64::from(number % 7) + 1));
    key
}

/// The sum, modulo 2^64, of the least keys of so many postponements.
fn sum_of<Q: MinQueue>(alloc: Global, capacity: u32, times: u64) -> Result<u64, AllocError> {
    let mut queue: Q = filled(alloc, capacity)?;
    let mut sum = 0u64;
    for _ in 0..times {
        sum = sum.wrapping_add(postpone(&mut queue, capacity));
    }
    Ok(sum)
}

/// The number that a word spells in decimal, at most 2^32 - 1; else the other one.
fn number_or(word: Option<&String>, other: u64) -> u64 {
    match word {
        Some(word) => value_up_to(0xffff_ffff, 10, word.as_bytes()).unwrap_or(other),
        None => other,
    }
}

/// Times the queues that the words ask for, and prints the sums.
fn time_queues<R: Print + AllocGlobal>(rt: &R, words: &[String], kind: &str) -> io::Result<()> {
    let entries = (number_or(words.get(2), 64) % 65_536) as u32;
    let times = number_or(words.get(3), 1000);
    let all = kind.is_empty();
    if all || kind == "scan" {
        println!(rt; "scan {}", sum_of::<Scan>(rt.alloc(), entries, times)?)?;
    }
    if all || kind == "heap" {
        println!(rt; "heap {}", sum_of::<Heap>(rt.alloc(), entries, times)?)?;
    }
    if all || kind == "tournament" {
        println!(rt;
            "tournament {}",
            sum_of::<Tournament>(rt.alloc(), entries, times)?
        )?;
    }
    Ok(())
}

/// Runs the loop by a fetcher, and prints the text of the run.
fn print_loop<F: Fetcher, R: Print + AllocGlobal>(rt: &R, ticks: u64) -> Result<(), SimFault> {
    let Ok(mut out) = Buffered::new(rt.alloc(), OverWrite::new(io::writer(rt))) else {
        return Err(SimFault::Memory);
    };
    solo::<Tournament, F, Buffered<OverWrite<Printer<'_, R>>>>(
        rt.alloc(),
        LOOP,
        SoloTask {
            ram: 64,
            split: false,
        },
        ticks,
        &mut out,
        &mut FaultLines::none(),
    )?;
    Ok(out.flush()?)
}

/// Where the system of a file stands after so many ticks, of which nothing is reported.
fn tick_after(alloc: Global, system: &[u8], ticks: u64) -> Result<u64, SimFault> {
    let system = read_system(alloc, system)?;
    let mut machine: Machine<Tournament, Predecoded> = Machine::load(alloc, &system)?;
    machine.run(ticks);
    Ok(machine.now())
}

/// Runs the system of the file of this path, and prints the tick that it comes to.
fn run_silently<R: Print + AllocGlobal + Files>(
    rt: &R,
    path: Option<&String>,
    ticks: u64,
) -> io::Result<bool> {
    let Some(path) = path else {
        return Ok(false);
    };
    let system = fs::read(rt, path.as_str())?;
    match tick_after(rt.alloc(), &system, ticks) {
        Ok(tick) => {
            println!(rt; "{tick}")?;
            Ok(true)
        }
        Err(_) => Ok(false),
    }
}

/// Does what the words ask for.
fn run<R: Print + AllocGlobal + Env + Files>(rt: &R) -> io::Result<bool> {
    let words: Vec<String> = env::args(rt)?.collect(rt.alloc())?;
    let kind = match words.get(1) {
        Some(word) => word.as_str(),
        None => "",
    };
    let ticks = number_or(words.get(2), 1000);
    match kind {
        "silent" => run_silently(rt, words.get(2), number_or(words.get(3), 1000)),
        "plain" => Ok(print_loop::<Plain, R>(rt, ticks).is_ok()),
        "predecoded" => Ok(print_loop::<Predecoded, R>(rt, ticks).is_ok()),
        _ => {
            time_queues(rt, &words, kind)?;
            Ok(true)
        }
    }
}

fn main(rt: HostRuntime) -> ExitCode {
    match run(&rt) {
        Ok(true) => ExitCode::SUCCESS,
        _ => ExitCode::from(3),
    }
}
