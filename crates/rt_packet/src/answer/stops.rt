//! Why a task stopped.

ghost use Rattle.std.specs.Prelude.{◌≡◌, ◌+◌, ◌≤◌, ◌++◌};
ghost use Rattle.arrayvec.specs.ArrayVec.{array_vec_len};
ghost use Rattle.rt_packet.specs.answer.Stops.{signal_of, cause_text, stop_text, watched_text};

use crate::MAX_PAYLOAD;
use crate::answer::ids::{Ids, push_id};
use crate::answer::payload::Payload;
use rt_exec::Fault;
use rt_points::{BreakKind, Event, WatchKind, Watched};
use rt_sink::{push_hex, push_text};
use rt_words::hex_byte;

/// Why a task stopped.
#[derive(Clone, Copy, PartialEq, Eq)]
pub enum Stop {
    /// It was to stop here, as behind a step.
    Plain,
    /// It ended.
    Ended,
    /// It faulted so.
    Faulted(Fault),
    /// It had ended before.
    EndedBefore,
    /// It had faulted so before.
    FaultedBefore(Fault),
    /// The tick is reached at which it was to stop.
    AtTick,
    /// The debugger interrupted it.
    Interrupted,
    /// It met a breakpoint of this kind.
    Break(BreakKind),
    /// It met this watchpoint.
    Watch(Watched),
    /// This happened to it, and to the job of this number.
    Happened(Event, Option<u64>),
    /// It stepped back to the first tick.
    Begin,
    /// It stepped on to the last tick.
    End,
}

/// The signal of a fault.
fn signal_of(fault: Fault) -> u8
    ensures { result ≡ signal_of fault }
{
    match fault {
        Fault::Illegal => 4,
        Fault::Break => 5,
        Fault::JumpMisaligned | Fault::LoadMisaligned | Fault::StoreMisaligned => 10,
        Fault::FetchAccess | Fault::LoadAccess | Fault::StoreAccess => 11,
        Fault::UnknownCall => 12,
    }
}

/// Appends the watchpoint that is met: at most 16 bytes.
fn push_watched(out: &mut Payload, watched: Watched)
    requires { array_vec_len out.old + 16 ≤ MAX_PAYLOAD }
    ensures text { out.new.items ≡ out.old.items ++ watched_text watched.kind watched.address }
    ensures room { array_vec_len out.new ≤ array_vec_len out.old + 16 }
{
    match watched.kind {
        WatchKind::Write => push_text(out, b"watch:"),
        WatchKind::Read => push_text(out, b"rwatch:"),
        WatchKind::Access => push_text(out, b"awatch:"),
    }
    push_hex(out, watched.address);
    push_text(out, b";");
}

/// Appends the signal, and the cause where it is named: at most 18 bytes.
fn push_cause(out: &mut Payload, stop: Stop)
    requires { array_vec_len out.old + 18 ≤ MAX_PAYLOAD }
    ensures text { out.new.items ≡ out.old.items ++ cause_text stop }
    ensures room { array_vec_len out.new ≤ array_vec_len out.old + 18 }
{
    match stop {
        Stop::Plain | Stop::Happened(..) => push_text(out, b"05"),
        Stop::Ended | Stop::EndedBefore => push_text(out, b"0f"),
        Stop::Faulted(fault) | Stop::FaultedBefore(fault) => push_text(
            out,
            &hex_byte(signal_of(fault)),
        ),
        Stop::AtTick => push_text(out, b"00"),
        Stop::Interrupted => push_text(out, b"02"),
        Stop::Break(BreakKind::Software) => push_text(out, b"05swbreak:;"),
        Stop::Break(BreakKind::Hardware) => push_text(out, b"05hwbreak:;"),
        Stop::Watch(watched) => {
            push_text(out, b"05");
            push_watched(out, watched);
        }
        Stop::Begin => push_text(out, b"05replaylog:begin;"),
        Stop::End => push_text(out, b"05replaylog:end;"),
    }
}

/// Says why a task, from 0, stopped: `T`, the signal, the cause where it is named, and the task's id. Allocates nothing.
pub fn stop_answer(ids: Ids, stop: Stop, task: u32) -> Payload
    ensures { result.items ≡ stop_text ids stop task }
{
    let mut out = Payload::new();
    push_text(&mut out, b"T");
    push_cause(&mut out, stop);
    push_text(&mut out, b"thread:");
    push_id(&mut out, ids, task);
    push_text(&mut out, b";");
    out
}
