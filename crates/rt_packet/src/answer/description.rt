//! The description of the target.

ghost use Rattle.std.specs.Prelude.{◌≡◌, ◌≤◌, length};
ghost use Rattle.rt_packet.specs.answer.Description.{description, piece_text};

use crate::answer::payload::{Payload, first_of};
use rt_sink::push_text;

/// The most bytes of a piece.
const MAX_PIECE: u64 = 2048;

/// The description: the registers of a hart, and a task's tick, budget and deadline.
#[tactic(auto, unfolding(crate::specs::answer::Description::description))]
fn description() -> &'static [u8]
    ensures { result.now ≡ description }
{
    b"<?xml version=\"1.0\"?><!DOCTYPE target SYSTEM \"gdb-target.dtd\"><target version=\"1.0\">\
        <architecture>riscv:rv32</architecture><feature name=\"org.gnu.gdb.riscv.cpu\">\
        <reg name=\"zero\" bitsize=\"32\" regnum=\"0\"/><reg name=\"ra\" bitsize=\"32\" regnum=\"1\"/>\
        <reg name=\"sp\" bitsize=\"32\" regnum=\"2\"/><reg name=\"gp\" bitsize=\"32\" regnum=\"3\"/>\
        <reg name=\"tp\" bitsize=\"32\" regnum=\"4\"/><reg name=\"t0\" bitsize=\"32\" regnum=\"5\"/>\
        <reg name=\"t1\" bitsize=\"32\" regnum=\"6\"/><reg name=\"t2\" bitsize=\"32\" regnum=\"7\"/>\
        <reg name=\"fp\" bitsize=\"32\" regnum=\"8\"/><reg name=\"s1\" bitsize=\"32\" regnum=\"9\"/>\
        <reg name=\"a0\" bitsize=\"32\" regnum=\"10\"/><reg name=\"a1\" bitsize=\"32\" regnum=\"11\"/>\
        <reg name=\"a2\" bitsize=\"32\" regnum=\"12\"/><reg name=\"a3\" bitsize=\"32\" regnum=\"13\"/>\
        <reg name=\"a4\" bitsize=\"32\" regnum=\"14\"/><reg name=\"a5\" bitsize=\"32\" regnum=\"15\"/>\
        <reg name=\"a6\" bitsize=\"32\" regnum=\"16\"/><reg name=\"a7\" bitsize=\"32\" regnum=\"17\"/>\
        <reg name=\"s2\" bitsize=\"32\" regnum=\"18\"/><reg name=\"s3\" bitsize=\"32\" regnum=\"19\"/>\
        <reg name=\"s4\" bitsize=\"32\" regnum=\"20\"/><reg name=\"s5\" bitsize=\"32\" regnum=\"21\"/>\
        <reg name=\"s6\" bitsize=\"32\" regnum=\"22\"/><reg name=\"s7\" bitsize=\"32\" regnum=\"23\"/>\
        <reg name=\"s8\" bitsize=\"32\" regnum=\"24\"/><reg name=\"s9\" bitsize=\"32\" regnum=\"25\"/>\
        <reg name=\"s10\" bitsize=\"32\" regnum=\"26\"/><reg name=\"s11\" bitsize=\"32\" regnum=\"27\"/>\
        <reg name=\"t3\" bitsize=\"32\" regnum=\"28\"/><reg name=\"t4\" bitsize=\"32\" regnum=\"29\"/>\
        <reg name=\"t5\" bitsize=\"32\" regnum=\"30\"/><reg name=\"t6\" bitsize=\"32\" regnum=\"31\"/>\
        <reg name=\"pc\" bitsize=\"32\" regnum=\"32\" type=\"code_ptr\"/></feature>\
        <feature name=\"naphluy.machine\"><reg name=\"tick\" bitsize=\"64\" regnum=\"33\" type=\"uint64\" group=\"system\"/>\
        <reg name=\"budget\" bitsize=\"32\" regnum=\"34\" type=\"uint32\" group=\"system\"/>\
        <reg name=\"deadline\" bitsize=\"64\" regnum=\"35\" type=\"uint64\" group=\"system\"/></feature></target>"
}

/// A piece of the description: at most `count` and 2048 bytes of its text from the byte `offset` on, behind `l` where they are the
/// last, or `m` where others follow. At the end of the text and beyond it there are none: just `l`. Allocates nothing.
pub fn description_answer(offset: u64, count: u64) -> Payload
    ensures { result.items ≡ piece_text offset count }
{
    let text = description();
    let rest = &text[text.len().min(offset as usize)..];
    let piece = first_of(rest, count.min(MAX_PIECE) as usize);
    let mut out = Payload::new();
    let mark = if piece.len() == rest.len() {
        b"l"
    } else {
        b"m"
    };
    push_text(&mut out, mark);
    push_text(&mut out, piece);
    out
}
