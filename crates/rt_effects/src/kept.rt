//! What is reported of an instruction at an address, but for what changes from tick to tick.

ghost use Rattle.std.specs.Prelude.{◌≡◌, ◌*◌, ◌+◌, ◌≤◌, ◌<◌, ◌==◌, ◌++◌, ◌||◌, true, List, ℕ, length, take, nat_lt, slice_get, slice_index, is_some, not, codes, Some, IfSome};
ghost use Rattle.std.specs.List.{filter_map};
ghost use Rattle.std.specs.Option.{option_map};
ghost use Rattle.rt_words.specs.Hex.{hex};
ghost use Rattle.rt_isa.specs.Table.{ins};
ghost use Rattle.rt_isa.specs.declared.instruction.Ins.{Ins};
ghost use Rattle.rt_exec.specs.Arithmetic.{extended};
ghost use Rattle.rt_points.specs.Access.{accessed};
ghost use Rattle.rt_core.specs.Plain.{plain_attempt};
ghost use Rattle.rt_effects.specs.Did.{target, source, access_text, jumped, carried_out, joined};
ghost use Rattle.rt_effects.specs.TraceText.{TaskWords, busy_line};
ghost use Rattle.rt_effects.specs.Working.Pieces.{comma, piece_text, nothing};
ghost use Rattle.rt_effects.specs.Working.Kept.{number_of, name_text, value_text, reached, IsReach, IsSound, IsKept};

use crate::instruction::{push_name, source, target};
use crate::page::{LINE_ROOM, PAGE_LEN, Page};
use arrayvec::ArrayVec;
use rt_isa::{Imm12, Ins, Reg};
use rt_sink::push_text;
use rt_trace::Hundred;
use rt_words::{MAX_TICKS, hex_words};

/// The most bytes of a text that is kept.
pub(crate) const KEPT_LEN: usize = 128;

/// What an instruction loads or stores, whatever the registers.
#[derive(Clone, Copy)]
pub(crate) struct Reach {
    is_store: bool,
    /// The number of the register that the address is displaced from.
    base: u8,
    /// The number of the register whose low bytes are stored.
    source: u8,
    /// How far, modulo 2^32.
    offset: u32,
    /// How many bytes.
    bytes: u32,
}

/// What is reported of an instruction of a task at an address whenever it is carried out: its lines from the tick on, up to the value of
/// the register that it writes.
#[derive(Clone, Copy)]
pub(crate) struct Kept {
    task: u32,
    pc: u32,
    word: u32,
    /// The number of the register that it writes; 0 where it writes none.
    written: u8,
    reach: Option<Reach>,
    /// How many bytes of the text count.
    len: usize,
    text: [u8; KEPT_LEN],
}

/// The reach of so many bytes from a register displaced by an immediate.
#[inline]
fn reach_from(is_store: bool, base: Reg, offset: Imm12, bytes: u32, source: usize) -> Reach
    requires { source < 32 }
    ensures { result ≡ record { is_store = is_store; base = base; source = source; offset = extended offset; bytes = bytes } }
{
    Reach {
        is_store,
        base: base.number(),
        source: source as u8,
        offset: i32::from(offset.value()).cast_unsigned(),
        bytes,
    }
}

/// What an instruction loads or stores; none where it is no load and no store.
pub(crate) fn reach_of(instruction: Ins) -> Option<Reach>
    ensures accessed { (x : List ℕ) → accessed x instruction ≡ option_map (λ r. reached r x) result }
    ensures source { IfSome result (λ r. r.source ≡ source instruction) }
    ensures small { IfSome result IsReach }
{
    let stored = source(&instruction);
    match instruction {
        Ins::Lb(_, base, offset) => Some(reach_from(false, base, offset, 1, stored)),
        Ins::Lh(_, base, offset) => Some(reach_from(false, base, offset, 2, stored)),
        Ins::Lw(_, base, offset) => Some(reach_from(false, base, offset, 4, stored)),
        Ins::Lbu(_, base, offset) => Some(reach_from(false, base, offset, 1, stored)),
        Ins::Lhu(_, base, offset) => Some(reach_from(false, base, offset, 2, stored)),
        Ins::Sb(base, _, offset) => Some(reach_from(true, base, offset, 1, stored)),
        Ins::Sh(base, _, offset) => Some(reach_from(true, base, offset, 2, stored)),
        Ins::Sw(base, _, offset) => Some(reach_from(true, base, offset, 4, stored)),
        _ => None,
    }
}

/// The number of the register that an instruction writes; 0 where it writes none.
pub(crate) fn number_written(instruction: &Ins) -> u8
    ensures number { result ≡ number_of (target instruction.now) }
    ensures within { result < 32 }
{
    match target(instruction) {
        Some(rd) => rd.number(),
        None => 0,
    }
}

/// Appends the text that is kept.
#[inline(always)]
fn put_front(page: &mut Page<'_>, text: &[u8; KEPT_LEN], len: usize)
    requires few { len ≤ KEPT_LEN }
    requires room { length page.old + KEPT_LEN ≤ PAGE_LEN }
    ensures text { page.new ≡ page.old ++ take len text.now }
    ensures short { length page.new ≡ length page.old + len }
{
    if len <= 64 {
        page.put_front::<64>(text, len);
    } else {
        page.put_front::<64>(text, 64);
        page.put_front::<64>(&text[64..], len - 64);
    }
}

/// Appends the value of the register that was written, and answers whether one was.
#[inline(always)]
fn put_value(page: &mut Page<'_>, written: u8, x: &[u32; 32]) -> bool
    requires within { written < 32 }
    requires room { length page.old + 8 ≤ PAGE_LEN }
    ensures text { page.new ≡ page.old ++ value_text written x.now }
    ensures begun { result ≡ not (written == 0) }
    ensures short { length page.new ≤ length page.old + 8 }
{
    if written == 0 {
        return false;
    }
    page.put_hex(x[written as usize]);
    true
}

/// Appends what parts a piece from those before it.
#[inline(always)]
fn put_comma(page: &mut Page<'_>, begun: bool)
    requires { length page.old + 2 ≤ PAGE_LEN }
    ensures text { page.new ≡ page.old ++ comma begun }
    ensures short { length page.new ≤ length page.old + 2 }
{
    if begun {
        page.put_front::<2>(b", ", 2);
    }
}

/// Appends two digits for each of so many of the low bytes of a value, 0 to 4.
#[inline(always)]
fn put_low_bytes(page: &mut Page<'_>, bytes: u32, value: u32)
    requires few { bytes ≤ 4 }
    requires room { length page.old + 8 ≤ PAGE_LEN }
    ensures text { page.new ≡ page.old ++ hex (2 * bytes) value }
    ensures short { length page.new ≤ length page.old + 8 }
{
    let count = 2 * bytes as usize;
    let digits = hex_words(value, 0);
    page.put_front::<8>(&digits[8 - count..], count);
}

/// Appends a load or a store, with the registers before it: at most 19 bytes.
#[inline(always)]
fn put_touched(page: &mut Page<'_>, reach: &Reach, x: &[u32; 32])
    requires small { IsReach reach.now }
    requires room { length page.old + 32 ≤ PAGE_LEN }
    ensures text { page.new ≡ page.old ++ access_text (reached reach.now x.now) (slice_index x.now reach.now.source) }
    ensures short { length page.new ≤ length page.old + 19 }
{
    let address = x[reach.base as usize].wrapping_add(reach.offset);
    if reach.is_store {
        page.put_front::<1>(b"[", 1);
        page.put_hex(address);
        page.put_front::<2>(b"]=", 2);
        put_low_bytes(page, reach.bytes, x[reach.source as usize]);
    } else {
        page.put_front::<8>(b"from    ", 5);
        page.put_hex(address);
    }
}

/// Appends a load or a store, if there is one, behind other pieces or as the first, and answers whether there are pieces: at most 21
/// bytes.
#[inline(always)]
fn put_access(page: &mut Page<'_>, begun: bool, reach: &Option<Reach>, x: &[u32; 32]) -> bool
    requires small { IfSome reach.now IsReach }
    requires room { length page.old + 40 ≤ PAGE_LEN }
    ensures text { page.new ≡ page.old ++ piece_text begun (option_map (λ r. access_text (reached r x.now) (slice_index x.now r.source)) reach.now) }
    ensures begun { result ≡ (begun || is_some reach.now) }
    ensures short { length page.new ≤ length page.old + 21 }
{
    match reach {
        Some(reach) => {
            put_comma(page, begun);
            put_touched(page, reach, x);
            true
        }
        None => begun,
    }
}

/// Appends where control went, if not to the word behind, and answers whether there are pieces: at most 13 bytes.
#[inline(always)]
fn put_jumped(page: &mut Page<'_>, begun: bool, pc: u32, next: u32) -> bool
    requires { length page.old + 16 ≤ PAGE_LEN }
    ensures text { page.new ≡ page.old ++ piece_text begun (jumped pc next) }
    ensures begun { result ≡ (begun || is_some (jumped pc next)) }
    ensures short { length page.new ≤ length page.old + 13 }
{
    if next == pc.wrapping_add(4) {
        return begun;
    }
    put_comma(page, begun);
    page.put_front::<4>(b"pc= ", 3);
    page.put_hex(next);
    true
}

/// Appends the end of a line, behind a hyphen where there are no pieces.
#[inline(always)]
fn put_end(page: &mut Page<'_>, begun: bool)
    requires { length page.old + 2 ≤ PAGE_LEN }
    ensures text { page.new ≡ page.old ++ nothing begun ++ codes "\n" }
    ensures short { length page.new ≤ length page.old + 2 }
{
    if begun {
        page.put_front::<1>(b"\n", 1);
    } else {
        page.put_front::<2>(b"-\n", 2);
    }
}

impl Kept {
    /// What is kept of the instruction of a word, where this stands behind the tick in its lines; none where that is too long.
    pub(crate) fn new(
        middle: &[u8],
        task: u32,
        pc: u32,
        word: u32,
        instruction: Ins,
    ) -> Option<Kept>
        requires { ins word ≡ Some instruction }
        ensures sound { IfSome result IsSound }
        ensures of { IfSome result (λ kept. (kept.task ≡ task) × (kept.pc ≡ pc) × (kept.word ≡ word)) }
        ensures text { IfSome result (λ kept. take kept.len kept.text ≡ middle.now ++ name_text kept.written) }
    {
        if middle.len() > KEPT_LEN {
            return None;
        }
        let written = number_written(&instruction);
        let mut front = ArrayVec::<u8, 160>::new();
        push_text(&mut front, middle);
        push_name(&mut front, written);
        if front.len() > KEPT_LEN {
            return None;
        }
        let mut text = [0; KEPT_LEN];
        text[..front.len()].copy_from_slice(&front);
        Some(Kept {
            task,
            pc,
            word,
            written,
            reach: reach_of(instruction),
            len: front.len(),
            text,
        })
    }

    /// Whether it is of this word of this task at this address.
    #[inline(always)]
    pub(crate) fn is_of(&self, task: u32, pc: u32, word: u32) -> bool
        ensures task { result ≡ true → self.now.task ≡ task }
        ensures pc { result ≡ true → self.now.pc ≡ pc }
        ensures word { result ≡ true → self.now.word ≡ word }
    {
        self.task == task && self.pc == pc && self.word == word
    }

    /// Appends what the instruction did and the end of the line, behind the text that is kept, with the registers before, and pc and
    /// the registers after.
    #[inline(always)]
    fn put_did(&self, page: &mut Page<'_>, before: &[u32; 32], next: u32, x: &[u32; 32])
        requires sound { IsSound self.now }
        requires room { length page.old + 128 ≤ PAGE_LEN }
        ensures text { (front : List ℕ) (i : Ins) → ins self.now.word ≡ Some i → page.old ≡ front ++ name_text self.now.written →
            page.new ≡ front ++ joined (filter_map (λ p. p) (carried_out before.now (record { pc = next; x = x.now }) self.now.pc i)) ++ codes "\n" }
        ensures short { length page.new ≤ length page.old + 44 }
    {
        let begun = put_value(page, self.written, x);
        let begun = put_access(page, begun, &self.reach, before);
        let begun = put_jumped(page, begun, self.pc, next);
        put_end(page, begun);
    }

    /// Appends the line of tick `t`, in which the instruction was carried out, with the registers before, and pc and the registers
    /// after: at most 192 bytes.
    #[inline(always)]
    pub(crate) fn put_line(
        &self,
        page: &mut Page<'_>,
        hundred: &mut Hundred,
        t: u64,
        before: &[u32; 32],
        next: u32,
        x: &[u32; 32],
    )
        requires limit { t ≤ MAX_TICKS }
        requires sound { IsSound self.now }
        requires room { length page.old + LINE_ROOM ≤ PAGE_LEN }
        ensures text { (ws : List TaskWords) (w : TaskWords) → IsKept ws self.now → slice_get ws self.now.task ≡ Some w →
            page.new ≡ page.old ++ busy_line (nat_lt 1 (length ws)) w before.now (record { pc = next; x = x.now }) t (plain_attempt self.now.task self.now.pc self.now.word) }
        ensures short { length page.new ≤ length page.old + 192 }
    {
        page.put_tick(hundred, t);
        put_front(page, &self.text, self.len);
        self.put_did(page, before, next, x);
    }
}
