//! What the commands show that look at a task or at the ring, and its text.

ghost use Rattle.std.specs.Prelude.{◌≡◌, ◌+◌, ◌^◌, ◌<◌, ◌≤◌, ◌++◌, length, false};
ghost use Rattle.rt_sink.specs.Sink.{Counts};
ghost use Rattle.rt_core.specs.View.{lent};
ghost use Rattle.rt_debug.specs.reply.Shown.{pending_text, server_shown, word_line, words_shown, trace_shown};
ghost use Rattle.rt_debug.specs.reply.ShownText.{bytes_lent, shown_text};

use arrayvec::ArrayVec;
use byteorder::{ByteOrder, LittleEndian};
use rt_core::View;
use rt_history::ring::Ring;
use rt_isa::{WordLine, push_word_text};
use rt_sink::{DeviceFault, LINE_LEN, Sink, push_byte, push_hex};
use rt_text_out::{Byte, Decimal, Hex, Out, Text, word, write};
use rt_trace::{Digits, EntryLine, ModeWords, OutLine, RegsLine};

/// The most bytes of RAM or output that are shown.
const SHOWN_LEN: usize = 17_179_869_183;

/// The most bytes of the line of a task's mode and server.
const SERVER_LEN: usize = 2 * LINE_LEN;

/// The line of a task's mode and server.
pub type ServerLine = ArrayVec<u8, SERVER_LEN>;

/// What a command shows: values of a session, lent and not copied.
#[derive(Clone, Copy)]
pub enum Shown<'a> {
    /// A task's pc and registers.
    Regs(View<'a>),
    /// The mode of the task of this number, and its server.
    Server { task: u32, view: View<'a> },
    /// Bytes of RAM, the first of them at this address.
    Mem { address: u32, bytes: &'a [u8] },
    /// Whole words of RAM as text, the first of them at this address.
    Words { address: u32, bytes: &'a [u8] },
    /// A task's output.
    Out(&'a [u8]),
    /// The last `count` entries of a ring, or all where it keeps fewer.
    Trace { ring: &'a Ring, count: u32 },
}

/// The budget that is pending, if there is one.
#[derive(Clone, Copy)]
struct Pending(Option<u32>);

impl Text for Pending {
    ghost text = { λ x. pending_text x.0 };

    ghost most = { 36 };

    fn offer<O: Out>(&self, out: &mut O) {
        match self.0 {
            Some(q) => (word(b" pending "), Decimal(u64::from(q))).offer(out),
            None => word(b"").offer(out),
        }
    }
}

/// The mode of the task of this number; budget left, deadline, budget and period of its server, in ticks, and the budget that is pending.
#[derive(Clone, Copy)]
struct ServerWords<'v> {
    task: u32,
    view: View<'v>,
}

impl<'v> Text for ServerWords<'v> {
    ghost text = { λ x. server_shown x.task (lent x.view) };

    ghost most = { 254 };

    fn offer<O: Out>(&self, out: &mut O) {
        let view = self.view;
        let task = (word(b"task "), Decimal(u64::from(self.task)), Byte(b' '));
        let left = (word(b" c "), Decimal(u64::from(view.c)));
        let deadline = (left, word(b" d "), Decimal(view.d));
        let budget = (deadline, word(b" q "), Decimal(u64::from(view.q)));
        let period = (budget, word(b" p "), Decimal(u64::from(view.p)));
        let account = (period, Pending(view.pending), Byte(b'\n'));
        (task, ModeWords(view.mode), account).offer(out);
    }
}

/// The line of the mode of the task of this number, and of its server. Takes no memory.
pub fn server_line(task: u32, view: &View) -> ServerLine
    ensures { result.items ≡ server_shown task (lent view.now) }
{
    let mut line = ServerLine::new();
    ServerWords { task, view: *view }.offer(&mut line);
    line
}

/// The line of a word at an address.
#[derive(Clone, Copy)]
struct WordText {
    address: u32,
    word: u32,
}

impl Text for WordText {
    ghost text = { λ x. word_line x.address x.word };

    ghost most = { 64 };

    fn offer<O: Out>(&self, out: &mut O) {
        let mut line = WordLine::new();
        push_hex(&mut line, self.address);
        push_byte(&mut line, b' ');
        push_hex(&mut line, self.word);
        push_byte(&mut line, b' ');
        push_word_text(&mut line, self.address, self.word);
        push_byte(&mut line, b'\n');
        out.put(&line);
    }
}

/// The whole words of these bytes, one a line, the first of them at this address.
#[derive(Clone, Copy)]
struct WordLines<'a> {
    start: u32,
    bytes: &'a [u8],
    ghost few: { length bytes.now < 2 ^ 34 },
}

impl<'a> Text for WordLines<'a> {
    ghost text = { λ x. words_shown x.start x.bytes.now };

    ghost most = { 274877906944 };

    fn offer<O: Out>(&self, out: &mut O) {
        let mut address = self.start;
        let mut rest = self.bytes;
        while rest.len() >= 4 {
            let line = WordText {
                address,
                word: LittleEndian::read_u32(rest),
            };
            line.offer(out);
            let (_word, after) = rest.split_at(4);
            rest = after;
            address = address.wrapping_add(4);
        }
    }
}

/// The lines of the last `count` entries of a ring, or of all where it keeps fewer.
#[derive(Clone, Copy)]
struct RingLines<'r> {
    ring: &'r Ring,
    count: u32,
}

impl<'r> Text for RingLines<'r> {
    ghost text = { λ x. trace_shown x.count x.ring.now.items };

    ghost most = { 687194767360 };

    fn offer<O: Out>(&self, out: &mut O) {
        let ring = self.ring;
        if ring.is_empty() {
            word(b"empty\n").offer(out);
            return;
        }
        let start = ring.len().saturating_sub(self.count as usize);
        for place in start..ring.len() {
            EntryLine(ring.get(place).unwrap()).offer(out);
        }
    }
}

/// What is shown.
#[derive(Clone, Copy)]
struct ShownText<'s, 'a> {
    shown: &'s Shown<'a>,
    ghost few: { length (bytes_lent shown.now) < 2 ^ 34 },
}

impl<'s, 'a> Text for ShownText<'s, 'a> {
    ghost text = { λ x. shown_text x.shown.now };

    ghost most = { 1099511627776 };

    fn offer<O: Out>(&self, out: &mut O) {
        match *self.shown {
            Shown::Regs(view) => {
                let pc = (word(b"pc "), Hex(view.pc), Byte(b' '));
                (pc, RegsLine(view.x)).offer(out);
            }
            Shown::Server { task, view } => ServerWords { task, view }.offer(out),
            Shown::Mem { address, bytes } => {
                let front = (word(b"mem "), Hex(address), Byte(b' '));
                let digits = Digits::<'_, SHOWN_LEN> { bytes };
                (front, digits, Byte(b'\n')).offer(out);
            }
            Shown::Words { address, bytes } => {
                let lines = WordLines {
                    start: address,
                    bytes,
                };
                lines.offer(out);
            }
            Shown::Out(bytes) => OutLine(Digits::<'_, SHOWN_LEN> { bytes }).offer(out),
            Shown::Trace { ring, count } => RingLines { ring, count }.offer(out),
        }
    }
}

/// Writes the text of what is shown to a sink that hasn't failed. Of RAM or output that is fewer than 2^34 bytes. The answer is the
/// text's length in bytes. Takes no memory.
///
/// # Errors
///
/// The sink failed. `written` is how many of the first bytes it took.
pub fn write_shown<S: Sink>(sink: &mut S, shown: &Shown) -> Result<u64, DeviceFault>
    requires is_open { (S.seen sink.old).failed ≡ false }
    requires few { length (bytes_lent shown.now) < 2 ^ 34 }
    ensures { Counts S.seen sink.old (shown_text shown.now) result sink.new }
{
    write(&ShownText { shown }, sink)
}
