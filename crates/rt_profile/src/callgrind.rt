//! Ticks by address, in the format that callgrind_annotate reads.

ghost use Rattle.std.specs.Prelude.{◌≡◌, ◌+◌, ◌*◌, ◌^◌, ◌<◌, ◌≤◌, ◌++◌, codes, length, None, IfSome};
ghost use Rattle.std.specs.Option.{option_map};
ghost use Rattle.rt_words.specs.Limits.{line_limit};
ghost use Rattle.rt_image.specs.ObjectFile.{label};
ghost use Rattle.rt_names.specs.Parts.{part, namer};
ghost use Rattle.rt_profile.specs.CallgrindText.{function_line, cost_line, name_line, address_lines, cost_lines, task_head, totals_line};
ghost use Rattle.rt_profile.specs.Working.Told.{kept_at, executed, kept_costs};

use crate::rows::begins;
use crate::task_profile::TaskProfile;
use rt_image::Symbol;
use rt_text_out::{Byte, Decimal, Hex, InOne, Out, Text, plain};

/// The first lines.
pub(crate) const CALLGRIND_HEADER: &[u8] =
    b"# callgrind format\nversion: 1\ncreator: rt_sim\npositions: instr\nevents: Ticks\n\n";

/// Offers the line that names a part.
fn offer_function<O: Out>(out: &mut O, symbol: Option<Symbol<'_>>)
    requires { IfSome symbol (λ s. length s.name.now ≤ line_limit) }
    ensures offers { O.offers out.old (function_line (option_map label symbol.entry)) out.new }
    ensures short { length (function_line (option_map label symbol.entry)) ≤ 1536 }
{
    match symbol {
        Some(symbol) => (plain(b"fn="), plain(symbol.name), Byte(b'\n')).offer(out),
        None => plain(b"fn=???\n").offer(out),
    }
}

/// Offers the name of the part of an address, where it is the first of the part.
fn offer_name<O: Out>(out: &mut O, task: &TaskProfile<'_, '_>, is_first: bool, address: u32)
    ensures offers { O.offers out.old (name_line is_first (namer task.now.labels address)) out.new }
    ensures short { length (name_line is_first (namer task.now.labels address)) ≤ 1536 }
{
    if is_first {
        offer_function(out, task.namer_at(address));
    } else {
        out.put(b"");
    }
}

/// The line of an address.
#[derive(Clone, Copy)]
struct CostLine {
    address: u32,
    ticks: u64,
}

impl Text for CostLine {
    ghost text = { λ x. cost_line x.address x.ticks };

    ghost most = { 32 };

    fn offer<O: Out>(&self, out: &mut O) {
        let address = (Byte(b'0'), Byte(b'x'), Hex(self.address));
        let line = (address, Byte(b' '), Decimal(self.ticks), Byte(b'\n'));
        InOne { pieces: line }.offer(out);
    }
}

/// Offers the lines of an address, and answers the number of its part.
fn offer_address<O: Out>(
    out: &mut O,
    task: &TaskProfile<'_, '_>,
    before: Option<u32>,
    address: u32,
) -> u32
    ensures part { result ≡ part task.now.labels address }
    ensures offers { O.offers out.old (address_lines task.now.labels before address (kept_at task.now address)) out.new }
    ensures short { length (address_lines task.now.labels before address (kept_at task.now address)) ≤ 2048 }
{
    let part = task.part_at(address);
    offer_name(out, task, begins(before, part), address);
    let ticks = task.ticks_at(address);
    CostLine { address, ticks }.offer(out);
    part
}

/// Offers the lines of a task's addresses.
fn offer_addresses<O: Out>(out: &mut O, task: &TaskProfile<'_, '_>)
    ensures offers { O.offers out.old (cost_lines task.now.labels (kept_at task.now) None (executed task.now)) out.new }
    ensures short { length (cost_lines task.now.labels (kept_at task.now) None (executed task.now)) ≤ 536872960 }
{
    let mut walk = task.walk();
    let mut before = None;
    'addresses: while let Some(address) = walk.next() {
        before = Some(offer_address(out, task, before, address));
    }
}

/// Offers the lines that name a task.
fn offer_head<O: Out>(out: &mut O, number: u32)
    ensures offers { O.offers out.old (task_head number) out.new }
    ensures short { length (task_head number) ≤ 2048 }
{
    let number = Decimal(u64::from(number));
    let object = (plain(b"ob=task"), number);
    (object, plain(b"\nfl=task"), number, Byte(b'\n')).offer(out);
}

/// Offers what is reported of a task, if it has ticks.
pub(crate) fn offer_task<O: Out>(out: &mut O, number: u32, task: &TaskProfile<'_, '_>)
    ensures offers { O.offers out.old (kept_costs number task.now) out.new }
    ensures short { length (kept_costs number task.now) ≤ 2 ^ 30 }
{
    if task.is_idle() {
        return;
    }
    offer_head(out, number);
    offer_addresses(out, task);
    out.put(b"\n");
}

/// The last line.
#[derive(Clone, Copy)]
pub(crate) struct Totals(pub(crate) u64);

impl Text for Totals {
    ghost text = { λ x. totals_line x.0 };

    ghost most = { 600 };

    fn offer<O: Out>(&self, out: &mut O) {
        (plain(b"totals: "), Decimal(self.0), Byte(b'\n')).offer(out);
    }
}
