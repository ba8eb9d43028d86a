//! The names of tasks.

ghost use Rattle.std.specs.Prelude.{◌≡◌, ◌+◌, ◌^◌, ◌<◌, ◌≤◌, ◌++◌, length, true, Option, IfSome, bytes_eq};
ghost use Rattle.std.specs.Option.{option_map};
ghost use Rattle.arrayvec.specs.ArrayVec.{array_vec_len};
ghost use Rattle.rt_words.specs.Limits.{line_limit};
ghost use Rattle.rt_image.specs.ObjectFile.{IsObject, object_value, label, labels};
ghost use Rattle.rt_names.specs.TaskName.{is_plain, can_name, namer_among, own_namer, task_name};
ghost use Rattle.rt_names.specs.Working.Naming.{name_of};

use crate::parts::nearest_of;
use arrayvec::ArrayVec;
use rt_image::{Object, Symbol};
use rt_sink::{push_decimal, push_text};
use rt_text_out::{Decimal, Out, Text, plain};
use std::marker::Model;

/// The most bytes of the name of a task.
pub const TASK_NAME_LEN: usize = 512;

/// Whether a name begins neither with `_` nor with `.`.
fn is_plain(name: &[u8]) -> bool
    ensures { result ≡ is_plain name.now }
{
    match name {
        [b'_' | b'.', ..] => false,
        _ => true,
    }
}

/// Whether a symbol can name the task that begins at this entry.
fn can_name(symbol: &Symbol, entry: u32) -> bool
    ensures { result ≡ can_name entry (label symbol.now) }
{
    symbol.address == entry && is_plain(symbol.name)
}

/// Of these symbols the one that names the task that begins at an entry: of those there whose names begin neither with `_` nor with `.`, the one with
/// the shortest name, of several as short the first by their bytes.
pub fn namer_among<'a>(symbols: &[Symbol<'a>], entry: u32) -> Option<Symbol<'a>>
    ensures { option_map label result ≡ namer_among entry (labels symbols.now) }
{
    let mut found: Option<Symbol<'a>> = None;
    for symbol in symbols {
        if can_name(symbol, entry) {
            found = Some(nearest_of(found, *symbol));
        }
    }
    found
}

/// The symbol that names the task of an object; none where no symbol at its entry can.
pub fn own_namer<'a>(object: &Object<'a>) -> Option<Symbol<'a>>
    requires { IsObject (object_value object.now) }
    ensures namer { option_map label result ≡ own_namer (object_value object.now) }
    ensures short { IfSome result (λ s. length s.name.now ≤ line_limit) }
{
    namer_among(&object.symbols, object.entry)
}

/// The name of a task: that of a symbol at its entry, or `task` and its number. Contracts see the bytes.
#[derive(Drop)]
pub struct TaskName<'a> {
    number: u32,
    symbol: Option<Symbol<'a>>,
}

impl<'a> Model for TaskName<'a> {
    ghost use Rattle.std.specs.Prelude.{ℕ, List, ◌≤◌, IfSome, length};
    ghost use Rattle.std.specs.Option.{option_map};
    ghost use Rattle.rt_words.specs.Limits.{line_limit};
    ghost use Rattle.rt_image.specs.ObjectFile.{label};
    ghost use Rattle.rt_names.specs.Working.Naming.{name_of};

    ghost Value = { List ℕ };

    ghost view = { λ name. name_of name.number (option_map label name.symbol) };

    ghost invariant = { λ name. IfSome name.symbol (λ s. length s.name.now ≤ line_limit) };
}

impl<'a> TaskName<'a> {
    /// The name of task `number`, which runs this object.
    pub fn of(number: u32, object: &Object<'a>) -> TaskName<'a>
        requires { IsObject (object_value object.now) }
        ensures { result ≡ task_name number (object_value object.now) }
    {
        TaskName {
            number,
            symbol: own_namer(object),
        }
    }

    /// Appends it: at most `TASK_NAME_LEN` bytes.
    #[inline]
    pub fn push<const N: usize>(&self, out: &mut ArrayVec<u8, N>)
        requires { array_vec_len out.old + TASK_NAME_LEN ≤ N }
        ensures text { out.new.items ≡ out.old.items ++ self.now }
        ensures room { array_vec_len out.new ≤ array_vec_len out.old + TASK_NAME_LEN }
    {
        match self.symbol {
            Some(symbol) => push_text(out, symbol.name),
            None => {
                push_text(out, b"task");
                push_decimal(out, u64::from(self.number));
            }
        }
    }

    /// Whether it is this word.
    pub fn is(&self, word: &str) -> bool
        ensures { result ≡ bytes_eq self.now word.now }
    {
        let mut name = ArrayVec::<u8, TASK_NAME_LEN>::new();
        self.push(&mut name);
        name.as_slice() == word.as_bytes()
    }
}

/// It, as a text.
impl<'a> Text for TaskName<'a> {
    ghost text = { λ name. name };

    ghost most = { 532 };

    fn offer<O: Out>(&self, out: &mut O) {
        match self.symbol {
            Some(symbol) => plain(symbol.name).offer(out),
            None => (plain(b"task"), Decimal(u64::from(self.number))).offer(out),
        }
    }
}
