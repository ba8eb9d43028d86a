//! What a terminal shows before each line of an input that is typed.

ghost use Rattle.std.specs.Prelude.{◌≡◌, ◌≤◌, length};

use std::io::{self, Read};

/// The longest line that is typed again by an empty one, with its end, in bytes: a longer one is no command.
const LINE_ROOM: usize = 514;

/// What comes before the first prompt.
const FIRST_LINE: &str = "rt_sim debug: quit or Ctrl-D leaves; rt_sim help debug has the commands";

/// The last line that was typed, with its end, if it has room.
#[derive(Drop)]
struct LastLine {
    bytes: [u8; LINE_ROOM],
    len: usize,
    /// Whether what is typed next begins a line.
    is_at_start: bool,
}

impl LastLine {
    /// None yet.
    fn new() -> LastLine {
        LastLine {
            bytes: [0; LINE_ROOM],
            len: 0,
            is_at_start: true,
        }
    }

    /// Puts the last line in place of an empty one, if both have room, and answers how many bytes stand there.
    fn repeat(&self, typed: &mut [u8]) -> usize
        requires { 1 ≤ length typed.old }
        ensures bound { result ≤ length typed.old }
        ensures size { length typed.new ≡ length typed.old }
    {
        match self.bytes.get(..self.len) {
            Some(last) if !last.is_empty() && last.len() <= typed.len() => {
                typed[..last.len()].copy_from_slice(last);
                last.len()
            }
            _ => 1,
        }
    }

    /// Keeps a line that was typed whole.
    fn keep(&mut self, typed: &[u8]) {
        let is_whole = self.is_at_start && typed.ends_with(b"\n");
        self.is_at_start = typed.ends_with(b"\n");
        if is_whole && typed.len() <= LINE_ROOM {
            self.bytes[..typed.len()].copy_from_slice(typed);
            self.len = typed.len();
        }
    }

    /// What is handed on of the first `count` bytes, which were typed: the last line in place of an empty one, else these.
    fn handed(&mut self, typed: &mut [u8], count: usize) -> usize
        requires { count ≤ length typed.old }
        ensures { result ≤ length typed.new }
    {
        if self.is_at_start && count == 1 && typed[0] == b'\n' {
            return self.repeat(typed);
        }
        self.keep(&typed[..count]);
        count
    }
}

/// An input. Where it is typed at a terminal, the standard error asks for each line: what reads it is to do so only where it has no
/// byte left. The bytes are those of the input; but an empty line that is typed is handed on as the line before once more.
#[derive(Drop)]
pub struct Prompting<'a, R, I> {
    rt: &'a R,
    input: I,
    is_typed: bool,
    has_asked: bool,
    last: LastLine,
}

impl<'a, R: Eprint, I: Read> Prompting<'a, R, I> {
    pub fn new(rt: &'a R, input: I, is_typed: bool) -> Prompting<'a, R, I>
        ensures { result.input ≡ input }
    {
        Prompting {
            rt,
            input,
            is_typed,
            has_asked: false,
            last: LastLine::new(),
        }
    }

    /// Asks for a line, if it is to be typed. There is nothing left to do where that fails.
    fn ask(&mut self)
        ensures input { self.new.input ≡ self.old.input }
        ensures typed { self.new.is_typed ≡ self.old.is_typed }
    {
        if !self.is_typed {
            return;
        }
        if !self.has_asked {
            self.has_asked = true;
            let _ = eprintln!(self.rt; "{FIRST_LINE}");
        }
        let _ = eprint!(self.rt; "> ");
    }

    /// Ends the line of a prompt that was answered by so many bytes: what a shell prints behind the input's end has a line of its own.
    fn end_line(&self, count: usize) {
        if self.is_typed && count == 0 {
            let _ = eprintln!(self.rt; "");
        }
    }
}

impl<R: Eprint, I: Read> Read for Prompting<'_, R, I> {
    ghost use Rattle.std.specs.Prelude.{if◌then◌else◌, None};

    ghost remaining = { λ p. if p.is_typed then None else I.remaining p.input };

    fn read(&mut self, buf: &mut [u8]) -> io::Result<usize> {
        self.ask();
        let count = self.input.read(buf)?;
        self.end_line(count);
        if self.is_typed {
            return Ok(self.last.handed(buf, count));
        }
        Ok(count)
    }
}
