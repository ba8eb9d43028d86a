//! Lines that are gathered in memory.

ghost use Rattle.std.specs.Prelude.{◌≡◌, ◌^◌, ◌<◌, length, IfOk};
ghost use Rattle.rt_debug.specs.reply.ShownText.{bytes_lent, shown_text};

use crate::reply::showing::{Shown, write_shown};
use rt_sink::{Put, Sink};
use std::alloc::{AllocError, Global};
use std::marker::Model;

/// Whole lines, as bytes.
#[derive(Drop)]
pub struct Text {
    lines: Vec<u8>,
}

impl Model for Text {
    ghost use Rattle.std.specs.Prelude.{ℕ, List};

    ghost Value = { List ℕ };

    ghost view = { λ t. t.lines.items };
}

impl Text {
    /// The text of what is shown, of RAM or output fewer than 2^34 bytes.
    ///
    /// # Errors
    ///
    /// There is no memory for it.
    pub fn of(alloc: Global, shown: &Shown) -> Result<Text, AllocError>
        requires { length (bytes_lent shown.now) < 2 ^ 34 }
        ensures { IfOk result (λ text. text ≡ shown_text shown.now) }
    {
        let mut sink = Gathering {
            bytes: Vec::new(alloc),
            has_failed: false,
        };
        match write_shown(&mut sink, shown) {
            Ok(_) => Ok(Text { lines: sink.bytes }),
            Err(_) => Err(AllocError),
        }
    }

    /// Its bytes.
    pub fn bytes(&self) -> &[u8]
        ensures { result.now ≡ self.now }
    {
        &self.lines
    }
}

/// A sink that keeps all bytes, and fails where there is no memory for them.
#[derive(Drop)]
struct Gathering {
    bytes: Vec<u8>,
    has_failed: bool,
}

impl Sink for Gathering {
    ghost use Rattle.std.specs.Prelude.{Some};

    ghost seen = { λ g. record { failed = g.has_failed; contents = Some g.bytes.items } };

    fn put(&mut self, bytes: &[u8]) -> Put {
        if self.has_failed {
            return Put::Failed;
        }
        match self.bytes.extend_from_slice(bytes) {
            Ok(()) => Put::Taken(bytes.len()),
            Err(_) => {
                self.has_failed = true;
                Put::Failed
            }
        }
    }

    fn has_failed(&self) -> bool {
        self.has_failed
    }
}
