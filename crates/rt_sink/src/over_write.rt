//! A sink over any writer of std.

ghost use Rattle.std.specs.Prelude.{◌≡◌, length, true, false, None};
ghost use Rattle.rt_sink.specs.Sink.{Answers};
ghost use Rattle.rt_sink.specs.OverWrite.{WriterSink, Reaches};

use crate::sink::{Put, Sink};
use std::io::Write;
use std::marker::Model;

/// A sink that hands its bytes to a writer, and tells none of them.
///
/// An error of the writer, an answer of 0, or of more than the slice has, is a failure, and then the writer isn't asked again. It
/// isn't asked for an empty slice either, which so fails nothing.
#[derive(Drop)]
pub struct OverWrite<W> {
    writer: W,
    has_failed: bool,
}

impl<W> Model for OverWrite<W> {
    ghost Value = { WriterSink W };

    ghost view = { λ s. record { writer = s.writer; has_failed = s.has_failed } };
}

impl<W: Write> OverWrite<W> {
    /// A sink over the writer, which hasn't failed.
    pub fn new(writer: W) -> OverWrite<W>
        ensures { result ≡ record { writer = writer; has_failed = false } }
    {
        OverWrite {
            writer,
            has_failed: false,
        }
    }
}

impl<W: Write> Sink for OverWrite<W> {
    ghost seen = { λ s. record { failed = s.has_failed; contents = None } };

    fn put(&mut self, bytes: &[u8]) -> Put
        ensures answer { Answers (λ s. record { failed = s.has_failed; contents = None }) self.old bytes.now result self.new }
        ensures stays { self.old.has_failed ≡ true → result ≡ Put.Failed }
        ensures empty { self.old.has_failed ≡ false → length bytes.now ≡ 0 → (result ≡ Put.Taken 0) × (self.new ≡ self.old) }
        ensures reaches { Reaches (W.contents self.old.writer) bytes.now result (W.contents self.new.writer) }
    {
        if self.has_failed {
            return Put::Failed;
        }
        if bytes.is_empty() {
            return Put::Taken(0);
        }
        match self.writer.write(bytes) {
            Ok(count) if count > 0 && count <= bytes.len() => Put::Taken(count),
            _ => {
                self.has_failed = true;
                Put::Failed
            }
        }
    }

    fn has_failed(&self) -> bool {
        self.has_failed
    }
}
