//! How much is written of a time.

ghost use Rattle.std.specs.Prelude.{◌≡◌, ◌≢◌, ◌+◌, ◌^◌, ◌≤◌, true, false};
ghost use Rattle.rt_sink.specs.Offers.{Offers};
ghost use Rattle.rt_waves.specs.WavesText.{time_line};
ghost use Rattle.rt_waves.specs.Working.Telling as told;

use rt_sink::{LineBuffer, Sink, Writer, push_byte, push_decimal};

/// How much is written of a time.
#[derive(Clone, Copy, PartialEq, Eq)]
pub(crate) enum Telling {
    /// It is before the window.
    Nothing,
    /// It is the first time of the window: all values.
    All,
    /// It is a later one: those that differ from the ones before.
    Changes,
}

impl Telling {
    /// How much is written of time `u`, in a window that begins at `from`.
    #[inline(always)]
    pub(crate) fn at(from: u64, u: u64) -> Telling
        ensures { result ≡ told.telling_at from u }
    {
        if u < from {
            Telling::Nothing
        } else if u == from {
            Telling::All
        } else {
            Telling::Changes
        }
    }
}

impl Telling {
    /// Whether all is written.
    #[inline(always)]
    pub(crate) fn is_all(&self) -> bool
        ensures all { result ≡ true → self.now ≡ Telling.All }
        ensures part { result ≡ false → self.now ≢ Telling.All }
    {
        match self {
            Telling::All => true,
            Telling::Nothing => false,
            Telling::Changes => false,
        }
    }
}

/// Offers the line of a time.
#[inline(always)]
pub(crate) fn offer_time<S: Sink>(u: u64, writer: &mut Writer<'_, S>)
    requires { writer.old.written ≤ 2 ^ 63 }
    ensures bound { writer.new.written ≤ writer.old.written + 32 }
    ensures same { writer.new.sink.ghost_name ≡ writer.old.sink.ghost_name }
    ensures offers { Offers S.seen writer.old.written writer.old.sink.now (time_line u) writer.new.written writer.new.sink.now }
{
    let mut line = LineBuffer::new();
    push_byte(&mut line, b'#');
    push_decimal(&mut line, u);
    push_byte(&mut line, b'\n');
    writer.put(&line);
}
