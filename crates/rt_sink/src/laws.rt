//! Laws of sinks, each the contract of a function that does nothing.

ghost use Rattle.std.specs.Prelude.{ℕ, ◌≡◌, ◌<◌, ◌^◌, List, [], length, Some, Result};
ghost use Rattle.rt_sink.specs.Sink.{Counts};
ghost use Rattle.rt_sink.specs.Buffered.{gathering, BufferedSink, told, Flushes, Arrives};
ghost use Rattle.rt_sink.specs.declared.sink.DeviceFault.{DeviceFault};

use crate::sink::Sink;

/// A text that is written to a new sink that gathers, all of it or up to a fault, and then the
/// flush: all of the text has arrived at the other sink, or so many of its first bytes as the
/// flush says. The other sink is one that tells its bytes.
pub fn gathered_text_arrives<S: Sink>()
    ensures { (before mid after : BufferedSink S) (text : List ℕ) (written : Result ℕ DeviceFault) (flushed : Result (Unit {0}) DeviceFault)
        → told S.seen before ≡ Some [] → length text < 2 ^ 64 → Counts (gathering S.seen) before text written mid
        → Flushes S.seen mid flushed after → Arrives S.seen text flushed after.inner }
{}
