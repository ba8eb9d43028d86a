//! Where texts are offered, what has a text, and how a text reaches a sink.

ghost use Rattle.std.specs.Prelude.{◌≡◌, ℕ, ◌+◌, ◌^◌, ◌<◌, ◌≤◌, ◌++◌, List, [], length, false};
ghost use Rattle.rt_sink.specs.Offers.{Offers};
ghost use Rattle.rt_sink.specs.Sink.{Counts};
ghost use Rattle.rt_text_out.specs.Offered.{Offered};

use rt_sink::{DeviceFault, Sink, Writer, put_bytes};

/// Where texts are offered, one behind the other.
pub trait Out {
    ghost use Rattle.std.specs.Prelude.{ℕ, List, [], ◌++◌};

    // From the one state to the other this text was offered.
    ghost offers: { Self → List ℕ → Self → Type 0 };

    /// Offers the bytes.
    fn put(&mut self, bytes: &[u8])
        ensures { offers self.old bytes.now self.new };

    // No text changes nothing, and two texts are offered as one.
    ghost nothing: { (x : Self) → offers x [] x };

    ghost joined: { (x : Self) (a : List ℕ) (y : Self) (b : List ℕ) (z : Self) → offers x a y → offers y b z → offers x (a ++ b) z };
}

/// The bytes are offered to the writer's sink, unless it has failed.
impl<'a, S: Sink> Out for Writer<'a, S> {
    ghost use Rattle.rt_text_out.specs.Offered.{Offered};
    ghost use Rattle.rt_text_out.specs.Laws.{offered-nothing, offered-joined};

    ghost offers = { λ v text w. Offered S.seen v.sink.ghost_name v.written v.sink.now text w.sink.ghost_name w.written w.sink.now };

    ghost nothing = { λ x. offered-nothing S.seen _ _ _ };

    ghost joined = { λ x a y b z first second. offered-joined S.seen _ _ _ a _ _ _ b _ _ _ first second };

    fn put(&mut self, bytes: &[u8]) {
        if self.sink.has_failed() {
            return;
        }
        match put_bytes(self.sink, bytes) {
            Ok(()) => self.written = self.written.saturating_add(bytes.len() as u64),
            Err(fault) => self.written = self.written.saturating_add(fault.written),
        }
    }
}

/// What has a text.
pub trait Text {
    ghost use Rattle.std.specs.Prelude.{ℕ, ◌≤◌, List, length};

    // The text, and the most bytes that such a text has.
    ghost text: { Self → List ℕ };

    ghost most: { ℕ };

    /// Offers the text.
    fn offer<O: Out>(&self, out: &mut O)
        ensures offers { O.offers out.old (text self.now) out.new }
        ensures short { length (text self.now) ≤ most };
}

/// Writes a text to a sink. The answer is its length in bytes. Takes no memory.
///
/// # Errors
///
/// The sink failed. `written` is how many of the first bytes of the text it took.
pub fn write<T: Text, S: Sink>(text: &T, out: &mut S) -> Result<u64, DeviceFault>
    requires is_open { (S.seen out.old).failed ≡ false }
    requires short { T.most < 2 ^ 63 }
    ensures { Counts S.seen out.old (T.text text.now) result out.new }
{
    let mut writer = Writer {
        sink: out,
        written: 0,
    };
    text.offer(&mut writer);
    if writer.sink.has_failed() {
        return Err(DeviceFault {
            written: writer.written,
        });
    }
    Ok(writer.written)
}

/// Offers a text through a writer whose count has room for it.
pub fn offer_to<T: Text, S: Sink>(text: &T, out: &mut Writer<'_, S>)
    requires { out.old.written + T.most + 1 < 2 ^ 64 }
    ensures bound { out.new.written ≤ out.old.written + T.most }
    ensures same { out.new.sink.ghost_name ≡ out.old.sink.ghost_name }
    ensures offers { Offers S.seen out.old.written out.old.sink.now (T.text text.now) out.new.written out.new.sink.now }
{
    text.offer(out);
}
