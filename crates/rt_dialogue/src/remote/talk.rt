//! What a session says to a byte of the input.

ghost use Rattle.std.specs.Prelude.{◌≡◌, ◌++◌, [], List, ℕ, Some, None, IfOk, IfErr, OnOk, Err, true, false, not, is_some, codes};
ghost use Rattle.rt_packet.specs.Packet.{packet_of};
ghost use Rattle.rt_packet.specs.Frame.{Outside, hears, kept_of};
ghost use Rattle.rt_packet.specs.request.Requests.{request_of};
ghost use Rattle.rt_sink.specs.declared.sink.DeviceFault.{DeviceFault};
ghost use Rattle.rt_opening.specs.declared.fault.SimFault.TheVariants.{Device};
ghost use Rattle.rt_dialogue.specs.declared.fault.DebugFault.TheVariants.{Sim};
ghost use Rattle.rt_remote.specs.Remote.{with_interrupt};
ghost use Rattle.rt_remote.specs.Paced.{asks};
ghost use Rattle.rt_remote.specs.Executes.{Executes};
ghost use Rattle.rt_dialogue.specs.remote.Beats.{BeatsOf};
ghost use Rattle.rt_dialogue.specs.remote.Packets.{packets, last_sent, again};
ghost use Rattle.rt_dialogue.specs.remote.Dialogue.{DialogueState, frame_behind, Serves, Answers, Hears};
ghost use Rattle.rt_dialogue.specs.Saying.{HasSaid, Speaks};
ghost use Rattle.rt_dialogue.specs.remote.Working.Runs.{is_going, is_ended, Runs};
ghost use Rattle.rt_dialogue.specs.remote.Working.Waits.{HasFailed};
ghost use Rattle.rt_dialogue.specs.remote.Working.Took.{Took};

use crate::DebugFault;
use crate::remote::beats::Beaten;
use crate::remote::saying::{say, say_console};
use crate::remote::wire::Wire;
use rt_exec::Predecoded;
use rt_packet::request::parse_request;
use rt_packet::{Decoder, Heard, Packet, encode};
use rt_queue::Tournament;
use rt_remote::{Answered, Session};
use rt_sink::{Buffered, DeviceFault, Sink};
use std::io::BufRead;
use std::marker::Model;

/// What was heard of a packet, the last packet that was sent, and the session.
#[derive(Drop)]
pub(crate) struct Talk<'s, 'd> {
    decoder: Decoder,
    last: Option<Packet>,
    session: Session<'s, 'd, Tournament, Predecoded>,
}

impl<'s, 'd> Model for Talk<'s, 'd> {
    ghost use Rattle.rt_dialogue.specs.remote.Dialogue.{DialogueState};

    ghost Value = { DialogueState };

    ghost view = { λ t. record { frame = t.decoder; last = t.last; session = t.session } };
}

/// How a request was executed.
#[derive(Drop)]
struct Ran {
    /// How the last beat was answered.
    beaten: Result<Beaten, DebugFault>,
    answered: Answered,
}

/// Whether the input has ended.
fn is_ended(beaten: Beaten) -> bool
    ensures { result ≡ is_ended beaten }
{
    matches!(beaten, Beaten::Ended)
}

impl<'s, 'd> Talk<'s, 'd> {
    /// At the begin of a session.
    pub(crate) fn new(session: Session<'s, 'd, Tournament, Predecoded>) -> Talk<'s, 'd>
        ensures { result ≡ record { frame = Outside []; last = None; session = session.entry } }
    {
        Talk {
            decoder: Decoder::new(),
            last: None,
            session,
        }
    }

    /// Reads a byte, and says what it is answered. Answers whether the session goes on.
    ///
    /// # Errors
    ///
    /// The sink failed; or, in the middle of a run, the input couldn't be read.
    pub(crate) fn hear<I: BufRead, S: Sink>(
        &mut self,
        byte: u8,
        input: &mut I,
        out: &mut Buffered<S>,
    ) -> Result<bool, DebugFault>
        requires { (S.seen out.old.inner).failed ≡ false }
        ensures took { (bytes text : List ℕ) → I.remaining input.old ≡ Some bytes → HasSaid S.seen text out.old
            → Took S.seen (Hears self.old byte) bytes text result (I.remaining input.new) out.new self.new }
        ensures device { (fault : DeviceFault) → result ≡ Err (Sim (Device fault)) → (S.seen out.new.inner).failed ≡ true }
        ensures is_open { IfOk result (λ goes. goes ≡ true → (S.seen out.new.inner).failed ≡ false) }
    {
        let heard = self.decoder.hear(byte);
        self.answer(heard, input, out)
    }

    /// Says what a byte is answered that completed this.
    fn answer<I: BufRead, S: Sink>(
        &mut self,
        heard: Heard,
        input: &mut I,
        out: &mut Buffered<S>,
    ) -> Result<bool, DebugFault>
        requires { (S.seen out.old.inner).failed ≡ false }
        ensures took { (bytes text : List ℕ) → I.remaining input.old ≡ Some bytes → HasSaid S.seen text out.old
            → Took S.seen (Answers self.old heard) bytes text result (I.remaining input.new) out.new self.new }
        ensures device { (fault : DeviceFault) → result ≡ Err (Sim (Device fault)) → (S.seen out.new.inner).failed ≡ true }
        ensures is_open { IfOk result (λ goes. goes ≡ true → (S.seen out.new.inner).failed ≡ false) }
    {
        match heard {
            Heard::Nothing => Ok(true),
            Heard::Again => {
                self.say_again(out)?;
                Ok(true)
            }
            Heard::Wrong => {
                say(out, b"-")?;
                Ok(true)
            }
            Heard::TooLong => {
                self.refuse_long(out)?;
                Ok(true)
            }
            Heard::Interrupt => {
                self.interrupt();
                Ok(true)
            }
            Heard::Right => self.serve(input, out),
        }
    }

    /// Keeps an interrupt that came between requests.
    fn interrupt(&mut self)
        ensures { self.new ≡ record self.old { session = with_interrupt self.old.session } }
    {
        self.session.interrupt();
    }

    /// Says the last packet again.
    fn say_again<S: Sink>(&self, out: &mut Buffered<S>) -> Result<(), DeviceFault>
        ensures says { (text : List ℕ) → HasSaid S.seen text out.old → Speaks S.seen (text ++ again self.now.last) result out.new }
        ensures fails { IfErr result (λ _. (S.seen out.new.inner).failed ≡ true) }
        ensures is_open { (S.seen out.old.inner).failed ≡ false → OnOk result ((S.seen out.new.inner).failed ≡ false) }
    {
        match &self.last {
            Some(packet) => say(out, packet.bytes()),
            None => Ok(()),
        }
    }

    /// Acknowledges a packet that is too long, and answers it as an unknown request.
    #[inline(never)]
    fn refuse_long<S: Sink>(&mut self, out: &mut Buffered<S>) -> Result<(), DeviceFault>
        ensures says { (text : List ℕ) → HasSaid S.seen text out.old → Speaks S.seen (text ++ (codes "+" ++ packet_of [])) result out.new }
        ensures sent { IfOk result (λ _. self.new ≡ record self.old { last = Some (packet_of []) }) }
        ensures fails { IfErr result (λ _. (S.seen out.new.inner).failed ≡ true) }
        ensures is_open { OnOk result ((S.seen out.new.inner).failed ≡ false) }
    {
        say(out, b"+$#00")?;
        self.last = Some(encode(&[]));
        Ok(())
    }

    /// Acknowledges a right packet, executes its request, and says what it is answered.
    fn serve<I: BufRead, S: Sink>(
        &mut self,
        input: &mut I,
        out: &mut Buffered<S>,
    ) -> Result<bool, DebugFault>
        ensures took { (bytes text : List ℕ) → I.remaining input.old ≡ Some bytes → HasSaid S.seen text out.old
            → Took S.seen (Serves self.old) bytes text result (I.remaining input.new) out.new self.new }
        ensures device { (fault : DeviceFault) → result ≡ Err (Sim (Device fault)) → (S.seen out.new.inner).failed ≡ true }
        ensures is_open { IfOk result (λ goes. goes ≡ true → (S.seen out.new.inner).failed ≡ false) }
    {
        say(out, b"+")?;
        let ran = self.run(input, out);
        let beaten = ran.beaten?;
        if is_ended(beaten) {
            return Ok(false);
        }
        self.go_behind(beaten);
        let goes = self.tell(&ran.answered, out)?;
        Ok(goes)
    }

    /// Executes the request of the packet that was heard.
    fn run<I: BufRead, S: Sink>(&mut self, input: &mut I, out: &mut Buffered<S>) -> Ran
        ensures executes { Executes self.old.session (request_of (kept_of self.old.frame)) (not (is_going result.beaten)) result.answered self.new.session }
        ensures same { self.new ≡ record self.old { session = self.new.session } }
        ensures runs { (bytes text : List ℕ) → I.remaining input.old ≡ Some bytes → HasSaid S.seen text out.old
            → Runs S.seen (BeatsOf (asks self.old.session (request_of (kept_of self.old.frame)))) bytes text result.beaten (I.remaining input.new) out.new }
        ensures fails { HasFailed S.seen result.beaten out.new }
    {
        let mut wire = Wire::new(input, out);
        let answered = self
            .session
            .exec(&parse_request(self.decoder.payload()), &mut wire);
        Ran {
            beaten: wire.beaten,
            answered,
        }
    }

    /// Goes on behind the last beat: perhaps within a packet that has begun.
    fn go_behind(&mut self, beaten: Beaten)
        ensures { self.new ≡ record self.old { frame = frame_behind beaten self.old.frame } }
    {
        if let Beaten::Begun = beaten {
            self.decoder.begin();
        }
    }

    /// Says what is answered to a request, and whether the session goes on.
    #[inline(never)]
    fn tell<S: Sink>(
        &mut self,
        answered: &Answered,
        out: &mut Buffered<S>,
    ) -> Result<bool, DeviceFault>
        ensures says { (text : List ℕ) → HasSaid S.seen text out.old → Speaks S.seen (text ++ packets answered.now) result out.new }
        ensures goes { IfOk result (λ goes. goes ≡ is_some answered.now.answer) }
        ensures sent { IfOk result (λ _. self.new ≡ record self.old { last = last_sent self.old.last answered.now.answer }) }
        ensures fails { IfErr result (λ _. (S.seen out.new.inner).failed ≡ true) }
        ensures is_open { IfOk result (λ goes. goes ≡ true → (S.seen out.new.inner).failed ≡ false) }
    {
        say_console(out, answered.console())?;
        match answered.answer() {
            Some(answer) => {
                let packet = encode(answer);
                say(out, packet.bytes())?;
                self.last = Some(packet);
                Ok(true)
            }
            None => Ok(false),
        }
    }
}
