//! The lines that tell why a set is refused for its load.

ghost use Rattle.std.proofs.Props.{props};
ghost use Rattle.std.specs.Prelude.{◌≡◌, ◌≤◌, length, false};
ghost use Rattle.rt_sink.specs.Sink.{Counts};
ghost use Rattle.rt_admit.specs.Admission.{IsEligible, IsOverloaded};
ghost use Rattle.rt_programs.specs.Check.{weight_line, breach_line, overload_text};

use rt_admit::Params;
use rt_laws::breach::Breach;
use rt_sink::{DeviceFault, Sink};
use rt_text_out::{Byte, Decimal, Each, Line, Out, Text, plain, write};

/// What a task asks for in a hyperperiod of so many ticks.
#[derive(Clone, Copy)]
struct WeightLine(u32);

impl Line<Params> for WeightLine {
    ghost may = { λ by task. IsEligible by.0 task };

    ghost fact = { λ by task. Prim.hlevel props };

    ghost line = { λ by number task. weight_line by.0 number task };

    ghost most = { 2048 };

    fn offer_line<O: Out>(&self, number: u32, item: &Params, out: &mut O) {
        let weight = Decimal(u64::from(item.weight(self.0)));
        let task = (plain(b"task "), Decimal(u64::from(number)));
        (task, plain(b" weight "), weight, Byte(b'\n')).offer(out);
    }
}

/// The first task whose budget doesn't fit at the end of the hyperperiod.
#[derive(Clone, Copy)]
struct BreachLine(u32, Breach);

impl Text for BreachLine {
    ghost text = { λ x. breach_line x.0 x.1 };

    ghost most = { 4096 };

    fn offer<O: Out>(&self, out: &mut O) {
        let breach = self.1;
        let task = (plain(b"breach task "), Decimal(u64::from(breach.task)));
        let budget = (task, plain(b" c "), Decimal(u64::from(breach.c)));
        let deadline = (budget, plain(b" d "), Decimal(breach.d));
        let tick = Decimal(u64::from(self.0));
        (deadline, plain(b" tick "), tick, Byte(b'\n')).offer(out);
    }
}

/// Writes what each task asks for, and the first one whose budget wouldn't fit. The answer is the length of these lines in bytes.
pub fn write_overload<S: Sink>(
    out: &mut S,
    hyper: u32,
    params: &[Params],
    breach: Breach,
) -> Result<u64, DeviceFault>
    requires is_open { (S.seen out.old).failed ≡ false }
    requires overloaded { IsOverloaded hyper params.now }
    ensures { Counts S.seen out.old (overload_text hyper params.now breach) result out.new }
{
    let weights = Each {
        items: params,
        by: WeightLine(hyper),
    };
    write(&(weights, BreachLine(hyper, breach)), out)
}
