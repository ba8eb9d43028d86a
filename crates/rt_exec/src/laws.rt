//! Laws of the numbers of calls and faults.

ghost use Rattle.std.specs.Prelude.{◌≡◌, ℕ, ◌↔◌, Some};
ghost use Rattle.rt_exec.specs.declared.mem.access_fault.AccessFault.{AccessFault as Access};
ghost use Rattle.rt_exec.specs.mem.Numbering.{access_number};
ghost use Rattle.rt_exec.specs.declared.outcome.Call.{Call};
ghost use Rattle.rt_exec.specs.Numbering.{call_number, fault_number};
ghost use Rattle.rt_exec.specs.Effect.{call_of, fault_of};

/// A law: a7 names a call exactly where it is the call's number.
pub fn calls_are_numbered()
    ensures { (a7 : ℕ) (call : Call) → (call_of a7 ≡ Some call) ↔ (a7 ≡ call_number call) }
{}

/// A law: the fault of an attempt has the number of the access that it comes from.
pub fn access_faults_keep_their_numbers()
    ensures { (fault : Access) → fault_number (fault_of fault) ≡ access_number fault }
{}
