//! Laws of admission, for every hyperperiod and every set. Each function does nothing: its clause
//! is the law, and a caller has it after the call.
ghost use Rattle.std.specs.Prelude.{◌≡◌, ℕ, ◌*◌, ◌/◌, ◌≤◌, ◌↔◌, List, All, Some, None};
ghost use Rattle.rt_admit.specs.declared.params.Params.{Params};
ghost use Rattle.rt_admit.specs.declared.fault.AdmitFault.TheVariants.{Overload};
ghost use Rattle.rt_admit.specs.Admission.{IsAdmitted, IsEligible, IsOverloaded};
ghost use Rattle.rt_admit.specs.Refusal.{refusal};
ghost use Rattle.rt_admit.specs.Utilisation.{utilisation};
ghost use Rattle.rt_admit.specs.Weight.{total_weight, weight_of};

/// A set is admitted exactly where none of the seven refusals applies.
pub fn admitted_iff_not_refused()
    ensures { (hyper : ℕ) (set : List Params) → IsAdmitted hyper set ↔ (refusal hyper set ≡ None) }
{}

/// The utilisations of an admitted set sum to at most one (Liu and Layland 1973).
pub fn utilisation_is_at_most_one()
    ensures denominator { (hyper : ℕ) (set : List Params) → IsAdmitted hyper set →
        1 ≤ (utilisation set).under }
    ensures at_most_one { (hyper : ℕ) (set : List Params) → IsAdmitted hyper set →
        (utilisation set).over ≤ (utilisation set).under }
{}

/// Of tasks that are each eligible, the weights sum to at most the hyperperiod exactly where the
/// utilisations sum to at most one.
pub fn load_is_utilisation()
    ensures { (hyper : ℕ) (set : List Params) → 1 ≤ hyper → All (IsEligible hyper) set →
        (total_weight hyper set ≤ hyper) ↔ ((utilisation set).over ≤ (utilisation set).under) }
{}

/// A set is refused for its load exactly where it would be admitted but for its load, and the
/// refusal then says the load and the hyperperiod.
pub fn overload_is_else_admitted()
    ensures refused { (hyper : ℕ) (set : List Params) →
        (refusal hyper set ≡ Some (Overload (total_weight hyper set) hyper)) ↔ IsOverloaded hyper set }
    ensures numbers { (hyper total whole : ℕ) (set : List Params) →
        refusal hyper set ≡ Some (Overload total whole) → (total ≡ total_weight hyper set) × (whole ≡ hyper) }
{}

/// The period of an eligible task is within the hyperperiod and goes into it without a rest, and
/// the task's share of it is that of its budget in its period: Q / P is the weight over H.
pub fn eligible_task()
    ensures within { (hyper : ℕ) (task : Params) → 1 ≤ hyper → IsEligible hyper task →
        task.period ≤ hyper }
    ensures whole { (hyper : ℕ) (task : Params) → IsEligible hyper task →
        task.period * (hyper / task.period) ≡ hyper }
    ensures share { (hyper : ℕ) (task : Params) → IsEligible hyper task →
        task.budget * hyper ≡ weight_of hyper task * task.period }
{}
