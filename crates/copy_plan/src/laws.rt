// Laws of the codes of plans. Each is the contract of a function that does nothing.
ghost use Rattle.std.specs.Prelude.{◌≡◌, ℕ, ◌≤◌, List, ◌++◌, length};
ghost use Rattle.copy_plan.specs.Plan.{PlanValue, IsPlan};
ghost use Rattle.copy_plan.specs.Fields.{PlanFault, plan_code, largest_code};

/// Bytes begin with the code of one plan at most: no plan's code is that of another, or the front of it. Bytes that
/// begin with one have no fault.
pub fn one_plan()
    ensures one { (p q : PlanValue) (r s : List ℕ) → IsPlan p → IsPlan q → plan_code p ++ r ≡ plan_code q ++ s → (p ≡ q) × (r ≡ s) }
    ensures no_fault { (p : PlanValue) (rest : List ℕ) (at : ℕ) → IsPlan p → PlanFault (plan_code p ++ rest) at → ⊥ }
{}

/// The code of a plan has at most 38,274,266 bytes.
pub fn short_code()
    ensures { (p : PlanValue) → IsPlan p → length (plan_code p) ≤ largest_code }
{}
