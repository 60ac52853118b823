// A law of openings: the contract of a function that does nothing.
ghost use Rattle.std.specs.Prelude.{◌≡◌, ◌+◌, ◌≤◌, length};
ghost use Rattle.fresh_opening.specs.declared.error.FreshError.{FreshError};
ghost use Rattle.fresh_opening.specs.Refusals.{Scene, IsFirst, NoneApplies};

/// What an opening to at most eight drives saw has one first refusal at most. So it is answered just where it is the first
/// that applies, but for what ends the opening before: want of memory, and a line that is not said.
pub fn one_refusal()
    ensures one { (s : Scene) (a b : FreshError) → s.first + length s.sights ≤ 8 → IsFirst s a → IsFirst s b → a ≡ b }
    ensures none { (s : Scene) (e : FreshError) → NoneApplies s → IsFirst s e → ⊥ }
{}
