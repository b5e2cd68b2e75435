// What holds of plans and their faults.
ghost use Rattle.std.specs.Prelude.{◌≡◌, ℕ, List};
ghost use Rattle.live_plan.specs.Plan.{Answer, ComesTo};

/// The bytes of a plan come to one answer: they are those of one plan, or have one first fault, or pass one limit first.
pub fn one_answer()
    ensures { (bytes : List ℕ) (a b : Answer) → ComesTo bytes a → ComesTo bytes b → a ≡ b }
{}
