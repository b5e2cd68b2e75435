// What the number of a line is.
ghost use Rattle.std.specs.Prelude.{◌≡◌, ◌<◌, ◌^◌, ◌∷◌, ◌++◌, ℕ, List, decimal};
ghost use Rattle.pcm_help.specs.Answered.{leading};

/// A line that begins with a number and a space, as those of a transcript do, begins with that number.
pub fn leading_number()
    ensures { (n : ℕ) (rest : List ℕ) → n < 2 ^ 64 → leading (decimal n ++ 32 ∷ rest) ≡ n }
{}
