// Laws over what a script gives.
ghost use Rattle.std.specs.Prelude.{◌≡◌, ◌≢◌, ℕ, List, Bool};
ghost use Rattle.pcm_top.specs.declared.command.Command.{Command};
ghost use Rattle.pcm_top.specs.declared.command.Command.TheVariants.{Run};
ghost use Rattle.pcm_top.specs.declared.end.End.{End};
ghost use Rattle.pcm_top.specs.declared.end.End.TheVariants.{ShelfFault};
ghost use Rattle.pcm_top.specs.Output.{IsFront};
ghost use Rattle.pcm_top.specs.Script.{Gives, IsKnown, Reaches};
ghost use Rattle.pcm_top.specs.Session.{Session};

/// The law that a script leads to one text, one world and one end, where the shelf does not fail, and tells its files if the
/// script asks for one. This project's own.
pub fn one_output()
    ensures last { (c : Command) (over : Bool) (count : ℕ) (s : Session) (lines : List (List ℕ)) (a b : Session) (e f : End) →
        IsKnown s.files lines → e ≢ ShelfFault → f ≢ ShelfFault → Gives c over count s lines a e → Gives c over count s lines b f → a ≡ b }
    ensures ended { (c : Command) (over : Bool) (count : ℕ) (s : Session) (lines : List (List ℕ)) (a b : Session) (e f : End) →
        IsKnown s.files lines → e ≢ ShelfFault → f ≢ ShelfFault → Gives c over count s lines a e → Gives c over count s lines b f → e ≡ f }
{}

/// The law that what some lines of a script have reached, from the first on, has a front of the text that all of them lead
/// to, where the shelf does not fail, and tells its files if the script asks for one. This project's own.
pub fn one_front()
    ensures { (c : Command) (over : Bool) (count : ℕ) (s : Session) (lines : List (List ℕ)) (reached last : Session) (ended : End) →
        IsKnown s.files lines → ended ≢ ShelfFault → Reaches c over count s lines reached → Gives c over count s lines last ended → IsFront reached.text last.text }
{}

/// The law that each script of `run` leads to a session and an end, where the shelf does not fail. This project's own.
pub fn some_output()
    ensures { (over : Bool) (count : ℕ) (s : Session) (lines : List (List ℕ)) →
        (last : Session) × (ended : End) × (ended ≢ ShelfFault) × Gives Run over count s lines last ended }
{}
