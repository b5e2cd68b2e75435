//! Laws over what a seat is told. Each function here is such a law: it does nothing, and its contract is the law.

ghost use Rattle.floor_rule.specs.Laws.{BothOfThem, CallsStandOnce, LogGoesOn, LongestHasAll, OwnEntriesAreCalls, RollIsWhole, SomeOfThem, StandingStays, StandsInLog, TellingGoesOn, WholeLogIsLongest};

/// The lists of logs that a seat holds.
pub fn lists()
    ensures whole { WholeLogIsLongest }
    ensures some { SomeOfThem }
    ensures both { BothOfThem }
    ensures grown { LogGoesOn }
    ensures onward { TellingGoesOn }
    ensures longest { LongestHasAll }
    ensures standing { StandingStays }
    ensures in_log { StandsInLog }
{}

/// The entries of one call in one log.
pub fn entries()
    ensures once { CallsStandOnce }
    ensures own { OwnEntriesAreCalls }
{}

/// The recs that the maker has taken in.
pub fn rolls()
    ensures { RollIsWhole }
{}
