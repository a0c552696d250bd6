//! Which class comes when. No function here does anything; each one's contract is a theorem.

ghost use Rattle.race_verdict.specs.VerdictLaws.{AlternatesAreListed, CountedIsLeast, DiffersExactly, FirstIsLeast, HarmlessHasRuns, HarmlessOnly, SingleExactly, SingleIsOfPath, UnresolvedExactly, ViolatedExactly, ViolationIsFound};

/// A race violates the specification where a job does that counts: by the first one.
pub fn violation_comes_first()
    ensures exactly { ViolatedExactly }
    ensures found { ViolationIsFound }
{}

/// A race has a single ordering where no job that counts violates, and the recorded path's hold gave a reason.
pub fn single_ordering_is_of_recorded_path()
    ensures exactly { SingleExactly }
    ensures path { SingleIsOfPath }
{}

/// Else outputs differ by the first alternate that prints what its path does not admit.
pub fn difference_comes_before_spent_jobs()
    ensures differs { DiffersExactly }
    ensures unresolved { UnresolvedExactly }
{}

/// Else a race is harmless, with the runs that show it: at least one, no two with one input and one list of turns,
/// and each alternate that exits is one of them or repeats one.
pub fn harmless_is_the_rest()
    ensures only { HarmlessOnly }
    ensures listed { AlternatesAreListed }
    ensures runs { HarmlessHasRuns }
{}

/// The job that a verdict names is the least that shows its class.
pub fn first_is_least()
    ensures first { FirstIsLeast }
    ensures counted { CountedIsLeast }
{}
