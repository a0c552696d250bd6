//! Laws of the jobs. No function here does anything; each one's contract is a theorem.

ghost use Rattle.race_top.specs.AnalyserPoolLaws.{JobsGiveResults};
ghost use Rattle.race_top.specs.Evidence.{ClassesHaveEvidence, UnresolvedIsCut};

use machine_laws::spent_is_cut;

/// The results of a race's jobs are as the verdict asks.
pub fn jobs_give_results()
    ensures { JobsGiveResults }
{}

/// The class of each race of a case is shown by the runs that it names.
pub fn classes_have_evidence()
    ensures { ClassesHaveEvidence }
{}

/// The run that an unresolved race names was cut, in a module that has all of its rows: its last step cost more than
/// was left. The check of modules accepts no others.
pub fn unresolved_is_cut()
    ensures { UnresolvedIsCut }
{
    spent_is_cut();
}
