//! Laws of the recorded run. No function here does anything; each one's contract is a theorem.

ghost use Rattle.machine_model.specs.Setting.{Setting};
ghost use Rattle.machine_model.specs.System.{machine_of};
ghost use Rattle.race_top.specs.CheckRaceLaws.{RecordedRunReaches, ThreadsDiffer};
ghost use Rattle.race_top.specs.ReplayLaws.{ListedAreTaken, RefusedIsNotEnabled, RunTakesItsTurns};

use machine_laws::chooser_follows_the_list;

/// A run that was not spent takes its own turns, and a list of which nothing is refused stands at the front of the
/// run's turns.
pub fn refusals_are_exact()
    ensures own { RunTakesItsTurns }
    ensures taken { (setting : Setting) → ListedAreTaken (machine_of setting) }
{}

/// A thread is refused as not enabled only where it isn't.
pub fn refused_is_not_enabled()
    ensures { (setting : Setting) → RefusedIsNotEnabled (machine_of setting) }
{
    chooser_follows_the_list();
}

/// A race of two recorded turns is one of two threads, and the recorded run reaches it.
pub fn recorded_run_reaches()
    ensures reaches { RecordedRunReaches }
    ensures threads { ThreadsDiffer }
{}
