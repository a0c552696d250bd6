//! Laws of the machine: what holds of every turn, run, hold and job, and of memory. No function here does anything; each
//! one's contract is a theorem over the definitions of `machine_model`. They stand in a crate of their own, so that a
//! change in a proof proves nothing again but what rests on the laws.
#![tactic(auto)]

ghost use Rattle.std.specs.Prelude.{◌≡◌, ℕ, [], ◌∷◌, Some, length, map};
ghost use Rattle.std.specs.List.{range_with_len};
ghost use Rattle.ir_types.specs.declared.input.Input.{Input};
ghost use Rattle.machine_laws.specs.Example.{cut_at_end, cut_in_thread, run_within, turn_counts, whole};
ghost use Rattle.machine_laws.specs.HoldLaws.{EndsHaveCauses, HeldThreadWaits};
ghost use Rattle.machine_model.specs.Job.Alternate.{Not};
ghost use Rattle.machine_laws.specs.JobLaws.{MomentsAreTurns, UnrepeatedIsRun};
ghost use Rattle.machine_laws.specs.JobReplays.{AlternateReplays, PrimaryJobReplays};
ghost use Rattle.machine_laws.specs.Laws.{LargerBudgetKeepsRun, NumbersNeedNoMore, RunIsWithinBudget, RunNeedsNoMore, TurnNeedsNoMore};
ghost use Rattle.machine_model.specs.MemoryLaws.{DeathKeepsApart, MomentsAreApart, OneHasRange, StoreKeepsApart, StoreKeepsExtents, StoreKeepsOtherBytes, StoredIsLoaded, TurnKeepsApart};
ghost use Rattle.machine_laws.specs.OtherOrder.{HoldTurnsRound, OrderIsTurnedRound};
ghost use Rattle.machine_laws.specs.PendingLaws.{MomentsArePending, StartedArePending, TurnKeepsPending};
ghost use Rattle.machine_model.specs.PolicyLaws.{ChoiceIsEnabled, ChoiceIsLast, ChoosesUnlessNone, ListedIsChosen, ReleaseKeepsPlace, TakesTurns};
ghost use Rattle.machine_laws.specs.RaceExample.{both_turns, first_turns, leaving_alternate, ordered_alternate, other_order, printed_byte, recorded_order, turned_by_numbers, turned_round, up_to_join, whole_output};
ghost use Rattle.machine_laws.specs.RepeatLaws.{EarlierTurnIsPower, SamePolicyIsEqual, SameStateIsEqual};
ghost use Rattle.machine_model.specs.ReplayLaws.{TurnsGiveTheRun};
ghost use Rattle.machine_model.specs.RowLaws.{SpentJobIsCut, SpentRunIsCut, StepsHaveCosts};
ghost use Rattle.machine_model.specs.Setting.{Setting};
ghost use Rattle.machine_laws.specs.ShapeLaws.{CallsHaveShapes, InstructionsHaveShapes, WaitsHaveShapes};
ghost use Rattle.machine_model.specs.System.{System, machine_of};
ghost use Rattle.machine_model.specs.SystemLaws.{IsSystem};
ghost use Rattle.machine_laws.specs.WholeAlternate.{AlternateIsWhole};
ghost use Rattle.run_types.specs.declared.run.Outcome.TheVariants.{Exit, Spent};
ghost use Rattle.run_types.specs.declared.run.Reason.TheVariants.{Ended, Stuck};

/// A machine is a system as the laws of runs, holds and jobs want it: the threads that may take a turn rise, a turn
/// is paid from what is left or cut, more steps change nothing of one that was not cut, and a thread that waits to do
/// an access is left so by the turns of the others.
pub fn machine_is_system()
    ensures { (setting : Setting) → IsSystem (machine_of setting) }
{}

/// The laws of runs, their moments, their turns given again, and holds, of each system whatever its states are.
/// Beside them stand those of the machine of threads.
pub fn systems_have_laws<S>()
    ensures bound { (system : System S) → IsSystem system → RunNeedsNoMore system }
    ensures within { (system : System S) → IsSystem system → RunIsWithinBudget system }
    ensures larger { (system : System S) → IsSystem system → LargerBudgetKeepsRun system }
    ensures moments { (system : System S) → MomentsAreTurns system }
    ensures unrepeated { (system : System S) → UnrepeatedIsRun system }
    ensures again { (system : System S) → TurnsGiveTheRun system }
    ensures waits { (system : System S) → HeldThreadWaits system }
    ensures causes { (system : System S) → EndsHaveCauses system }
    ensures order { (system : System S) → IsSystem system → HoldTurnsRound system }
    ensures whole { (system : System S) → IsSystem system → AlternateIsWhole system }
{}

/// The bounds by which decided numbers, turns and runs are defined are no part of their meaning.
pub fn bounds_have_no_meaning()
    ensures numbers { NumbersNeedNoMore }
    ensures turn { TurnNeedsNoMore }
    ensures run { (setting : Setting) → RunNeedsNoMore (machine_of setting) }
{}

/// A budget bounds what a run leaves.
pub fn run_is_within_budget()
    ensures { (setting : Setting) → RunIsWithinBudget (machine_of setting) }
{}

/// A run that was not spent is the run of every larger budget.
pub fn larger_budget_keeps_run()
    ensures { (setting : Setting) → LargerBudgetKeepsRun (machine_of setting) }
{}

/// The chooser picks an enabled thread that it may choose wherever there is one: the next listed one where that is
/// such a thread. Before a hold it is the next by number where no thread of the rest of the list is enabled.
pub fn chooser_follows_the_list()
    ensures enabled { ChoiceIsEnabled }
    ensures some { ChoosesUnlessNone }
    ensures last { ChoiceIsLast }
    ensures listed { ListedIsChosen }
    ensures released { ReleaseKeepsPlace }
    ensures turns { TakesTurns }
{}

/// The repeat test compares all of the state but its output and all of the chooser, with the greatest power of
/// two below the turn.
pub fn repeat_test_is_equality()
    ensures state { SameStateIsEqual }
    ensures policy { SamePolicyIsEqual }
    ensures earlier { EarlierTurnIsPower }
{}

/// The moments of a run are its turns, and the repeat test changes nothing of a run in which no turn repeats.
pub fn moments_are_turns()
    ensures moments { (setting : Setting) → MomentsAreTurns (machine_of setting) }
    ensures unrepeated { (setting : Setting) → UnrepeatedIsRun (machine_of setting) }
{}

/// The turns of a run, recorded, give the same run again, however many they are.
pub fn turns_give_the_run()
    ensures { (setting : Setting) → TurnsGiveTheRun (machine_of setting) }
{
    chooser_follows_the_list();
}

/// The held thread takes no turn in its hold. The hold is done with a turn that does the race's second access; it is
/// stuck where no other thread is enabled, has diverged where the second thread has ended, repeats where its last
/// turn left what an earlier one left, and has ended where its last turn ended the process.
pub fn hold_enforces_the_order()
    ensures waits { (setting : Setting) → HeldThreadWaits (machine_of setting) }
    ensures causes { (setting : Setting) → EndsHaveCauses (machine_of setting) }
{}

/// After a hold that is done the thread that was held is chosen, and it still waits to do the first access, which the
/// second one overlaps.
pub fn order_is_turned_round()
    ensures { OrderIsTurnedRound }
{}

/// An alternate that stops after the first thread's turn behind the hold, and goes on from there, is the alternate
/// that goes on from the hold without a stop.
pub fn alternates_are_whole()
    ensures { (setting : Setting) → AlternateIsWhole (machine_of setting) }
{}

/// The turns of a job's run, recorded, give the same run again, also where a thread was held on the way. Only a run
/// that ends because a turn repeats is left out.
pub fn jobs_replay()
    ensures primary { PrimaryJobReplays }
    ensures alternate { AlternateReplays }
{}

/// A load gives the lowest bytes of what was stored in its range.
pub fn stored_is_loaded()
    ensures { StoredIsLoaded }
{}

/// A store makes, moves and ends no object, and leaves all bytes but its own.
pub fn store_keeps_others()
    ensures extents { StoreKeepsExtents }
    ensures bytes { StoreKeepsOtherBytes }
{}

/// Whether an instruction that changes only its thread and the objects traps, what it costs, what it makes and ends and
/// where its thread goes on, and whether a call traps or waits and what it costs, rest on its decided numbers alone. At
/// which bytes and registers it writes, and where the caller of a call goes on, is not said.
pub fn shapes_are_decided()
    ensures instructions { InstructionsHaveShapes }
    ensures calls { CallsHaveShapes }
    ensures waits { WaitsHaveShapes }
{}

/// Live objects don't overlap: where the globals don't, the objects of every moment of a run that follows a list don't,
/// since stores, the death of objects and turns keep it. Then at most one object has a range of bytes.
pub fn objects_are_apart()
    ensures range { OneHasRange }
    ensures store { StoreKeepsApart }
    ensures death { DeathKeepsApart }
    ensures turn { TurnKeepsApart }
    ensures moments { MomentsAreApart }
{}

/// Between turns a thread that has not ended waits to start, or to run its next instruction, with the addresses that
/// this has in the thread's frame: so it is at the start, and after each turn of any thread.
pub fn pending_is_next()
    ensures started { StartedArePending }
    ensures turn { TurnKeepsPending }
    ensures moments { MomentsArePending }
{}

/// In a module that has all of its rows each step is one that there is to take, and a run, also that of a job, is spent
/// only where a step cost more than was left.
pub fn spent_is_cut()
    ensures steps { StepsHaveCosts }
    ensures run { SpentRunIsCut }
    ensures job { SpentJobIsCut }
{}

/// The worked example of the machine reference: its run, two runs that are cut, and what its turns cost.
pub fn worked_example()
    ensures whole { (input : Input) → run_within input 13 ≡ whole }
    ensures larger { (input : Input) → run_within input 1000 ≡ whole }
    ensures cut_in_thread { (input : Input) → run_within input 5 ≡ cut_in_thread }
    ensures cut_at_end { (input : Input) → run_within input 12 ≡ cut_at_end }
    ensures costs { (input : Input) → map (λ steps. length (run_within input steps).turns) (range_with_len 0 14) ≡ turn_counts }
{}

/// Worked races. Of the first the other order prints another byte; within small budgets one order or the other is
/// cut. Of the second and the third the other order can't be enforced, since the second thread waits for the
/// first, or since main returns meanwhile.
pub fn worked_races()
    ensures recorded { (input : Input) → recorded_order input both_turns 1000 ≡ record { turns = both_turns; output = whole_output 66; outcome = Exit 0 } }
    ensures other { (input : Input) → other_order input both_turns 1000 ≡ Some (record { turns = turned_round; output = whole_output 65; outcome = Exit 0 }) }
    ensures cut_early { (input : Input) → recorded_order input first_turns 13 ≡ record { turns = up_to_join; output = []; outcome = Spent } }
    ensures cut_late { (input : Input) → recorded_order input first_turns 16 ≡ record { turns = both_turns; output = printed_byte 66; outcome = Spent } }
    ensures whole { (input : Input) → other_order input first_turns 17 ≡ Some (record { turns = turned_by_numbers; output = whole_output 65; outcome = Exit 0 }) }
    ensures stuck { (input : Input) → ordered_alternate input ≡ Not Stuck (0 ∷ 0 ∷ 0 ∷ 1 ∷ 2 ∷ []) }
    ensures ended { (input : Input) → leaving_alternate input ≡ Not Ended (0 ∷ 0 ∷ 0 ∷ 1 ∷ 2 ∷ 0 ∷ []) }
{}
