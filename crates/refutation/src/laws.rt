//! What an accepted log shows. No function here does anything; each one's contract is a theorem.

ghost use Rattle.refutation.specs.Model.{AcceptedIsRefuted, ClausesAreTested, ImpliedHolds, StepIsImplied, StepsAreImplied};

/// A clause's literals can be made false, one after the other, exactly where they are literals over the variables, no
/// two of one variable.
pub fn clauses_are_tested()
    ensures { ClausesAreTested }
{}

/// A step that follows holds wherever the clauses before it do, and so do all steps of a log that follow.
pub fn steps_are_implied()
    ensures one { StepIsImplied }
    ensures all { StepsAreImplied }
{}

/// The formula of an accepted log has no model.
pub fn accepted_is_refuted()
    ensures { AcceptedIsRefuted }
{}

/// A literal that a unit clause implies holds wherever the clauses do and the marks are right.
pub fn implied_holds()
    ensures { ImpliedHolds }
{}
