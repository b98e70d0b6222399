//! What the lines of a step, of a call and of loading do to the clauses that a proof holds, and what that says of the
//! accepted ones.

ghost use Rattle.varisat_theory.specs.inside.StepLaws.{PartsJoin, PartsJoinStep, StepIsPart, MovesProve, UnitIsProved, UnitsAreProved, SatisfiedIsDeleted, LearnedIsDeleted, ClauseIsShortened, VariableIsRetired, ClauseIsLearned, FreshIsNew, EmptyIsAdded, ContradictionIsFound, ModelIsFound, CoreIsFound, LoadedIsKept, LoadedIsUnit, LoadedIsDischarged, LoadedIsDeleted, LoadedIsContradicted, PartsJoinLoad, NoStepIsMade, StepIsMade, NewAreAdded, StepsOfCall, PartsJoinSteps, StepsRefute, FirstAccounts, PartAccounts, StepAccounts, StepsAccount, LoadAccounts, VerdictsAreRight, CountedDerives, KeptAreHeld, NamesAreCovered, NamesStayCovered, NamesAreLoaded, DetachedAreCovered, NamesAreSatisfied};

/// Two parts of a step in turn are one.
pub fn parts_join()
    ensures { PartsJoin }
{}

/// Parts may come before a step, and after one that goes on.
pub fn parts_join_step()
    ensures { PartsJoinStep }
{}

/// A step that goes on is a part of a call, which counts once and adds a clause.
pub fn step_is_part()
    ensures { StepIsPart }
{}

/// Kept clauses move without a line.
pub fn moves_prove()
    ensures { MovesProve }
{}

/// A literal of level 0 is proved.
pub fn unit_is_proved()
    ensures { UnitIsProved }
{}

/// Literals of level 0 are proved one after another.
pub fn units_are_proved()
    ensures { UnitsAreProved }
{}

/// A satisfied clause is deleted.
pub fn satisfied_is_deleted()
    ensures { SatisfiedIsDeleted }
{}

/// A learned clause is deleted.
pub fn learned_is_deleted()
    ensures { LearnedIsDeleted }
{}

/// A clause is shortened.
pub fn clause_is_shortened()
    ensures { ClauseIsShortened }
{}

/// A variable leaves the search.
pub fn variable_is_retired()
    ensures { VariableIsRetired }
{}

/// A clause is learned.
pub fn clause_is_learned()
    ensures { ClauseIsLearned }
{}

/// A fresh clause is new.
pub fn fresh_is_new()
    ensures { FreshIsNew }
{}

/// The empty clause is added.
pub fn empty_is_added()
    ensures { EmptyIsAdded }
{}

/// A contradiction is found.
pub fn contradiction_is_found()
    ensures { ContradictionIsFound }
{}

/// A model is found.
pub fn model_is_found()
    ensures { ModelIsFound }
{}

/// A core is found.
pub fn core_is_found()
    ensures { CoreIsFound }
{}

/// A loaded clause is kept.
pub fn loaded_is_kept()
    ensures { LoadedIsKept }
{}

/// A loaded unit becomes true.
pub fn loaded_is_unit()
    ensures { LoadedIsUnit }
{}

/// A loaded clause that says nothing more is held.
pub fn loaded_is_discharged()
    ensures { LoadedIsDischarged }
{}

/// A loaded clause that is satisfied is deleted.
pub fn loaded_is_deleted()
    ensures { LoadedIsDeleted }
{}

/// A loaded clause contradicts.
pub fn loaded_is_contradicted()
    ensures { LoadedIsContradicted }
{}

/// Parts may come before and after loading.
pub fn parts_join_load()
    ensures { PartsJoinLoad }
{}

/// No step is made yet.
pub fn no_step_is_made()
    ensures { NoStepIsMade }
{}

/// One more step is made.
pub fn step_is_made()
    ensures { StepIsMade }
{}

/// Many new clauses are many added ones.
pub fn new_are_added()
    ensures { NewAreAdded }
{}

/// Steps that go on, one after another, are made.
pub fn steps_of_call()
    ensures { StepsOfCall }
{}

/// Parts may come before steps, and after such as go on or find an assignment.
pub fn parts_join_steps()
    ensures { PartsJoinSteps }
{}

/// The lines of steps to Unsat refute.
pub fn steps_refute()
    ensures { StepsRefute }
{}

/// The first search stands for no clauses.
pub fn first_accounts()
    ensures { FirstAccounts }
{}

/// A part of a step keeps what a solver has.
pub fn part_accounts()
    ensures { PartAccounts }
{}

/// So does a step.
pub fn step_accounts()
    ensures { StepAccounts }
{}

/// So do k steps.
pub fn steps_account()
    ensures { StepsAccount }
{}

/// Loading keeps it for one more accepted clause.
pub fn load_accounts()
    ensures { LoadAccounts }
{}

/// The verdicts are right.
pub fn verdicts_are_right()
    ensures { VerdictsAreRight }
{}

/// A derivation that counts is one.
pub fn counted_derives()
    ensures { CountedDerives }
{}

/// Each kept clause has a held one of its own.
pub fn kept_are_held()
    ensures { KeptAreHeld }
{}

/// Parts keep what is covered under other names.
pub fn names_are_covered()
    ensures { NamesAreCovered }
{}

/// So do steps that go on.
pub fn names_stay_covered()
    ensures { NamesStayCovered }
{}

/// Loading a clause covers one under other names.
pub fn names_are_loaded()
    ensures { NamesAreLoaded }
{}

/// So does a variable's leaving.
pub fn detached_are_covered()
    ensures { DetachedAreCovered }
{}

/// What steps found satisfies the clauses under other names.
pub fn names_are_satisfied()
    ensures { NamesAreSatisfied }
{}
