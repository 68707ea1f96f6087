// Laws of conclusions: the functions do nothing, and their contracts are the laws.
ghost use Rattle.prover_steps.specs.Ending.{GivingFalls, QueueFalls, ProcessingAddsNone, EachSearchEnds, NextIsWithinLimits, StartIsWithinLimits, ReachedAreWithinLimits, PicksWhereOneWaits};
ghost use Rattle.prover_steps.specs.LineNumbers.{LineCounts, MeetingCounts, WorkingMakesNone, ProcessingCounts, NextCounts, ReachedCountLines};
ghost use Rattle.prover_steps.specs.OrderLaws.{PuttingKeepsOrder, PutsBetween, PutsLast, LeavingKeepsOrder, LeavesOne, HeldAreMerged, HeldAreRising, QueueGivesUnused, LineGivesUnused, KeepingKeepsOrder, RetiringKeepsOrder, PuttingBackKeepsOrder, MeetingKeepsOrder, SubsumingKeepsOrder, DeletingKeepsOrder, RewritingKeepsOrder, RuleKeepsOrder, RulesKeepOrder, WorkingKeepsOrder, AfterKeptKeepsOrder, SettlingKeepsOrder, ProcessingKeepsOrder, GivingKeepsOrder, PickedWaits, NextKeepsOrder, ReachedAreInOrder, StandsInOrder};
ghost use Rattle.prover_steps.specs.SearchLaws.{ReachedAreSound, EndedStay, OrdersKeepVariables};
ghost use Rattle.prover_steps.specs.SearchWorked.{WorkedSearch, WorkedPicking, WorkedBack, WorkedMerging, WorkedMeasures};
ghost use Rattle.prover_steps.specs.Starting.{StartsWell};
ghost use Rattle.prover_steps.specs.StepLaws.{WorksOut, ConclusionsAreSteps};
ghost use Rattle.prover_steps.specs.StopLaws.{RewritingStops};
ghost use Rattle.prover_steps.specs.SubsumeLaws.{SubsumptionIsFound};
ghost use Rattle.prover_steps.specs.TidyLaws.{OrderLeads, RewritingLeads};
ghost use Rattle.prover_steps.specs.TidyWorked.{WorkedRewriting, WorkedOrder, WorkedSubsumption};
ghost use Rattle.prover_steps.specs.StepsWorked.{WorkedResolvents, WorkedHyperresolvents, WorkedUnitResolvents, WorkedFactors, WorkedPaths, WorkedParamodulants, WorkedRules};

use derivation::{conclusion_is_one, unifier_concludes};
use substitutions::{clauses_are_decided, clauses_are_renamed_apart};
use term_order::{kbo_is_order, lpo_is_order};
use unifiers::{matches_are_found, unifiers_are_found};

/// What is worked out of clauses is what the rule concludes, and nothing else.
pub fn steps_are_worked_out()
    ensures { WorksOut }
{
    unifiers_are_found();
    clauses_are_renamed_apart();
    unifier_concludes();
    conclusion_is_one();
}

/// Each conclusion of a given clause is a step from lines that have it and the clauses that are held.
pub fn conclusions_are_steps()
    ensures { ConclusionsAreSteps }
{
    steps_are_worked_out();
}

/// The lines of each state that a search reaches are a derivation, and have what is held and its proofs' last clauses, where
/// the order of terms keeps variables.
pub fn searches_are_sound()
    ensures { ReachedAreSound }
{
    steps_are_worked_out();
    clauses_are_decided();
    matches_are_found();
}

/// A clause rewritten by rules is what the words that tell of it make of it.
pub fn clauses_are_rewritten()
    ensures { RewritingLeads }
{
    clauses_are_decided();
    matches_are_found();
}

/// A clause put in order is what the words that tell of it make of it.
pub fn clauses_are_put_in_order()
    ensures { OrderLeads }
{
    clauses_are_decided();
    matches_are_found();
}

/// Rewriting takes first steps, and stops at the limit, at a step that makes the clause too large, or where no rule fits.
pub fn rewriting_stops()
    ensures { RewritingStops }
{}

/// A clause subsumes another exactly where one substitution takes its literals to different literals of the other.
pub fn subsumption_is_found()
    ensures { SubsumptionIsFound }
{
    matches_are_found();
}

/// A search for a problem begins with a derivation and with clauses that it has.
pub fn searches_start_well()
    ensures { StartsWell }
{}

/// The orders of terms keep variables.
pub fn orders_keep_variables()
    ensures { OrdersKeepVariables }
{
    lpo_is_order();
    kbo_is_order();
}

/// A search ends in one state at most.
pub fn searches_end_once()
    ensures { EndedStay }
{}

/// Clauses that stand in order do so with one more, or with fewer, and those that are held are two lists merged.
pub fn clauses_stay_in_order()
    ensures putting { PuttingKeepsOrder }
    ensures between { PutsBetween }
    ensures last { PutsLast }
    ensures leaving { LeavingKeepsOrder }
    ensures one_left { LeavesOne }
    ensures merged { HeldAreMerged }
    ensures rising { HeldAreRising }
{}

/// The parts of a step keep clauses in order.
pub fn steps_keep_order()
    ensures queue { QueueGivesUnused }
    ensures line { LineGivesUnused }
    ensures keeping { KeepingKeepsOrder }
    ensures retiring { RetiringKeepsOrder }
    ensures putting_back { PuttingBackKeepsOrder }
    ensures meeting { MeetingKeepsOrder }
    ensures subsuming { SubsumingKeepsOrder }
    ensures deleting { DeletingKeepsOrder }
    ensures rewriting { RewritingKeepsOrder }
    ensures rule { RuleKeepsOrder }
    ensures rules { RulesKeepOrder }
    ensures working { WorkingKeepsOrder }
    ensures after_kept { AfterKeptKeepsOrder }
    ensures settling { SettlingKeepsOrder }
    ensures processing { ProcessingKeepsOrder }
    ensures giving { GivingKeepsOrder }
    ensures picking { PickedWaits }
{}

/// The clauses of each state that a search reaches stand in order.
pub fn searches_stay_in_order()
    ensures start { StandsInOrder }
    ensures next { NextKeepsOrder }
    ensures reached { ReachedAreInOrder }
{}

/// A search ends: each step leaves fewer to be given, or fewer to be processed before.
pub fn searches_end()
    ensures giving { GivingFalls }
    ensures queue { QueueFalls }
    ensures processing { ProcessingAddsNone }
    ensures ends { EachSearchEnds }
{}

/// No counter passes its limit, and the reason of an end is true.
pub fn ends_have_reasons()
    ensures start { StartIsWithinLimits }
    ensures next { NextIsWithinLimits }
    ensures reached { ReachedAreWithinLimits }
    ensures picking { PicksWhereOneWaits }
{}

/// The lines of a search are numbered one by one.
pub fn lines_are_counted()
    ensures line { LineCounts }
    ensures meeting { MeetingCounts }
    ensures working { WorkingMakesNone }
    ensures processing { ProcessingCounts }
    ensures next { NextCounts }
    ensures reached { ReachedCountLines }
{}

/// Conclusions worked out, in their order, and a search.
pub fn worked()
    ensures resolvents { WorkedResolvents }
    ensures hyperresolvents { WorkedHyperresolvents }
    ensures unit_resolvents { WorkedUnitResolvents }
    ensures factors { WorkedFactors }
    ensures paths { WorkedPaths }
    ensures paramodulants { WorkedParamodulants }
    ensures rules { WorkedRules }
    ensures search { WorkedSearch }
    ensures picking { WorkedPicking }
    ensures back { WorkedBack }
    ensures merging { WorkedMerging }
    ensures measures { WorkedMeasures }
    ensures rewriting { WorkedRewriting }
    ensures order { WorkedOrder }
    ensures subsumption { WorkedSubsumption }
{}
