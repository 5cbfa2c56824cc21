//! Theory: which tallies can be done and which order is the first, as theorems over the firing rule.
//!
//! The definitions stand in specs/. A function here does no work: its contract states theorems, so
//! that the crate is proved only with their proofs.
#![tactic(auto)]

ghost use Rattle.std.specs.Prelude.{◌≡◌};
ghost use Rattle.theory.specs.Cases.{CasesHold};
ghost use Rattle.theory.specs.Laws.{DoneExactlyIf, EndsAtFinalNumbers, ShortBelowZero};
ghost use Rattle.theory.specs.Laws.{SafeStepExists, LeastSafeIsFirst, ComputedIsLeastSafe, ComputedIsFirst};
ghost use Rattle.theory.specs.Laws.{FirstIsOne, FirstOrderGoesOn, FirstOrderEnds};
ghost use Rattle.theory.specs.Laws.{FiringKeepsFinalNumbers, SafeByItsInput, ClosedSetIsReached};
ghost use Rattle.theory.specs.Laws.{EarlierOneWay, EarlierGoesOn, EarlierCompares};
ghost use Rattle.theory.specs.Laws.{ShortDecided, SubnetDecided, ReachedDecided, CutOffDecided, DoneDecided};
ghost use Rattle.theory.specs.Laws.{SafeDecided, LeastFound, NoneFound};
ghost use Rattle.theory.specs.Laws.{CanFireAppended, AfterAppended, TimesAppended, RealizesAppended};
ghost use Rattle.theory.specs.Laws.{FinalNumbersAppended, FrontIsFirst, RestIsFirst};
ghost use Rattle.theory.specs.Laws.{AgreeingExchanged};

/// Which tallies (Parikh vectors) some order (firing sequence) does: those that leave no place short and
/// cut none off. Whichever order it is, it ends at the final numbers.
pub fn which_tallies_can_be_done()
    ensures exactly { DoneExactlyIf }
    ensures ends { EndsAtFinalNumbers }
    ensures short { ShortBelowZero }
{}

/// The lexicographically least order of a tally that can be done is found without going back: there is a safe
/// step as long as one is left, and the least safe one is right each time.
pub fn which_order_is_the_first()
    ensures step { SafeStepExists }
    ensures first { LeastSafeIsFirst }
    ensures least { ComputedIsLeastSafe }
    ensures computed { ComputedIsFirst }
    ensures one { FirstIsOne }
    ensures goes_on { FirstOrderGoesOn }
    ensures ends { FirstOrderEnds }
{}

/// Whether a step is safe shows at its input place alone, and any way to find the reached places will do.
pub fn how_a_safe_step_is_found()
    ensures finals { FiringKeepsFinalNumbers }
    ensures by_its_input { SafeByItsInput }
    ensures closed_set { ClosedSetIsReached }
{}

/// Earlier is a strict order that compares any two orders of one length.
pub fn how_orders_compare()
    ensures one_way { EarlierOneWay }
    ensures goes_on { EarlierGoesOn }
    ensures compares { EarlierCompares }
{}

/// The tests that compute decide what is defined by relations.
pub fn what_the_tests_decide()
    ensures short { ShortDecided }
    ensures subnet { SubnetDecided }
    ensures reached { ReachedDecided }
    ensures cut_off { CutOffDecided }
    ensures done { DoneDecided }
    ensures safe { SafeDecided }
    ensures least { LeastFound }
    ensures none { NoneFound }
{}

/// What one order after another fires, where it ends, and that the parts of a first order are first.
pub fn one_order_after_another()
    ensures can_fire { CanFireAppended }
    ensures after { AfterAppended }
    ensures counts { TimesAppended }
    ensures realizes { RealizesAppended }
    ensures finals { FinalNumbersAppended }
    ensures front { FrontIsFirst }
    ensures rest { RestIsFirst }
{}

/// Markings that agree on the net's places, and tallies that agree on its steps, can be exchanged.
pub fn only_the_net_counts()
    ensures exchanged { AgreeingExchanged }
{}

/// The small nets come out as worked out by hand.
pub fn small_nets()
    ensures hold { CasesHold }
{}
