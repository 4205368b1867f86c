// The theorems on nets, each asked for by the contract of a small function, with the name of its proof beside it. Five have an answer
// in proofs/ instead, since `grind`, which applies a proof that is named here, does not match the form of their conclusions.
#![tactic(auto)]

ghost use Rattle.cycle_theory.specs.Theorems.{TssMinimal, TssSums, TssSame, ThirdRow, OnePair, PairNew, TssOrder, OneList, OneNumber, SameSteps, UnitsMinimal, StepMinimal, TssReaches, DivisorGreatest};

pub mod questions;

// The method's list is strictly ascending, and holds a count list exactly when it is a minimal cycle.
#[tactic(auto, using(crate::proofs::Theorems::tss_minimal))]
pub fn tss_minimal()
    ensures { TssMinimal }
{}

// Every cycle, times some positive number, is a sum of natural multiples of listed rows.
#[tactic(auto, using(crate::proofs::Theorems::tss_sums))]
pub fn tss_sums()
    ensures { TssSums }
{}

// Two lists of places have the same list of rows exactly when they have the same cycles.
#[tactic(auto, using(crate::proofs::Theorems::tss_same))]
pub fn tss_same()
    ensures { TssSame }
{}

// The row of a pair survives cleaning exactly when no third row uses only steps which the pair uses.
#[tactic(auto, using(crate::proofs::Theorems::third_row))]
pub fn third_row()
    ensures { ThirdRow }
{}

// A row that survives is made by one pair only.
#[tactic(auto, using(crate::proofs::Theorems::one_pair))]
pub fn one_pair()
    ensures { OnePair }
{}

// No pair makes a row that was there.
#[tactic(auto, using(crate::proofs::Theorems::pair_new))]
pub fn pair_new()
    ensures { PairNew }
{}

// The list does not depend on the order of the places.
#[tactic(auto, using(crate::proofs::Theorems::tss_order))]
pub fn tss_order()
    ensures { TssOrder }
{}

// There is one list of the minimal cycles.
pub fn one_list()
    ensures { OneList }
{}

// There is one number of minimal cycles.
pub fn one_number()
    ensures { OneNumber }
{}

// Two minimal cycles, one of which uses only steps which the other uses, are equal.
pub fn same_steps()
    ensures { SameSteps }
{}

// With no place, the minimal cycles are the single steps.
#[tactic(auto, using(crate::proofs::Theorems::units_minimal))]
pub fn units_minimal()
    ensures { UnitsMinimal }
{}

// A step takes the list of the minimal cycles of some places to that of one place more.
pub fn step_minimal()
    ensures { StepMinimal }
{}

// Every cycle other than the zeros has a listed row within it.
#[tactic(auto, using(crate::proofs::Theorems::tss_reaches))]
pub fn tss_reaches()
    ensures { TssReaches }
{}

// What rows are divided by is a common divisor of their counts, and a multiple of every other.
pub fn divisor_greatest()
    ensures { DivisorGreatest }
{}
