// The theorems on questions, each asked for by the contract of a small function, with the name of its proof beside it.
ghost use Rattle.cycle_theory.specs.Questions.{RatioLeast, WalkCertifies, WalkEnds, WalkOnce, WalkGoesOn, WalkZeros, OutcomeRight};

// The ratio of a round is the least one, in lowest terms.
#[tactic(auto, using(crate::proofs::WalkingNets::ratio_least))]
pub fn ratio_least()
    ensures { RatioLeast }
{}

// A certified outcome is a certificate, with at most as many coefficients other than 0 as the question uses steps.
#[tactic(auto, using(crate::proofs::Walking::walk_certifies))]
pub fn walk_certifies()
    ensures { WalkCertifies }
{}

// The walk ends within as many rounds as the question uses steps.
#[tactic(auto, using(crate::proofs::Walking::walk_ends))]
pub fn walk_ends()
    ensures { WalkEnds }
{}

// Each row is taken at most once.
#[tactic(auto, using(crate::proofs::Walking::walk_once))]
pub fn walk_once()
    ensures { WalkOnce }
{}

// Until nothing is left of a cycle, some listed row can be taken.
#[tactic(auto, using(crate::proofs::WalkingNets::walk_goes_on))]
pub fn walk_goes_on()
    ensures { WalkGoesOn }
{}

// The question of zeros is certified with the multiplier 1 and no row.
#[tactic(auto, using(crate::proofs::Walking::walk_zeros))]
pub fn walk_zeros()
    ensures { WalkZeros }
{}

// A question is certified, broken or too large: certified or too large exactly where it is a cycle.
#[tactic(auto, using(crate::proofs::WalkingNets::outcome_right))]
pub fn outcome_right()
    ensures { OutcomeRight }
{}
