// How many steps a net has: from 1 to 24.
ghost use Rattle.std.specs.Prelude.{◌≡◌, ◌≤◌, MatchResult};

use crate::SheetFault;

#[derive(Clone, Copy, PartialEq, Eq, Debug)]
pub struct StepCount {
    n: usize,
    ghost few: { (1 ≤ n) × (n ≤ 24) },
}

impl StepCount {
    // The number handed in, where it is from 1 to 24; any other is refused.
    pub fn new(n: usize) -> Result<StepCount, SheetFault>
        ensures { MatchResult result (λ steps. steps.n ≡ n) (λ fault. (fault ≡ SheetFault.StepCount) × ((1 ≤ n) × (n ≤ 24) → ⊥)) }
    {
        if n < 1 || n > 24 {
            return Err(SheetFault::StepCount);
        }
        Ok(StepCount { n })
    }

    // The number of steps.
    pub fn get(&self) -> usize
        ensures { result ≡ self.now.n }
    {
        self.n
    }
}
