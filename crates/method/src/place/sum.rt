// The sum of a place on a row: the total of effect × count.
ghost use Rattle.std.specs.Prelude.{◌≡◌};
ghost use Rattle.cycle_theory.specs.Nets.{sum};
ghost use Rattle.method.specs.Places.{effects_of};

use crate::Place;
use ledger::Row;

impl Place {
    // How many tokens the place gains when each step runs as often as the row counts it; below 0 where it loses.
    pub fn sum(&self, row: &Row) -> i64
        ensures { result ≡ sum (effects_of self.now) row.now.counts }
    {
        let mut total = 0i64;
        let effects = self.effects();
        // By the number of the step: each effect goes with the count of its step.
        for (j, effect) in effects.iter().enumerate() {
            total += *effect as i64 * row.counts[j] as i64;
        }
        total
    }
}
