// A row of counts, one for each of 24 steps.
ghost use Rattle.std.specs.Prelude.{◌≡◌, ◌≤◌, length, replicate, MatchOption};
ghost use Rattle.ledger.specs.Rows.{Small, Mask, FirstLarge, nonzeros};

// The most that a count of a row held may be.
pub const MOST_COUNT: u32 = 1_048_575;

#[derive(Clone, Copy, PartialEq, Eq, Debug)]
pub struct Row {
    pub counts: [u32; 24],
}

impl Row {
    // The row of zeros.
    pub fn zeros() -> Row
        ensures { result.counts ≡ replicate 24 0 }
    {
        Row { counts: [0; 24] }
    }

    // The first step, from 1, whose count is above 1,048,575.
    pub fn first_large(&self) -> Option<usize>
        ensures { MatchOption result (Small self.now.counts) (λ j. FirstLarge self.now.counts j) }
    {
        let large = self.counts.iter().position(|count| *count > MOST_COUNT);
        large.map(|j| j + 1)
    }

    // The steps in use: bit j - 1 is 1 exactly when step j has a count other than 0.
    pub fn used(&self) -> u32
        ensures { Mask self.now.counts result }
    {
        let mut mask = 0;
        for (j, count) in self.counts.iter().enumerate() {
            if *count != 0 {
                mask |= 1 << j;
            }
        }
        mask
    }

    // How many steps are in use. `wide` is for callers that read no count themselves.
    pub(crate) fn nonzeros(&self) -> usize
        ensures value { result ≡ nonzeros self.now.counts }
        ensures wide { length self.now.counts ≡ 24 }
        ensures bound { result ≤ 24 }
    {
        // `filter` and `count` would take some six times as long, since two loops stand within one another there.
        let mut n = 0;
        for count in &self.counts {
            if *count != 0 {
                n += 1;
            }
        }
        n
    }
}
