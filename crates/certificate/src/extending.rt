// The certificate of a walk that begins, and of one that takes a row more.
ghost use Rattle.std.specs.Prelude.{Some, None, MatchOption};
ghost use Rattle.certificate.specs.Extending.{Empty, Scaled, Extended};

use crate::Certificate;
use crate::certificate::Share;
use crate::numbers::{narrow, product};
use crate::ratio::Ratio;
use inline_list::InlineList;

impl Certificate {
    // The multiplier 1 and no row.
    pub(crate) fn empty() -> Certificate
        ensures { Empty result }
    {
        Certificate {
            multiplier: 1,
            shares: InlineList::new(Share {
                row: 0,
                coefficient: 0,
            }),
        }
    }

    // Everything multiplied by p; none where a number is then too large.
    #[tactic(auto, using(crate::proofs::Multiplying::all_small_more, crate::proofs::Multiplying::times_large))]
    fn scaled(&self, p: u32) -> Option<Certificate>
        ensures { Scaled p self.now result }
    {
        let mut all = Certificate::empty();
        all.multiplier = narrow(product(p, self.multiplier))?;
        for share in self.shares.as_slice() {
            let coefficient = narrow(product(p, share.coefficient))?;
            all.shares
                .push(Share {
                    coefficient,
                    ..*share
                })
                .ok()?;
        }
        Some(all)
    }

    // Multiplies everything by the ratio's bottom, and puts its top as the coefficient of one row more; none where a number is then too
    // large, or where there are 24 rows: what then stands in the certificate is of no use.
    pub(crate) fn extend(&mut self, row: usize, ratio: &Ratio) -> Option<()>
        ensures { MatchOption result (Extended row ratio.now.top ratio.now.bottom self.old None) (λ _. Extended row ratio.now.top ratio.now.bottom self.old (Some self.new)) }
    {
        *self = self.scaled(ratio.bottom)?;
        let coefficient = narrow(u64::from(ratio.top))?;
        self.shares.push(Share { row, coefficient }).ok()
    }
}
