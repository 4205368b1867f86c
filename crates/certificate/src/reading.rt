// Reading a certificate.
ghost use Rattle.std.specs.Prelude.{◌≡◌};
ghost use Rattle.certificate.specs.Shares.{coefficient};

use crate::Certificate;

impl Certificate {
    // By how much the question is multiplied.
    pub fn multiplier(&self) -> u32
        ensures { result ≡ self.now.multiplier }
    {
        self.multiplier
    }

    // The coefficient of a row, counted from 0.
    pub fn coefficient(&self, row: usize) -> u32
        ensures { result ≡ coefficient self.now row }
    {
        let shares = self.shares.as_slice();
        shares
            .iter()
            .find(|share| share.row == row)
            .map_or(0, |share| share.coefficient)
    }
}
