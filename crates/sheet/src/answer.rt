// What a question is answered.
ghost use Rattle.std.specs.Prelude.{◌≡◌};
ghost use Rattle.sheet.specs.Answers.{answer_number, answer_place};

#[derive(Clone, Copy, PartialEq, Eq, Debug)]
pub enum Answer {
    // The question, times this multiplier, is the sum of coefficient × row; the coefficients stand in the list handed in.
    Certified(u32),
    // The question is no cycle: the first place, from 1, whose sum on it is not 0.
    Broken(usize),
    // A number of the certificate would be above 2,147,483,647.
    TooLarge,
}

impl Answer {
    // The number by which people know why there is no certificate.
    pub fn number(&self) -> Option<u32>
        ensures { result ≡ answer_number self.now }
    {
        match self {
            Answer::Certified(_) => None,
            Answer::Broken(_) => Some(9),
            Answer::TooLarge => Some(10),
        }
    }

    // The broken place, from 1.
    pub fn place(&self) -> Option<usize>
        ensures { result ≡ answer_place self.now }
    {
        match self {
            Answer::Broken(place) => Some(*place),
            _ => None,
        }
    }
}
