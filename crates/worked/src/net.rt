// A worked net: its number of steps, its places, each by its effects, and the rows that they leave; with questions to it and
// places that it does not take.
#[derive(Clone, Copy)]
pub struct WorkedNet {
    pub steps: usize,
    pub places: &'static [&'static [i32]],
    pub rows: &'static [&'static [u32]],
    pub questions: &'static [WorkedQuestion],
    // Places of which some new row has a count above 1,048,575, so that no sheet takes them.
    pub too_large: &'static [&'static [i32]],
}

// A cycle of the net with its certificate, or none where a number of it is too large.
#[derive(Clone, Copy)]
pub struct WorkedQuestion {
    pub counts: &'static [u32],
    pub certificate: Option<WorkedCertificate>,
}

// The question, times the multiplier, is the sum of coefficient × row.
#[derive(Clone, Copy)]
pub struct WorkedCertificate {
    pub multiplier: u32,
    pub coefficients: &'static [u32],
}
