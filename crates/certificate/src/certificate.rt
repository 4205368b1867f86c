// What a walk tells: a multiplier, and at most 24 rows, each with its coefficient. Every other row has the coefficient 0.
use inline_list::InlineList;

// A row, counted from 0, with its coefficient.
#[derive(Clone, Copy)]
pub(crate) struct Share {
    pub(crate) row: usize,
    pub(crate) coefficient: u32,
}

#[derive(Clone, Copy)]
pub struct Certificate {
    pub(crate) multiplier: u32,
    pub(crate) shares: InlineList<Share, 24>,
}
