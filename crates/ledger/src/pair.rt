// Two ledgers that take turns.

// Two ledgers of one kind: the current one holds rows, the spare one takes the next.
#[derive(Drop)]
pub struct Ledgers<L> {
    pub current: L,
    pub spare: L,
}
