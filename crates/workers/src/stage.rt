// What a worker is doing; the sets of a pass stand beside it.

#[derive(Clone, Copy, Debug, PartialEq, Eq)]
pub enum Stage {
    Idle,
    Open,
    // So many steps are done.
    Sealed(usize),
    // The floor of the look.
    Looking(u64),
}
