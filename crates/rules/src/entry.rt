// The entries of a pass's read set and write set.

// A cell that was read: the write stamp of the version that was visible, and its value.
#[derive(Clone, Copy, Debug, PartialEq, Eq)]
pub struct ReadEntry {
    pub cell: u64,
    pub stamp: u64,
    pub value: u64,
}

// A cell that is to be written, and the value.
#[derive(Clone, Copy, Debug, PartialEq, Eq)]
pub struct WriteEntry {
    pub cell: u64,
    pub value: u64,
}
