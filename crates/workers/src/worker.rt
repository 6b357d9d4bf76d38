// A worker's place: its clock, its stage, and the sets of the pass that it runs.
use crate::stage::Stage;
use rules::{ReadEntry, WriteEntry};
use std::marker::Model;

// Both sets have room for their 16 entries from the making on, so no call needs memory. Contracts see a
// worker as the worker of the rules.
#[derive(Drop)]
pub struct Worker {
    pub(crate) clock: u64,
    pub(crate) boost: u64,
    pub(crate) last: u64,
    pub(crate) stage: Stage,
    pub(crate) reads: Vec<ReadEntry>,
    pub(crate) writes: Vec<WriteEntry>,
}

impl Model for Worker {
    ghost use Rattle.rules.specs.Model.{Worker as Turning};

    ghost Value = { Turning };

    ghost use Rattle.workers.specs.Shape.{shape, InBounds};

    ghost view = { shape };

    ghost invariant = { InBounds };
}
