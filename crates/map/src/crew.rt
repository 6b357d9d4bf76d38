// The inner struct of a map: its sixteen worker places, and its count of commits.
ghost use Rattle.std.specs.Prelude.{◌≡◌, ◌^◌, ◌<◌, ◌≤◌, vec_len};

use workers::Worker;

// 1 to 16 of the places are in use. There are sixteen however many are used (docs/DECISIONS.md), so the count
// stands beside them.
#[derive(Drop)]
pub struct Crew {
    pub(crate) workers: Vec<Worker>,
    pub(crate) count: u64,
    pub(crate) commits: u64,
    ghost full: { (vec_len workers ≡ 16) × (1 ≤ count) × (count ≤ 16) × (commits < 2 ^ 32) },
}
