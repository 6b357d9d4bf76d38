// The floor and the keep line: least timestamps over the workers of the map, each by a loop over their slice.
ghost use Rattle.std.specs.Prelude.{◌≡◌, ℕ, ◌-◌, ◌<◌, ◌≤◌, min, length};
ghost use Rattle.rules.specs.Stamps.{least, look_floor};
ghost use Rattle.map.specs.Plate.{seated, last_of};

use workers::Worker;

// The least last timestamp over the workers.
pub(crate) fn floor(workers: &[Worker]) -> u64
    requires { (length workers.now ≤ 16) × (0 < length workers.now) }
    ensures { result ≡ least (last_of workers.now) (length workers.now - 1) }
{
    let mut least = u64::MAX;
    for (i, worker) in workers.iter().enumerate() {
        least = least.min(worker.last().units * 256 + i as u64);
    }
    least
}

// The lesser of a stamp and the floors of the workers that look.
pub(crate) fn keep(workers: &[Worker], floor: u64) -> u64
    requires { 0 < length workers.now }
    ensures { result ≡ min floor (least (λ w. look_floor (seated workers.now w).stage floor) (length workers.now - 1)) }
{
    let mut least = floor;
    for worker in workers {
        if let Some(look) = worker.look_floor() {
            least = least.min(look);
        }
    }
    least
}
