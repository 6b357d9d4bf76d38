// The number of a worker, known to be below 16.
ghost use Rattle.std.specs.Prelude.{◌≡◌, ◌<◌, ◌≤◌, ◌^◌, MatchResult};
ghost use Rattle.words.specs.declared.refusal.Refusal.TheVariants.{NoWorker};
ghost use Rattle.rules.specs.Stamps.{timestamp};

use words::Refusal;

#[derive(Clone, Copy, Debug, PartialEq, Eq)]
pub struct Seat {
    number: u64,
    ghost few: { number < 16 },
}

impl Seat {
    pub fn number(self) -> u64
        ensures { result ≡ self.number }
    {
        self.number
    }

    // The timestamp of a clock's reading, so many units.
    pub(crate) fn stamp(self, units: u64) -> u64
        requires { units < 2 ^ 50 }
        ensures { result ≡ timestamp units self.number }
    {
        units * 256 + self.number
    }
}

// The seat of a number, if there is one.
impl TryFrom<u64> for Seat {
    type Error = Refusal;

    ghost try_from_gives = { λ n r. MatchResult r (λ s. (n < 16) × (s.number ≡ n)) (λ e. (16 ≤ n) × (e ≡ NoWorker)) };

    fn try_from(number: u64) -> Result<Seat, Refusal> {
        if number < 16 {
            Ok(Seat { number })
        } else {
            Err(Refusal::NoWorker)
        }
    }
}
