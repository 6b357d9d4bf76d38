// begin, pulse and sync: the calls that move a worker's clock.
ghost use Rattle.std.specs.Prelude.{◌≡◌};
ghost use Rattle.words.specs.Outcome.{told, accepted};
ghost use Rattle.rules.specs.Turns.{sync_by, tick_by, pass_stamp};
ghost use Rattle.workers.specs.Shape.{Bounded, stage_after};

use crate::seat::Seat;
use crate::stage::Stage;
use crate::time::Time;
use crate::worker::Worker;
use words::Refusal;

const LAST_CLOCK: u64 = 1125899906842623;

const LONGEST: u64 = 36000000000;

// The calls by which time goes on.
#[derive(Clone, Copy, Debug, PartialEq, Eq)]
pub enum Tick {
    Begin,
    Pulse,
}

impl Worker {
    // Adds the elapsed units to the clock and answers the new timestamp; begin opens a pass.
    pub fn tick(&mut self, seat: Seat, call: Tick, units: u64) -> Result<u64, Refusal>
        ensures after { (told result, self.new) ≡ tick_by (stage_after call) seat.number units self.old }
        ensures bounds { Bounded self.old × Bounded self.new }
    {
        let clock = self.clock + units.min(LONGEST).max(1);
        let adjusted = (clock + self.boost).max(self.last + 1);
        match (self.stage, call) {
            (Stage::Idle, _) if adjusted > LAST_CLOCK => Err(Refusal::ClockSpent),
            (Stage::Idle, Tick::Begin) => {
                self.reads.clear();
                self.writes.clear();
                self.stage = Stage::Open;
                self.clock = clock;
                self.last = adjusted;
                Ok(seat.stamp(adjusted))
            }
            (Stage::Idle, Tick::Pulse) => {
                self.clock = clock;
                self.last = adjusted;
                Ok(seat.stamp(adjusted))
            }
            _ => Err(Refusal::OutOfTurn),
        }
    }

    // What the clock reads.
    pub fn time(&self) -> Time
        ensures value { result.units ≡ self.now.clock }
        ensures bounds { Bounded self.now }
    {
        Time { units: self.clock }
    }

    // The last adjusted clock.
    pub fn last(&self) -> Time
        ensures value { result.units ≡ self.now.last }
        ensures bounds { Bounded self.now }
    {
        Time { units: self.last }
    }

    // The timestamp of the pass that the worker runs: its last.
    pub fn stamp(&self, seat: Seat) -> u64
        ensures value { result ≡ pass_stamp self.now seat.number }
        ensures bounds { Bounded self.now }
    {
        seat.stamp(self.last)
    }

    // Brings the clock up to another's reading, and answers it.
    pub fn sync(&mut self, other: Time) -> u64
        ensures after { (accepted result, self.new) ≡ sync_by other.units self.old }
        ensures bounds { Bounded self.old × Bounded self.new }
    {
        self.clock = self.clock.max(other.units);
        self.clock
    }
}
