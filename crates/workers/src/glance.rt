// look and close: the calls that open and end a look.
ghost use Rattle.std.specs.Prelude.{◌≡◌};
ghost use Rattle.words.specs.Outcome.{told};
ghost use Rattle.workers.specs.Shape.{Bounded, glanced, looking_from};

use crate::stage::Stage;
use crate::worker::Worker;
use words::Refusal;

#[derive(Clone, Copy, Debug, PartialEq, Eq)]
pub enum Glance {
    // A look from a floor.
    Look(u64),
    Close,
}

impl Worker {
    pub fn glance(&mut self, call: Glance) -> Result<u64, Refusal>
        ensures after { (told result, self.new) ≡ glanced call self.old }
        ensures bounds { Bounded self.old × Bounded self.new }
    {
        match (self.stage, call) {
            (Stage::Idle, Glance::Look(floor)) => {
                self.stage = Stage::Looking(floor);
                Ok(floor)
            }
            (Stage::Looking(_), Glance::Close) => {
                self.stage = Stage::Idle;
                Ok(0)
            }
            _ => Err(Refusal::OutOfTurn),
        }
    }

    // The floor of the worker's look, if it looks.
    pub fn look_floor(&self) -> Option<u64>
        ensures value { result ≡ looking_from self.now.stage }
        ensures bounds { Bounded self.now }
    {
        match self.stage {
            Stage::Looking(floor) => Some(floor),
            _ => None,
        }
    }
}
