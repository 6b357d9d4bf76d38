// write and seal: the calls of an open pass that need no table.
ghost use Rattle.std.specs.Prelude.{◌≡◌};
ghost use Rattle.words.specs.Outcome.{told};
ghost use Rattle.workers.specs.Shape.{Bounded, edited};

use crate::stage::Stage;
use crate::worker::Worker;
use rules::WriteEntry;
use searches::find;
use words::Refusal;

#[derive(Clone, Copy, Debug, PartialEq, Eq)]
pub enum Edit {
    Write(WriteEntry),
    Seal,
}

impl Worker {
    pub fn edit(&mut self, call: Edit) -> Result<u64, Refusal>
        ensures after { (told result, self.new) ≡ edited call self.old }
        ensures bounds { Bounded self.old × Bounded self.new }
    {
        match (self.stage, call) {
            // Replaces the entry for the cell or adds one.
            (Stage::Open, Edit::Write(entry)) => match find(self.writes.as_slice(), entry.cell) {
                Some(i) => {
                    self.writes[i] = entry;
                    Ok(self.writes.len() as u64)
                }
                None if self.writes.len() >= 16 => Err(Refusal::SetFull),
                None => {
                    self.writes.push_reserved(entry);
                    Ok(self.writes.len() as u64)
                }
            },
            (Stage::Open, Edit::Seal) => {
                self.stage = Stage::Sealed(0);
                Ok(2 * (self.writes.len() + self.reads.len()) as u64)
            }
            _ => Err(Refusal::OutOfTurn),
        }
    }
}
