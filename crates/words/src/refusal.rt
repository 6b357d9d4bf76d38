// Why a call is turned down. One list for the whole product, each case with its number; the
// detail of a refusal is 0 but for `Wait` and `BadLine`.
ghost use Rattle.std.specs.Prelude.{◌≡◌, Some};
ghost use Rattle.words.specs.Refusal.{number, detail, name};

use std::fmt;

#[derive(Clone, Copy, Debug, PartialEq, Eq)]
pub enum Refusal {
    // 1: a worker is not below the map's count.
    NoWorker,
    // 2: a cell is not below the table's count.
    NoCell,
    // 3: the worker's stage does not allow the call.
    OutOfTurn,
    // 4: a 17th entry would be needed in a set of at most 16.
    SetFull,
    // 5: the adjusted clock would pass 2^50 - 1.
    ClockSpent,
    // 6: the search met a pending version; its timestamp is the detail.
    Wait(u64),
    // 7: the list has a version of that timestamp already.
    StampTaken,
    // 8: the cell has no free place.
    NoPlace,
    // 9: the list has no such version, or the version to mark is not pending.
    NoVersion,
    // 10: the version read is gone, or is not the visible one any more.
    Changed,
    // 11: the version to be overwritten was read under a later timestamp.
    ReadLater,
    // 12: the target is outside 1 to 9,999.
    BadTarget,
    // 13: a script line does not fit; the detail is the place of its first wrong word.
    BadLine(u64),
}

// Number and detail are two halves of a refusal, so neither is a conversion.
impl Refusal {
    pub fn number(self) -> u64
        ensures { result ≡ number self }
    {
        match self {
            Refusal::NoWorker => 1,
            Refusal::NoCell => 2,
            Refusal::OutOfTurn => 3,
            Refusal::SetFull => 4,
            Refusal::ClockSpent => 5,
            Refusal::Wait(_) => 6,
            Refusal::StampTaken => 7,
            Refusal::NoPlace => 8,
            Refusal::NoVersion => 9,
            Refusal::Changed => 10,
            Refusal::ReadLater => 11,
            Refusal::BadTarget => 12,
            Refusal::BadLine(_) => 13,
        }
    }

    pub fn detail(self) -> u64
        ensures { result ≡ detail self }
    {
        match self {
            Refusal::Wait(stamp) => stamp,
            Refusal::BadLine(place) => place,
            _ => 0,
        }
    }

    pub fn name(self) -> &'static str
        ensures { result.now ≡ name self }
    {
        match self {
            Refusal::NoWorker => "NO WORKER",
            Refusal::NoCell => "NO CELL",
            Refusal::OutOfTurn => "OUT OF TURN",
            Refusal::SetFull => "SET FULL",
            Refusal::ClockSpent => "CLOCK SPENT",
            Refusal::Wait(_) => "WAIT",
            Refusal::StampTaken => "STAMP TAKEN",
            Refusal::NoPlace => "NO PLACE",
            Refusal::NoVersion => "NO VERSION",
            Refusal::Changed => "CHANGED",
            Refusal::ReadLater => "READ LATER",
            Refusal::BadTarget => "BAD TARGET",
            Refusal::BadLine(_) => "BAD LINE",
        }
    }
}

// The name, without the detail. `name` stands beside it, since a `Display` fails with its writer.
impl fmt::Display for Refusal {
    ghost output = { λ e. Some (name e) };

    fn fmt<W: fmt::Write>(&self, f: &mut fmt::Formatter<W>) -> fmt::Result {
        f.write_str(self.name())
    }
}
