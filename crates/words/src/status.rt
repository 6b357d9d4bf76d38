// Where a version stands: its writer has not decided yet, has committed it, or has aborted it.
ghost use Rattle.std.specs.Prelude.{◌≡◌, Some};
ghost use Rattle.words.specs.Status.{number, name, pending, ended};

use std::fmt;

#[derive(Clone, Copy, Debug, PartialEq, Eq)]
pub enum Status {
    Pending,
    Committed,
    Aborted,
}

// How a pending version ends.
#[derive(Clone, Copy, Debug, PartialEq, Eq)]
pub enum Ending {
    Commit,
    Abort,
}

impl Status {
    pub fn is_pending(self) -> bool
        ensures { result ≡ pending self }
    {
        self == Status::Pending
    }

    pub fn name(self) -> &'static str
        ensures { result.now ≡ name self }
    {
        match self {
            Status::Pending => "pending",
            Status::Committed => "committed",
            Status::Aborted => "aborted",
        }
    }
}

// The number of a status in every promise: 0 pending, 1 committed, 2 aborted.
impl From<Status> for u64 {
    ghost from_gives = { λ s n. n ≡ number s };

    fn from(status: Status) -> u64 {
        match status {
            Status::Pending => 0,
            Status::Committed => 1,
            Status::Aborted => 2,
        }
    }
}

// The name; `name` stands beside it, since a `Display` fails with its writer.
impl fmt::Display for Status {
    ghost output = { λ s. Some (name s) };

    fn fmt<W: fmt::Write>(&self, f: &mut fmt::Formatter<W>) -> fmt::Result {
        f.write_str(self.name())
    }
}

// The status of a version that has ended so.
impl From<Ending> for Status {
    ghost from_gives = { λ e s. s ≡ ended e };

    fn from(ending: Ending) -> Status {
        match ending {
            Ending::Commit => Status::Committed,
            Ending::Abort => Status::Aborted,
        }
    }
}
