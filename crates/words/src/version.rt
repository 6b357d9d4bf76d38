// One version of a cell.
ghost use Rattle.std.specs.Prelude.{◌≡◌, Some};
ghost use Rattle.words.specs.Version.{first_version, new_version, shown};

use crate::status::Status;
use std::fmt;

// The value that one writer gave a cell, under the writer's timestamp.
#[derive(Clone, Copy, Debug, PartialEq, Eq)]
pub struct Version {
    // The timestamp of the pass that wrote it.
    pub write: u64,
    // The latest timestamp of a pass that is known to have read it.
    pub read: u64,
    pub status: Status,
    pub value: u64,
}

impl Version {
    // The version that every cell has after a clear: committed, both stamps 0, value 0.
    pub fn first() -> Version
        ensures { result ≡ first_version }
    {
        Version {
            write: 0,
            read: 0,
            status: Status::Committed,
            value: 0,
        }
    }

    // A new version: pending, both stamps the writer's.
    pub fn pending(stamp: u64, value: u64) -> Version
        ensures { result ≡ new_version stamp value }
    {
        Version {
            write: stamp,
            read: stamp,
            status: Status::Pending,
            value,
        }
    }
}

// A fixed vector of versions fills its unused places with it. It is not derived, since no status is the
// default one.
impl Default for Version {
    ghost is_default = { λ v. v ≡ first_version };

    fn default() -> Version {
        Version::first()
    }
}

// As [1280: 2850 committed, read 2305]: stamp, value, status and read stamp.
impl fmt::Display for Version {
    ghost output = { λ v. Some (shown v) };

    fn fmt<W: fmt::Write>(&self, f: &mut fmt::Formatter<W>) -> fmt::Result {
        let Version {
            write,
            read,
            status,
            value,
        } = self;
        write!(f, "[{write}: {value} {status}, read {read}]")
    }
}
