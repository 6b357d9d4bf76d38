// One record of the lent memory.
ghost use Rattle.std.specs.Prelude.{◌≡◌};
ghost use Rattle.chains.specs.Chain.{blank};

use words::Version;

// A version and the position of the next older one of its cell; or, in a free record, the position
// of the next free one.
#[derive(Clone, Copy, Debug, PartialEq, Eq)]
pub struct Record {
    pub(crate) version: Version,
    pub(crate) next: Option<usize>,
}

impl Record {
    // A record that holds nothing, to make memory of before it is lent.
    pub fn blank() -> Record
        ensures { result ≡ blank }
    {
        Record {
            version: Version::pending(0, 0),
            next: None,
        }
    }
}
