// What a search along a cell's list looks for.
ghost use Rattle.std.specs.Prelude.{◌≡◌};
ghost use Rattle.searches.specs.Judge.{judged};

use words::{Refusal, Status, Version};

// A closed list, and no test as a closure: a test that a caller brings would need a `requires` that says
// which test it is.
#[derive(Clone, Copy, Debug, PartialEq, Eq)]
pub enum Sought {
    // The newest version below a stamp that is not aborted; a pending one is waited for.
    Visible(u64),
    // The newest committed version.
    Newest,
    // The newest committed version below a stamp.
    NewestBelow(u64),
}

impl Sought {
    // The version, if it is the one that is sought; none, if the search goes on.
    pub(crate) fn judge(self, version: Version) -> Result<Option<Version>, Refusal>
        ensures { result ≡ judged self version }
    {
        match (self, version.status) {
            (Sought::Visible(below), Status::Pending) if version.write < below => {
                Err(Refusal::Wait(version.write))
            }
            (Sought::Visible(below), Status::Committed) if version.write < below => {
                Ok(Some(version))
            }
            (Sought::Newest, Status::Committed) => Ok(Some(version)),
            (Sought::NewestBelow(below), Status::Committed) if version.write < below => {
                Ok(Some(version))
            }
            _ => Ok(None),
        }
    }
}
