// The test of a cut.
ghost use Rattle.std.specs.Prelude.{◌≡◌};
ghost use Rattle.tables.specs.Versions.{stays};

use words::Version;

// Whether a version stays when its cell is cut at the stamp. Every table asks this and nothing
// else, so that all tables cut alike.
pub fn stays(version: &Version, stamp: u64) -> bool
    ensures { result ≡ stays stamp version.now }
{
    version.write >= stamp
}
