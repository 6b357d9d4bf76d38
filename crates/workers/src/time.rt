// A clock's reading, in units of 0.1 microsecond.
ghost use Rattle.std.specs.Prelude.{◌^◌, ◌<◌};

// No clock passes 2^50 - 1.
#[derive(Clone, Copy, Debug, PartialEq, Eq)]
pub struct Time {
    pub units: u64,
    ghost short: { units < 2 ^ 50 },
}
