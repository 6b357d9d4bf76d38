// What is left of a list of calls: the map, and one answer for each call, in order.
use crate::plate::PlateMap;
use tables::VersionTable;
use words::Refusal;

pub struct Ran<'t, T: VersionTable> {
    pub(crate) map: PlateMap<'t, T>,
    pub(crate) answers: Vec<Result<u64, Refusal>>,
}
