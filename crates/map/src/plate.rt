// The map: a table that is lent to it, and its workers.
use crate::crew::Crew;
use tables::VersionTable;

#[derive(Drop)]
pub struct PlateMap<'t, T: VersionTable> {
    pub(crate) table: &'t mut T,
    pub(crate) crew: Crew,
}
