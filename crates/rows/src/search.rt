// Where in a row a stamp stands, or would stand.
ghost use Rattle.std.specs.Prelude.{◌≡◌, ◌≤◌, ◌==◌, nat_lt, nat_le, length, position};
ghost use Rattle.std.specs.List.{prefix_len};
ghost use Rattle.rows.specs.Row.{row_list};

use crate::row::Row;

impl Row {
    // The position of the first version with that stamp.
    pub(crate) fn find(&self, stamp: u64) -> Option<usize>
        ensures { result ≡ position (λ v. v.write == stamp) (row_list self.now) }
    {
        self.versions.iter().position(|v| v.write == stamp)
    }

    // How many versions at the front are stamped above the stamp: the position at which it would stand.
    // It stands in front as a rule, so the search goes from there.
    pub(crate) fn place_of(&self, stamp: u64) -> usize
        ensures value { result ≡ prefix_len (λ v. nat_lt stamp v.write) (row_list self.now) }
        ensures bound { result ≤ length (row_list self.now) }
    {
        self.not_above(stamp).unwrap_or(self.versions.len())
    }

    // The position of the first version that is not stamped above the stamp.
    fn not_above(&self, stamp: u64) -> Option<usize>
        ensures { result ≡ position (λ v. nat_le v.write stamp) (row_list self.now) }
    {
        self.versions.iter().position(|v| v.write <= stamp)
    }
}
