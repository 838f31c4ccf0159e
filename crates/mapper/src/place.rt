// The place of a session.
ghost use Rattle.std.specs.Prelude.{◌≤◌};
ghost use Rattle.base.specs.Limits.{hit_limit};

// How many columns are left, the row and m of the next cell, and the greatest of the threshold and of the records in the rows before it.
#[derive(Clone, Copy, Debug, PartialEq, Eq)]
pub struct Place {
    pub columns: usize,
    pub row: usize,
    pub m: u32,
    pub highest: u32,
    ghost few_columns: { columns ≤ hit_limit },
    ghost row_within: { row ≤ columns },
}
