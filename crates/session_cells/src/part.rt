// The part: the work words from INDEX up to PART_END. The indices stand at its head, and here is where its other tables begin.
use session_words::{BEST, INDEX, PART_END, REACH, STARTS, TOPS};

pub(crate) const REACH_AT: usize = REACH - INDEX;

pub(crate) const BEST_AT: usize = BEST - INDEX;

pub(crate) const TOPS_AT: usize = TOPS - INDEX;

pub(crate) const STARTS_AT: usize = STARTS - INDEX;

pub(crate) const PART_LENGTH: usize = PART_END - INDEX;

pub(crate) type Part = [u32; PART_LENGTH];
