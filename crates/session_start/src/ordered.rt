// The pattern's words in order: where a word begins among them, and whether it stands at an index.
ghost use Rattle.std.specs.Prelude.{◌≡◌, ◌≤◌, length};
ghost use Rattle.base.specs.Limits.{pattern_limit};
ghost use Rattle.sorting.specs.Sorting.{Sorted};

// As many words as a pattern may have.
#[derive(Clone, Copy)]
pub(crate) struct Ordered<'a> {
    pub(crate) words: &'a [u32],
    ghost in_order: { Sorted words.now },
    ghost few: { length words.now ≤ pattern_limit },
}
