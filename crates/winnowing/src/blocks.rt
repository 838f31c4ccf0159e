// Blocks of letters: their values, read ahead of the scan, and the ranks of the k-mers that end in them.
ghost use Rattle.std.specs.Prelude.{◌+◌, ◌≤◌, ◌<◌, ◌≡◌, length, get_or, MatchOption};
ghost use Rattle.base.specs.Limits.{letter_limit};
ghost use Rattle.kmers.specs.Letters.{value, foreign};
ghost use Rattle.winnowing.specs.Blocks.{block_size, ranks_size, slot_of, IsBlock, IsCarried};

use base::W_LIMIT;
use letters::{FOREIGN, value};

// How many letters a block has.
pub(crate) const BLOCK: usize = 512;

// How many ranks are kept of the block before: those of the widest window.
pub(crate) const BACK: usize = W_LIMIT as usize;

// How many ranks there are room for.
pub(crate) const RANKS: usize = BACK + BLOCK;

// The letters, and the values of those from `base` on. Where the letters end in the block, FOREIGN stands behind them.
#[derive(Drop)]
pub(crate) struct Block<'a> {
    pub(crate) letters: &'a [u8],
    values: [u8; BLOCK],
    pub(crate) base: usize,
    ghost is_block: { IsBlock letters.now values base },
    ghost few: { length letters.now ≤ letter_limit },
}

impl<'a> Block<'a> {
    // The first block of the letters.
    pub(crate) fn first(letters: &'a [u8]) -> Self
        requires { length letters.now ≤ letter_limit }
        ensures { (result.letters.now ≡ letters.now) × (result.base ≡ 0) }
    {
        let mut values = [0u8; BLOCK];
        read_values(letters, 0, &mut values);
        Block {
            letters,
            values,
            base: 0,
        }
    }

    // Reads the block from `base` on.
    pub(crate) fn read(&mut self, base: usize)
        requires { base ≤ length self.old.letters.now }
        ensures { (self.new.letters.now ≡ self.old.letters.now) × (self.new.base ≡ base) }
    {
        read_values(self.letters, base, &mut self.values);
        self.base = base;
    }

    // Reads the block from `from` on where the block at hand ends before `to`.
    pub(crate) fn cover(&mut self, from: usize, to: usize)
        requires from_bound { (self.old.base ≤ from) × (from ≤ length self.old.letters.now) }
        requires to_bound { to ≤ from + block_size }
        ensures same { self.new.letters.now ≡ self.old.letters.now }
        ensures covered { (self.new.base ≤ from) × (to ≤ self.new.base + block_size) }
    {
        if self.base + BLOCK < to {
            self.read(from);
        }
    }

    // The value of the letter at a position of the block, if it is one of the eight; past the end of the letters there is none. The
    // caller has `base` at hand: a loop that writes ranks would read it anew from the block at each letter.
    pub(crate) fn digit_at(&self, base: usize, at: usize) -> Option<u8>
        requires { (base ≡ self.now.base) × (self.now.base ≤ at) × (at < self.now.base + block_size) × (at ≤ length self.now.letters.now) }
        ensures { MatchOption result (value (get_or self.now.letters.now at 0) ≡ foreign)
            (λ v. (v ≡ value (get_or self.now.letters.now at 0)) × (v < 4)) }
    {
        let v = self.values[at - base];
        if v == FOREIGN { None } else { Some(v) }
    }
}

// Reads the values of the letters from `base` on, and puts FOREIGN behind them where the letters end. No turn depends on another, so
// that many letters are read at a time.
fn read_values(letters: &[u8], base: usize, values: &mut [u8; BLOCK])
    requires { base ≤ length letters.now }
    ensures { IsBlock letters.now values.new base }
{
    let to = (letters.len() - base).min(BLOCK);
    for i in 0..to {
        values[i] = value(letters[base + i]);
    }
    if to < BLOCK {
        values[to] = FOREIGN;
    }
}

// Where the rank of the k-mer at a position stands.
pub(crate) fn slot(at: usize, last: usize, base: usize) -> usize
    requires { (base ≤ at + last) × (at + last ≤ base + block_size) × (at + last ≤ letter_limit) }
    ensures { (result ≡ slot_of last base at) × (result ≤ ranks_size) }
{
    at + last + BACK - base
}

// Takes the last ranks of a block to the front, where the next block looks for them.
pub(crate) fn carry(ranks: &mut [u32; RANKS])
    ensures { IsCarried ranks.old ranks.new }
{
    ranks.copy_within(BLOCK.., 0);
}
