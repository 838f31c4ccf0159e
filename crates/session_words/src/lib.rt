// The layout of the work words: which word or block holds what, as docs/WORK_WORDS.md says in a table; and a word as a wider
// number. Every index counts from word 0; specs/Layout.antt has the same by name.
#![tactic(auto)]

ghost use Rattle.std.specs.Prelude.{◌≡◌, ◌<◌};
ghost use Rattle.base.specs.Limits.{word_limit};

// Single words.
pub const HITS: usize = 0;

pub const U: usize = 1;

pub const V: usize = 2;

pub const PASSED: usize = 3;

pub const KIND: usize = 4;

pub const SIZE: usize = 5;

pub const THRESHOLD: usize = 6;

pub const COLUMNS: usize = 7;

pub const ROW: usize = 8;

pub const SHARED: usize = 9;

pub const HIGHEST: usize = 10;

// Tables of one word a hit.
pub const BACK: usize = 2048;

pub const INDEX: usize = 4096;

pub const REACH: usize = 6144;

pub const BEST: usize = 8192;

// Rows of a column come in blocks of so many. Tables of one word a block, the second with one word more.
pub const BLOCK_ROWS: usize = 64;

pub const TOPS: usize = 10240;

pub const STARTS: usize = 10272;

// A column's update is lent the tables from INDEX up to here.
pub const PART_END: usize = 10305;

// Added to linear scores and thresholds that are kept as words: unsigned words then order as the signed numbers do.
pub const BIAS: u32 = 2147483648;

// −1 as such a word.
pub const MINUS_ONE: u32 = BIAS - 1;

// 2^21: a fraction as a word has its m less 1 above so many, and below them its divisor, from the greatest down.
pub const DIVISOR_SPAN: u32 = 2097152;

pub fn wide(x: u32) -> usize
    ensures { (result ≡ x) × (result < word_limit) }
{
    x as usize
}

pub fn wider(x: u32) -> u64
    ensures { (result ≡ x) × (result < word_limit) }
{
    x as u64
}
