// The limits of document 01 as constants, the bytes of lines, the test of a range, the smaller of two numbers, and arrays of one value.
#![tactic(auto)]

pub mod refusal;

ghost use Rattle.std.specs.Prelude.{◌≡◌, length, min};
ghost use Rattle.base.specs.Limits.{outside};
ghost use Rattle.base.specs.Zeros.{copies};

// k is 1 to K_LIMIT, the window 1 to W_LIMIT, and a weight 1 to WEIGHT_LIMIT.
pub const K_LIMIT: u32 = 15;

pub const W_LIMIT: u32 = 64;

pub const WEIGHT_LIMIT: u32 = 1000;

// g, the divisor of the threshold f/g, is 1 to DIVISOR_LIMIT.
pub const DIVISOR_LIMIT: u32 = 1000;

pub const LETTER_LIMIT: usize = 1048576;

// Entries of a text, and so the limit of c and of an interval's length.
pub const TEXT_LIMIT: usize = 65535;

// Entries of a pattern; `maplist` reads lines of as many letters.
pub const PATTERN_LIMIT: usize = 4096;

pub const HIT_LIMIT: usize = 2048;

pub const WORK_WORDS: usize = 16384;

// Numbers of 32 bits are below this.
pub const WORD_LIMIT: u64 = 4294967296;

pub const LINE_FEED: u8 = 10;

pub const SPACE: u8 = 32;

pub const MINUS: u8 = 45;

pub const PLUS: u8 = 43;

pub const SLASH: u8 = 47;

pub const ZERO: u8 = 48;

// Whether n is outside low to high.
pub fn outside(low: u32, high: u32, n: u32) -> bool
    ensures { result ≡ outside low high n }
{
    !(low..=high).contains(&n)
}

pub fn smaller(a: usize, b: usize) -> usize
    ensures { result ≡ min a b }
{
    a.min(b)
}

// An array with x in each place.
pub fn copies<T: Copy, const N: usize>(x: T) -> [T; N]
    ensures len { length result ≡ N }
    ensures value { result ≡ copies N x }
{
    [x; N]
}
