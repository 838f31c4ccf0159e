// Writers of bytes, of numbers and of the printed line into a lent buffer. Each writes all or nothing.
ghost use Rattle.std.specs.Prelude.{◌≡◌, [], ◌∷◌, ◌++◌, ◌≤◌, length, drop};
ghost use Rattle.base.specs.Bytes.{slash};
ghost use Rattle.list_line.specs.Line.{decimal, signed, shown_score, sign, line, fitting, LineWritten};
ghost use Rattle.list_line.specs.Writing.{Written};

use base::{LINE_FEED, MINUS, PLUS, SLASH, SPACE, ZERO};
use mappings::Score;
use strands::Strand;

// Writes the bytes from an index on and answers the next index. Where they do not all fit it writes none, and the index stays.
pub fn put_bytes(out: &mut [u8], at: usize, bytes: &[u8]) -> usize
    ensures { Written bytes.now at out.old out.new result }
{
    if at > out.len() || bytes.len() > out.len() - at {
        return at;
    }
    let next = at + bytes.len();
    out[at..next].copy_from_slice(bytes);
    next
}

// The same for one byte.
pub fn put_byte(out: &mut [u8], at: usize, b: u8) -> usize
    ensures { Written (b ∷ []) at out.old out.new result }
{
    put_bytes(out, at, &[b])
}

// The decimal digits of n at the end of ten bytes; answers where they begin. They are written backwards, since the lowest is known first.
fn write_digits(digits: &mut [u8; 10], n: u32) -> usize
    ensures { (result ≤ 10) × (drop result digits.new ≡ decimal n) }
{
    let mut rest = n;
    for i in (0..10).rev() {
        digits[i] = ZERO + (rest % 10) as u8;
        rest /= 10;
        if rest == 0 {
            return i;
        }
    }
    0
}

// A number in decimal, as `put_bytes` writes bytes.
pub fn put_decimal(out: &mut [u8], at: usize, n: u32) -> usize
    ensures { Written (decimal n) at out.old out.new result }
{
    let mut digits = [0u8; 10];
    let from = write_digits(&mut digits, n);
    put_bytes(out, at, &digits[from..])
}

// A signed number in decimal, as `put_bytes` writes bytes. Minus and digits stand in a local buffer first: what does not fit is not
// written in part.
pub fn put_signed(out: &mut [u8], at: usize, z: i32) -> usize
    ensures { Written (signed z) at out.old out.new result }
{
    if z >= 0 {
        return put_decimal(out, at, z as u32);
    }
    let mut text = [0u8; 11];
    let mut end = put_byte(&mut text, 0, MINUS);
    end = put_decimal(&mut text, end, z.unsigned_abs());
    put_bytes(out, at, &text[..end])
}

// A fraction as its two numbers with a slash between them, as `put_bytes` writes bytes; by a local buffer, as in `put_signed`.
fn put_fraction(out: &mut [u8], at: usize, m: u32, divisor: u32) -> usize
    ensures { Written (decimal m ++ slash ∷ decimal divisor) at out.old out.new result }
{
    let mut text = [0u8; 21];
    let mut end = put_decimal(&mut text, 0, m);
    end = put_byte(&mut text, end, SLASH);
    end = put_decimal(&mut text, end, divisor);
    put_bytes(out, at, &text[..end])
}

// A score, as `put_bytes` writes bytes.
pub fn put_score(out: &mut [u8], at: usize, score: Score) -> usize
    ensures { Written (shown_score score) at out.old out.new result }
{
    match score {
        Score::Number(z) => put_signed(out, at, z),
        Score::Fraction { m, divisor } => put_fraction(out, at, m, divisor),
    }
}

// The sign of a strand.
fn sign(strand: Strand) -> u8
    ensures { result ≡ sign strand }
{
    match strand {
        Strand::Forward => PLUS,
        Strand::Reverse => MINUS,
    }
}

// A line of the list at the buffer's start; answers its length, or 0 where it is longer than the buffer: then nothing is written. It has
// no other caller than `line`, whose contract can't speak of the bytes behind the part that it returns.
fn write_line(
    out: &mut [u8],
    first: u32,
    last: u32,
    score: Score,
    m: u32,
    per_mille: u32,
    strand: Strand,
) -> usize
    ensures { LineWritten (line first last score m per_mille strand) out.old out.new result }
{
    let mut text = [0u8; 68];
    let mut at = put_decimal(&mut text, 0, first);
    at = put_byte(&mut text, at, SPACE);
    at = put_decimal(&mut text, at, last);
    at = put_byte(&mut text, at, SPACE);
    at = put_score(&mut text, at, score);
    at = put_byte(&mut text, at, SPACE);
    at = put_decimal(&mut text, at, m);
    at = put_byte(&mut text, at, SPACE);
    at = put_decimal(&mut text, at, per_mille);
    at = put_byte(&mut text, at, SPACE);
    at = put_byte(&mut text, at, sign(strand));
    at = put_byte(&mut text, at, LINE_FEED);
    put_bytes(out, 0, &text[..at])
}

// A line of the list, as the part of the buffer that was written, from its start: the empty part where the line is longer than the
// buffer.
pub fn line<'a>(
    out: &'a mut [u8],
    first: u32,
    last: u32,
    score: Score,
    m: u32,
    per_mille: u32,
    strand: Strand,
) -> &'a mut [u8]
    ensures { result.now ≡ fitting (length out.old) (line first last score m per_mille strand) }
{
    let n = write_line(out, first, last, score, m, per_mille, strand);
    &mut out[..n]
}
