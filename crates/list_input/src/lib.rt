// Reading the three lines of standard input: `k w c u v threshold` or `k w c f g jaccard`, the text line and the read line.
#![tactic(auto)]

ghost use Rattle.std.specs.Prelude.{◌≡◌, ◌≤◌, ◌==◌, length, position};
ghost use Rattle.list_input.specs.Input.{fields};
ghost use Rattle.list_input.specs.Answers.{digits_of, number_of, threshold_of, last_field_of, field_of, first_line_of, request_of};

use base::{LINE_FEED, MINUS, PATTERN_LIMIT, SPACE, ZERO};
use mappings::Scoring;
use requests::Settings;

// A number with a space behind it, and where the next field begins.
#[derive(Clone, Copy, Debug, PartialEq, Eq)]
pub struct Field {
    pub value: u32,
    pub next: usize,
}

// What the first line asks for, and where the text line and the read line stand in the bytes.
#[derive(Clone, Copy)]
pub struct Request {
    pub settings: Settings,
    pub text: usize,
    pub text_end: usize,
    pub read: usize,
    pub read_end: usize,
}

// Where the first byte b stands.
fn find(bytes: &[u8], b: u8) -> Option<usize>
    ensures { result ≡ position (λ x. x == b) bytes.now }
{
    bytes.iter().position(|x| *x == b)
}

// The number of 32 bits with these decimal digits.
fn read_digits(bytes: &[u8]) -> Option<u32>
    ensures { result ≡ digits_of 0 bytes.now }
{
    let mut value: u32 = 0;
    for b in bytes {
        if !b.is_ascii_digit() {
            return None;
        }
        value = value.checked_mul(10)?.checked_add((*b - ZERO) as u32)?;
    }
    Some(value)
}

// A number of 32 bits in decimal digits without leading zeros.
fn read_number(bytes: &[u8]) -> Option<u32>
    ensures { result ≡ number_of bytes.now }
{
    if bytes.is_empty() || (bytes.len() > 1 && bytes[0] == ZERO) {
        return None;
    }
    read_digits(bytes)
}

// A signed number of 32 bits: a minus only before a number below 0.
fn read_signed(bytes: &[u8]) -> Option<i32>
    ensures { result ≡ threshold_of bytes.now }
{
    let [sign, digits @ ..] = bytes else {
        return None;
    };
    if *sign != MINUS {
        return i32::try_from(read_number(bytes)?).ok();
    }
    let magnitude = read_number(digits)?;
    if magnitude == 0 {
        return None;
    }
    i32::try_from(-(magnitude as i64)).ok()
}

// How mappings are scored, from the last field of the first line and the two numbers before it: the word `jaccard` makes them f and g, a
// threshold u and v.
fn read_last_field(bytes: &[u8], fourth: u32, fifth: u32) -> Option<Scoring>
    ensures { result ≡ last_field_of fourth fifth bytes.now }
{
    if bytes == b"jaccard".as_slice() {
        return Some(Scoring::Jaccard {
            f: fourth,
            g: fifth,
        });
    }
    Some(Scoring::Linear {
        u: fourth,
        v: fifth,
        threshold: read_signed(bytes)?,
    })
}

// A number of 32 bits from an index on, with a space behind it.
fn read_field(line: &[u8], from: usize) -> Option<Field>
    requires { from ≤ length line.now }
    ensures { result ≡ field_of line.now from }
{
    let rest = &line[from..];
    let n = find(rest, SPACE)?;
    Some(Field {
        value: read_number(&rest[..n])?,
        next: from + n + 1,
    })
}

// The first line: five numbers with a space behind each, then the last field.
fn read_first_line(line: &[u8]) -> Option<Settings>
    ensures { result ≡ first_line_of (fields line.now) }
{
    let mut numbers = [0u32; 5];
    let mut at = 0;
    for number in &mut numbers {
        let field = read_field(line, at)?;
        *number = field.value;
        at = field.next;
    }
    let [k, w, c, fourth, fifth] = numbers;
    let scoring = read_last_field(&line[at..], fourth, fifth)?;
    Some(Settings { k, w, c, scoring })
}

// What stands in the bytes of standard input. What follows the third line is ignored.
pub fn read_input(bytes: &[u8]) -> Option<Request>
    ensures { result ≡ request_of bytes.now }
{
    let first_end = find(bytes, LINE_FEED)?;
    let text = first_end + 1;
    let text_end = text + find(&bytes[text..], LINE_FEED)?;
    let read = text_end + 1;
    let read_end = read + find(&bytes[read..], LINE_FEED)?;
    if text_end - text > PATTERN_LIMIT || read_end - read > PATTERN_LIMIT {
        return None;
    }
    Some(Request {
        settings: read_first_line(&bytes[..first_end])?,
        text,
        text_end,
        read,
        read_end,
    })
}
