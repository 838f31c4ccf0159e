// The per mille of a mapping, rounded to the nearest whole number.
#![tactic(auto)]

ghost use Rattle.std.specs.Prelude.{◌<◌, ◌≤◌, ◌^◌, ◌≡◌, IfOk};
ghost use Rattle.per_mille.specs.Rounding.{nearest};
ghost use Rattle.per_mille.specs.PerMille.{per_mille_answer};

use base::refusal::Refusal;
use base::{PATTERN_LIMIT, TEXT_LIMIT};
use std::cmp::Ordering;

// A fraction rounded to the nearest whole number, an exact half to the even one.
fn nearest(dividend: u64, divisor: u64) -> u64
    requires { (0 < divisor) × (divisor < 2 ^ 63) × (dividend < 2 ^ 63) }
    ensures { result ≡ nearest dividend divisor }
{
    let quotient = dividend / divisor;
    let twice = 2 * (dividend % divisor);
    match twice.cmp(&divisor) {
        Ordering::Less => quotient,
        Ordering::Equal => quotient + quotient % 2,
        Ordering::Greater => quotient + 1,
    }
}

// 1,000·m / (len + |p| − m), rounded to the nearest; or BadCounts where the table of refusals has it. The fraction is made in 64 bits,
// which hold it whatever the three numbers are.
pub fn per_mille(m: u32, len: u32, size: u32) -> Result<u32, Refusal>
    ensures answer { result ≡ per_mille_answer m len size }
    ensures at_most { IfOk result (λ n. n ≤ 1000) }
{
    if m > len
        || m > size
        || len as usize > TEXT_LIMIT
        || size as usize > PATTERN_LIMIT
        || len + size == 0
    {
        return Err(Refusal::BadCounts);
    }
    Ok(nearest(1000 * m as u64, len as u64 + size as u64 - m as u64) as u32)
}
