// The linear score of an interval, signed; and the threshold out of its word, which holds it plus 2^31.
ghost use Rattle.std.specs.Prelude.{◌≡◌, ◌≤◌};
ghost use Rattle.base.specs.Limits.{text_limit, pattern_limit, weight_limit};
ghost use Rattle.mappings.specs.Score.{linear};
ghost use Rattle.mappings.specs.Unbiased.{unbiased as unbiased_of};

use session_words::BIAS;

// The score of an interval: u·m − v·d with d = len + |p| − 2m.
pub fn score(u: u32, v: u32, size: u32, m: u32, len: u32) -> i32
    requires { (u ≤ weight_limit) × (v ≤ weight_limit) × (size ≤ pattern_limit) × (len ≤ text_limit) × (m ≤ size) × (m ≤ len) }
    ensures { result ≡ linear u v size m len }
{
    let d = len + size - 2 * m;
    (u * m) as i32 - (v * d) as i32
}

// A word less 2^31, as a signed number.
pub fn unbiased(word: u32) -> i32
    ensures { result ≡ unbiased_of word }
{
    word.wrapping_sub(BIAS).cast_signed()
}
