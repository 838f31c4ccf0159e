// Codes and ranks of k-mers.
ghost use Rattle.std.specs.Prelude.{suc, ◌+◌, ◌*◌, ◌%◌, ◌^◌, ◌<◌, ◌≡◌};
ghost use Rattle.base.specs.Limits.{k_limit};
ghost use Rattle.kmers.specs.Kmers.{rank};
ghost use Rattle.kmers.specs.Ranks.{unrank};

// The multiplier of the rank, what takes a rank back to its code, and the modulus.
const MULTIPLIER: u64 = 2654435761;

const INVERSE: u64 = 244002641;

const MODULUS: u64 = 1073741824;

// The rank of a code.
#[tactic(auto, unfolding(kmers::specs::Kmers::rank))]
pub(crate) fn rank(code: u32) -> u32
    ensures { result ≡ rank code }
{
    (code as u64 * MULTIPLIER % MODULUS) as u32
}

// The code of a rank: the ring keeps ranks alone.
#[tactic(auto, unfolding(kmers::specs::Ranks::unrank))]
pub(crate) fn unrank(rank: u32) -> u32
    ensures { result ≡ unrank rank }
{
    (rank as u64 * INVERSE % MODULUS) as u32
}

// The code with one more digit behind, of which `last` digits and the new one are kept.
pub(crate) fn next_code(code: u32, digit: u8, last: usize) -> u32
    requires { (last < k_limit) × (code < 4 ^ k_limit) × (digit < 4) }
    ensures { result ≡ (4 * code + digit) % 4 ^ suc last }
{
    let mask = (4u32 << (2 * last)) - 1;
    (code * 4 + digit as u32) & mask
}
