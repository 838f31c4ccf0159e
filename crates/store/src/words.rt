// The words of a store: each is a kind and a content; that of word 0 is k and w.
ghost use Rattle.std.specs.Prelude.{◌≡◌, ◌&&◌, eqb, ltb};
ghost use Rattle.store.specs.Words.{kind, content, header_k, header_w, is_header, is_position_word};
ghost use Rattle.store.specs.Kinds.{kind_number};

// The content is the 30 bits below the kind.
pub const KIND_UNIT: u32 = 1 << 30;

// k is the five bits of word 0 below w, w the seven above them, and no bit above those is set.
pub const W_UNIT: u32 = 1 << 5;

pub const W_SPAN: u32 = 1 << 7;

const HEADER_LIMIT: u32 = 1 << 12;

// What a word holds: k and w, an entry's code, its position, or behind all entries their number.
#[derive(Clone, Copy, Debug, PartialEq, Eq)]
pub enum Kind {
    Header,
    Code,
    Position,
    End,
}

impl Kind {
    // The kind of the word x.
    #[tactic(auto, unfolding(crate::specs::Words::kind))]
    pub fn of(x: u32) -> Kind
        ensures { kind_number result ≡ kind x }
    {
        match x / KIND_UNIT {
            0 => Kind::Header,
            1 => Kind::Code,
            2 => Kind::Position,
            _ => Kind::End,
        }
    }
}

#[tactic(auto, unfolding(crate::specs::Words::content))]
pub fn content(x: u32) -> u32
    ensures { result ≡ content x }
{
    x % KIND_UNIT
}

#[tactic(auto, unfolding(crate::specs::Words::header_k))]
pub fn header_k(x: u32) -> u32
    ensures { result ≡ header_k x }
{
    x % W_UNIT
}

#[tactic(auto, unfolding(crate::specs::Words::header_w))]
pub fn header_w(x: u32) -> u32
    ensures { result ≡ header_w x }
{
    x / W_UNIT % W_SPAN
}

#[tactic(auto, unfolding(crate::specs::Words::is_header))]
pub fn is_header(x: u32) -> bool
    ensures { result ≡ is_header x }
{
    Kind::of(x) == Kind::Header
        && content(x) < HEADER_LIMIT
        && !base::outside(1, base::K_LIMIT, header_k(x))
        && !base::outside(1, base::W_LIMIT, header_w(x))
}

// A word with the number of entries.
pub fn is_end_word(x: u32) -> bool
    ensures { result ≡ eqb (kind x) 3 }
{
    Kind::of(x) == Kind::End
}

// A word with a code below `limit`.
pub fn is_code_word(x: u32, limit: u32) -> bool
    ensures { result ≡ (eqb (kind x) 1 && ltb (content x) limit) }
{
    Kind::of(x) == Kind::Code && content(x) < limit
}

// A word with a position of at least `low`.
pub fn is_position_word(x: u32, low: u32) -> bool
    ensures { result ≡ is_position_word low x }
{
    Kind::of(x) == Kind::Position && crate::is_position(content(x), low)
}
