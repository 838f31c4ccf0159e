// How mappings are scored, and a score, as callers give and get them: two kinds of each. What they mean, and all laws, are in specs/ and proofs/.
#![tactic(auto)]

// The linear score with the weights u and v and a threshold; or the weighted Jaccard with the threshold f/g.
#[derive(Clone, Copy, Debug, PartialEq, Eq)]
pub enum Scoring {
    Linear { u: u32, v: u32, threshold: i32 },
    Jaccard { f: u32, g: u32 },
}

// A score: a signed number; or a fraction by its two numbers, which is not reduced.
#[derive(Clone, Copy, Debug, PartialEq, Eq)]
pub enum Score {
    Number(i32),
    Fraction { m: u32, divisor: u32 },
}
