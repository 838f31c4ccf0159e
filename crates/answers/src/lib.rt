// The answers of the calls in the numbers of the documents' table: what crosses the C boundary, and for load k and w.
#![tactic(auto)]

ghost use Rattle.std.specs.Prelude.{◌≡◌};
ghost use Rattle.base.specs.Refusals.{refused_by, reply_of};
ghost use Rattle.store.specs.Answers.{loaded_reply};
ghost use Rattle.answers.specs.Numbers.{Numbered, k_after, w_after};

use base::refusal::Refusal;
use store::Stored;

// 0 where the call is accepted, else the refusal's number; and the value answered, or the second value, 0 where there is none.
#[derive(Clone, Copy, Debug, PartialEq, Eq)]
pub struct Numbers(pub u32, pub usize);

impl From<Refusal> for Numbers {
    ghost from_gives = { λ refusal numbers. Numbered (refused_by refusal) numbers };

    fn from(refusal: Refusal) -> Numbers {
        match refusal {
            Refusal::BadK => Numbers(1, 0),
            Refusal::BadW => Numbers(2, 0),
            Refusal::TooManyLetters => Numbers(3, 0),
            Refusal::TooShort(needed) => Numbers(4, needed),
            Refusal::BadEntries => Numbers(5, 0),
            Refusal::BadLimit => Numbers(6, 0),
            Refusal::BadWeights => Numbers(7, 0),
            Refusal::TooManyEntries => Numbers(8, 0),
            Refusal::BadPattern => Numbers(9, 0),
            Refusal::TooFewWords => Numbers(10, 0),
            Refusal::TooManyHits(h) => Numbers(11, h),
            Refusal::BadHeader(index) => Numbers(12, index),
            Refusal::BadWord(index) => Numbers(13, index),
            Refusal::BadEnd(index) => Numbers(14, index),
            Refusal::BadWords => Numbers(15, 0),
            Refusal::BadCounts => Numbers(16, 0),
            Refusal::BadFraction => Numbers(17, 0),
        }
    }
}

// What sketch, strike, the reverse complement, save and start answer.
impl From<Result<usize, Refusal>> for Numbers {
    ghost from_gives = { λ answer numbers. Numbered (reply_of answer) numbers };

    fn from(answer: Result<usize, Refusal>) -> Numbers {
        match answer {
            Ok(n) => Numbers(0, n),
            Err(refusal) => Numbers::from(refusal),
        }
    }
}

// What load answers: the value is the number of entries.
impl From<Result<Stored, Refusal>> for Numbers {
    ghost from_gives = { λ answer numbers. Numbered (loaded_reply answer) numbers };

    fn from(answer: Result<Stored, Refusal>) -> Numbers {
        match answer {
            Ok(stored) => Numbers(0, stored.entries),
            Err(refusal) => Numbers::from(refusal),
        }
    }
}

// k of the sketch loaded; what was there where load refuses.
pub fn k_after(answer: Result<Stored, Refusal>, before: u32) -> u32
    ensures { result ≡ k_after (loaded_reply answer) before }
{
    match answer {
        Ok(stored) => stored.k,
        Err(_) => before,
    }
}

// w of the sketch loaded; what was there where load refuses.
pub fn w_after(answer: Result<Stored, Refusal>, before: u32) -> u32
    ensures { result ≡ w_after (loaded_reply answer) before }
{
    match answer {
        Ok(stored) => stored.w,
        Err(_) => before,
    }
}
