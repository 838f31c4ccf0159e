// `load` judges the words of a store, and reads a sketch's entries back from a good one.
#![tactic(auto)]

mod judging;

ghost use Rattle.std.specs.Prelude.{◌≡◌, length};
ghost use Rattle.store.specs.Load.{load_reply, load_codes, load_positions};
ghost use Rattle.store.specs.Answers.{loaded_reply};

use base::refusal::Refusal;
use store::Stored;
use store::words::{header_k, header_w};

// Judges all of `words`, and only where it loads and both buffers have room writes the entries to their front.
pub fn load(words: &[u32], codes: &mut [u32], positions: &mut [u32]) -> Result<Stored, Refusal>
    ensures result_value { loaded_reply result ≡ load_reply words.now (length codes.old) (length positions.old) }
    ensures codes_after { codes.new ≡ load_codes words.now codes.old positions.old }
    ensures positions_after { positions.new ≡ load_positions words.now codes.old positions.old }
{
    let entries = judging::judge(words)?;
    if codes.len() < entries || positions.len() < entries {
        return Err(Refusal::TooShort(entries));
    }
    judging::read(words, entries, codes, positions);
    Ok(Stored {
        k: header_k(words[0]),
        w: header_w(words[0]),
        entries,
    })
}
