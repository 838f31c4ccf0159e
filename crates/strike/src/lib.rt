// Striking of frequent k-mers: from a text's sketch by its own counts, and from a read's by the counts of the text. It needs no heap.
#![tactic(auto)]

mod blocks;
mod copying;

ghost use Rattle.std.specs.Prelude.{◌≡◌, length};
ghost use Rattle.base.specs.Refusals.{reply_of};
ghost use Rattle.strike.specs.Strike.{strike_reply, strike_codes, strike_positions};

use crate::blocks::{BLOCK, Rule};
use base::refusal::Refusal;
use base::{TEXT_LIMIT, copies, outside, smaller};

// Writes the entries of a read's sketch whose code occurs at most c times among the codes of the text's sketch, which is not struck, in
// their order, and answers how many they are. A code that the text lacks is kept.
pub fn strike_read(
    text: &[u32],
    codes: &[u32],
    positions: &[u32],
    c: u32,
    codes_out: &mut [u32],
    positions_out: &mut [u32],
) -> Result<usize, Refusal>
    ensures result_value { reply_of result ≡ strike_reply text.now codes.now positions.now c (length codes_out.old)
        (length positions_out.old) }
    ensures codes_out_after { codes_out.new
        ≡ strike_codes text.now codes.now positions.now c codes_out.old positions_out.old }
    ensures positions_out_after { positions_out.new
        ≡ strike_positions text.now codes.now positions.now c codes_out.old
        positions_out.old }
{
    // Made before the checks, so that the compiler does not probe this room behind them: docs/DECISIONS.md says why.
    let mut marks = copies::<u8, BLOCK>(0);
    if codes.len() != positions.len() {
        return Err(Refusal::BadEntries);
    }
    if TEXT_LIMIT < text.len() {
        return Err(Refusal::TooManyEntries);
    }
    if outside(1, TEXT_LIMIT as u32, c) {
        return Err(Refusal::BadLimit);
    }
    let room = smaller(codes_out.len(), positions_out.len());
    let rule = Rule {
        deciding: text,
        limit: c,
    };
    rule.check_room(codes, room, &mut marks)?;
    Ok(rule.copy_kept(codes, positions, &mut marks, codes_out, positions_out))
}

// The same of a text's sketch, whose own codes decide.
pub fn strike(
    codes: &[u32],
    positions: &[u32],
    c: u32,
    codes_out: &mut [u32],
    positions_out: &mut [u32],
) -> Result<usize, Refusal>
    ensures result_value { reply_of result ≡ strike_reply codes.now codes.now positions.now c (length codes_out.old)
        (length positions_out.old) }
    ensures codes_out_after { codes_out.new
        ≡ strike_codes codes.now codes.now positions.now c codes_out.old positions_out.old }
    ensures positions_out_after { positions_out.new
        ≡ strike_positions codes.now codes.now positions.now c codes_out.old
        positions_out.old }
{
    strike_read(codes, codes, positions, c, codes_out, positions_out)
}
