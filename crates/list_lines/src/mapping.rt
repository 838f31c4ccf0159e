// The line of a mapping, from what a step hands out and what belongs to its session.
ghost use Rattle.list_lines.specs.Pieces.{LastLetter, MappingWritten};

use crate::listing::Listing;
use base::{PATTERN_LIMIT, TEXT_LIMIT, WORD_LIMIT};
use list_line::writing::{line, put_bytes};
use mappings::Score;
use per_mille::per_mille;

// No line is longer.
pub const LINE_ROOM: usize = 68;

// The last letter of the k-mer at entry `to`; None where the line's numbers would not hold what [from, to] asks, which no session hands out.
fn last_letter(listing: Listing, from: usize, to: usize) -> Option<u32>
    ensures { LastLetter listing.entry.positions.now listing.entry.k listing.entry.size from to result }
{
    let Listing {
        positions,
        k,
        size,
        ..
    } = listing;
    if to < from || positions.len() <= to || TEXT_LIMIT <= to - from || PATTERN_LIMIT < size {
        return None;
    }
    let end = positions[to] as u64 + k as u64;
    if end == 0 || WORD_LIMIT < end {
        return None;
    }
    Some((end - 1) as u32)
}

// A mapping as a step hands it out.
#[derive(Clone, Copy, Debug, PartialEq, Eq)]
pub struct Mapping {
    pub score: Score,
    pub a: u32,
    pub b: u32,
    pub m: u32,
}

// The line of a mapping. What no session hands out has none.
pub fn put_mapping(out: &mut [u8], at: usize, listing: Listing, mapping: Mapping) -> usize
    ensures { MappingWritten listing.entry.positions.now listing.entry.k listing.entry.size listing.entry.strand mapping.a mapping.b mapping.score mapping.m
        at out.old out.new result }
{
    let Mapping { score, a, b, m } = mapping;
    let from = a as usize;
    let to = b as usize;
    let Some(last) = last_letter(listing, from, to) else {
        return at;
    };
    let Ok(thousandths) = per_mille(m, (to - from + 1) as u32, listing.size as u32) else {
        return at;
    };
    let mut text = [0u8; LINE_ROOM];
    let part = line(
        &mut text,
        listing.positions[from],
        last,
        score,
        m,
        thousandths,
        listing.strand,
    );
    put_bytes(out, at, part)
}
