// Striking a block of entries after the other: there are marks for one block alone, and a read may be of any length.
ghost use Rattle.std.specs.Prelude.{◌≡◌, ◌≤◌, ◌<◌, length, MatchResult};
ghost use Rattle.base.specs.Limits.{text_limit};
ghost use Rattle.base.specs.Lists.{sum};
ghost use Rattle.base.specs.Replies.{over};
ghost use Rattle.base.specs.declared.refusal.Refusal.TheVariants.{TooShort};
ghost use Rattle.marking.specs.Marks.{marks_of};
ghost use Rattle.strike.specs.Marked.{marked_words};

use crate::copying::{copy_marked, count_marked};
use base::TEXT_LIMIT;
use base::refusal::Refusal;

// A block has as many entries as may decide: counting those anew for each block then costs no more than the blocks themselves.
pub(crate) const BLOCK: usize = TEXT_LIMIT;

// What is kept: the codes that occur at most `limit` times among those that decide.
#[derive(Clone, Copy)]
pub(crate) struct Rule<'a> {
    pub(crate) deciding: &'a [u32],
    pub(crate) limit: u32,
    ghost few: { length deciding.now ≤ text_limit },
}

impl Rule<'_> {
    // Marks the entries kept, and answers how many they are.
    fn mark_block(self, codes: &[u32], marks: &mut [u8]) -> usize
        requires { (length codes.now ≤ text_limit) × (length marks.old ≡ length codes.now) }
        ensures value { result ≡ sum (marks_of self.entry.deciding.now self.entry.limit codes.now) }
        ensures marks_after { marks.new ≡ marks_of self.entry.deciding.now self.entry.limit codes.now }
    {
        marking::mark_rare(self.deciding, codes, self.limit, marks);
        count_marked(marks)
    }

    // The number of entries kept. `marks` is room for those of a block.
    fn count_kept(self, codes: &[u32], marks: &mut [u8; BLOCK]) -> usize
        ensures { result ≡ sum (marks_of self.entry.deciding.now self.entry.limit codes.now) }
    {
        let mut kept = 0;
        for block in codes.chunks(BLOCK) {
            kept += self.mark_block(block, &mut marks[..block.len()]);
        }
        kept
    }

    // Refuses buffers that have less room than entries are kept. Where all entries have room none need be counted.
    pub(crate) fn check_room(
        self,
        codes: &[u32],
        room: usize,
        marks: &mut [u8; BLOCK],
    ) -> Result<(), Refusal>
        ensures { MatchResult result (λ _. sum (marks_of self.entry.deciding.now self.entry.limit codes.now) ≤ room)
            (λ refusal. (refusal ≡ TooShort (sum (marks_of self.entry.deciding.now self.entry.limit codes.now)))
            × (room < sum (marks_of self.entry.deciding.now self.entry.limit codes.now))) }
    {
        if codes.len() <= room {
            return Ok(());
        }
        let kept = self.count_kept(codes, marks);
        if room < kept {
            return Err(Refusal::TooShort(kept));
        }
        Ok(())
    }

    fn copy_block(
        self,
        codes: &[u32],
        positions: &[u32],
        marks: &mut [u8],
        codes_out: &mut [u32],
        positions_out: &mut [u32],
    ) -> usize
        requires codes_len_bound { (length codes.now ≤ text_limit) × (length codes.now ≡ length positions.now) }
        requires marks_len { length marks.old ≡ length codes.now }
        requires codes_in_bounds { (sum (marks_of self.deciding.now self.limit codes.now) ≤ length codes_out.old)
            × (sum (marks_of self.deciding.now self.limit codes.now) ≤ length positions_out.old) }
        ensures value { result ≡ sum (marks_of self.entry.deciding.now self.entry.limit codes.now) }
        ensures codes_out_after { codes_out.new
            ≡ over (marked_words (marks_of self.entry.deciding.now self.entry.limit codes.now) codes.now) codes_out.old }
        ensures positions_out_after { positions_out.new
            ≡ over (marked_words (marks_of self.entry.deciding.now self.entry.limit codes.now) positions.now) positions_out.old }
    {
        let kept = self.mark_block(codes, marks);
        copy_marked(codes, marks, kept, codes_out);
        copy_marked(positions, marks, kept, positions_out);
        kept
    }

    // Copies the entries kept to the start of the two buffers, which have room for them, and answers their number.
    pub(crate) fn copy_kept(
        self,
        codes: &[u32],
        positions: &[u32],
        marks: &mut [u8; BLOCK],
        codes_out: &mut [u32],
        positions_out: &mut [u32],
    ) -> usize
        requires paired { length codes.now ≡ length positions.now }
        requires codes_in_bounds { (sum (marks_of self.deciding.now self.limit codes.now) ≤ length codes_out.old)
            × (sum (marks_of self.deciding.now self.limit codes.now) ≤ length positions_out.old) }
        ensures value { result ≡ sum (marks_of self.entry.deciding.now self.entry.limit codes.now) }
        ensures codes_out_after { codes_out.new
            ≡ over (marked_words (marks_of self.entry.deciding.now self.entry.limit codes.now) codes.now) codes_out.old }
        ensures positions_out_after { positions_out.new
            ≡ over (marked_words (marks_of self.entry.deciding.now self.entry.limit codes.now) positions.now) positions_out.old }
    {
        let mut at = 0;
        for (block, places) in codes.chunks(BLOCK).zip(positions.chunks(BLOCK)) {
            at += self.copy_block(
                block,
                places,
                &mut marks[..block.len()],
                &mut codes_out[at..],
                &mut positions_out[at..],
            );
        }
        at
    }
}
