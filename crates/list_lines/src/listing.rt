// What the lines of a session have from outside its work words.
use strands::Strand;

// The positions of the text's entries, k, the number of entries of the session's pattern, and its strand.
#[derive(Clone, Copy)]
pub struct Listing<'a> {
    pub positions: &'a [u32],
    pub k: u32,
    pub size: usize,
    pub strand: Strand,
}
