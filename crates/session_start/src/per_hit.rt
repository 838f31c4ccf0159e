// What a session knows of each hit: back and reach.
ghost use Rattle.std.specs.Prelude.{◌≡◌, List, ℕ, ◌≤◌, ◌<◌, length, get_or};
ghost use Rattle.base.specs.Limits.{hit_limit};
ghost use Rattle.session_start.specs.Noting.{words_at, Begin, AllIn, backs as backs_of, reaches, with_pair};

use crate::hits::one_at;
use crate::ordered::Ordered;
use base::{PATTERN_LIMIT, copies};

// Back of each hit. The slots of a word, as many as it occurs in the pattern, are a ring of the last hits with that word, each by its
// number + 1: so a hit finds in its place the hit that stands as many occurrences before it as the pattern has, or 0.
fn link(sorted: Ordered, slots: &[u32], turns: &mut [u32], ring: &mut [u32], backs: &mut [u32])
    requires begin { Begin sorted.words.now slots.now }
    requires lengths { (length slots.now ≤ hit_limit) × (length backs.old ≡ length slots.now) }
    requires turns_fresh { (length turns.old ≡ length sorted.words.now) × ((k : ℕ) → get_or turns.old k 0 ≡ 0) }
    requires ring_fresh { (length ring.old ≡ length sorted.words.now) × ((k : ℕ) → get_or ring.old k 0 ≡ 0) }
    ensures { backs.new ≡ backs_of sorted.entry.words.now (words_at sorted.entry.words.now slots.now) }
{
    for (j, slot) in slots.iter().enumerate() {
        let slot = *slot as usize;
        let turn = turns[slot];
        let place = slot + turn as usize;
        backs[j] = ring[place];
        ring[place] = j as u32 + 1;
        turns[slot] = (turn + 1) * one_at(sorted.words, place + 1, sorted.words[slot]);
    }
}

pub(crate) fn put_back(sorted: Ordered, slots: &[u32], backs: &mut [u32])
    requires begin { Begin sorted.words.now slots.now }
    requires lengths { (length slots.now ≤ hit_limit) × (length backs.old ≡ length slots.now) }
    ensures { backs.new ≡ backs_of sorted.entry.words.now (words_at sorted.entry.words.now slots.now) }
{
    let n = sorted.words.len();
    let mut turns: [u32; PATTERN_LIMIT] = copies(0);
    let mut ring: [u32; PATTERN_LIMIT] = copies(0);
    link(sorted, slots, &mut turns[..n], &mut ring[..n], backs);
}

// Hit j ends the reach of the hit before its back, if there is one.
fn put_pair(back: usize, j: u32, reach: &mut [u32])
    requires { back ≤ length reach.old }
    ensures { reach.new ≡ with_pair back j reach.old }
{
    if 0 < back {
        reach[back - 1] = j;
    }
}

// Reach of each hit, from back of each.
pub(crate) fn put_pairs(backs: &[u32], reach: &mut [u32])
    requires lengths { (length backs.now ≤ hit_limit) × (length reach.old ≡ length backs.now) }
    requires backs_below { (k : ℕ) → k < length backs.now → get_or backs.now k 0 ≤ k }
    ensures { (p g : List ℕ) → AllIn p g → backs.now ≡ backs_of p g → reach.new ≡ reaches p g }
{
    reach.fill(backs.len() as u32);
    for (j, back) in backs.iter().enumerate() {
        put_pair(*back as usize, j as u32, reach);
    }
}
