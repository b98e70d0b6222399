//! The variables that wait outside the heap, in the order of their numbers.
//!
//! All have activity 0, so that none goes before one of the heap. Most variables of a large formula are of this kind. Those
//! of near numbers have their clauses and watches at near places, so that a search which decides them in this order finds
//! more of what it needs in the caches.
ghost use Rattle.std.specs.Prelude.{◌≡◌, ℕ, ◌+◌, ◌*◌, ◌/◌, ◌≤◌, ◌<◌, length, slice_index_or, slice_set, true, false};
ghost use Rattle.varisat_vsids.specs.Idle.{AreInBlocks, IsNoneBefore};

/// How many variables a block has.
const BLOCK: usize = 64;

/// Notes that a variable of this number may wait in its block.
pub fn note_block(blocks: &mut [bool], index: usize)
    requires { index < length blocks.old }
    ensures { blocks.new ≡ slice_set blocks.old (index / 64) true }
{
    blocks[index / BLOCK] = true;
}

/// The first number from the place on at which a variable is available, or how many variables there are. Before the place
/// none is. Blocks that are passed are noted to have none.
pub fn first_available(available: &[bool], blocks: &mut [bool], from: usize) -> usize
    requires count { length blocks.old ≡ length available.now }
    requires from { from ≤ length available.now }
    requires none { IsNoneBefore available.now from }
    requires blocks { AreInBlocks available.now blocks.old }
    ensures none { IsNoneBefore available.now result }
    ensures within { result ≤ length available.now }
    ensures found { result < length available.now → slice_index_or available.now result false ≡ true }
    ensures blocks { AreInBlocks available.now blocks.new }
{
    let mut place = from;
    'numbers: while place < available.len() {
        let block = place / BLOCK;
        if !blocks[block] {
            place = available.len().min((block + 1) * BLOCK);
            continue;
        }
        if available[place] {
            return place;
        }
        place += 1;
        if place % BLOCK == 0 {
            blocks[block] = false;
        }
    }
    place
}
