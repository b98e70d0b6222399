//! For each literal a place before which no clause has it.
ghost use Rattle.std.specs.Prelude.{◌≡◌, ◌<◌, ◌≤◌, ℕ, length, OnOk, slice_index_or};
ghost use Rattle.varisat_present.specs.Places.{place_limit};
ghost use Rattle.varisat_rat.specs.promises.Resolving.{unseen, AreLowered, AreNoted};

use std::alloc::{AllocError, Allocator};
use varisat_literals::Lit;
use varisat_present::known::PLACE_LIMIT;

/// For a literal that no clause has.
pub const UNSEEN: usize = 0xffff_ffff_ffff_ffff;

/// Makes the list so long that it has a place for the code.
fn reach<A: Allocator + Copy>(firsts: &mut Vec<usize, A>, code: usize) -> Result<(), AllocError>
    requires few { code < place_limit }
    ensures same { (l : ℕ) → slice_index_or firsts.new.items l unseen ≡ slice_index_or firsts.old.items l unseen }
    ensures reached { OnOk result (code < length firsts.new.items) }
{
    if code >= firsts.len() {
        firsts.resize(code + 1, UNSEEN)?;
    }
    Ok(())
}

/// Lowers the place for the code to this one, if it is greater.
fn lower<A: Allocator + Copy>(
    firsts: &mut Vec<usize, A>,
    code: usize,
    place: usize,
) -> Result<(), AllocError>
    requires few { code < place_limit }
    ensures lowered { AreLowered firsts.old.items firsts.new.items }
    ensures noted { OnOk result (slice_index_or firsts.new.items code unseen ≤ place) }
{
    reach(firsts, code)?;
    if firsts[code] <= place {
        return Ok(());
    }
    firsts[code] = place;
    Ok(())
}

/// Notes that a clause with these literals comes to the place.
pub fn note_all<A: Allocator + Copy>(
    firsts: &mut Vec<usize, A>,
    literals: &[Lit],
    place: usize,
) -> Result<(), AllocError>
    ensures lowered { AreLowered firsts.old.items firsts.new.items }
    ensures noted { OnOk result (AreNoted literals.now place firsts.new.items) }
{
    for l in literals {
        let code = l.code();
        if code >= PLACE_LIMIT {
            continue;
        }
        lower(firsts, code, place)?;
    }
    Ok(())
}

/// A place before which no clause has the literal.
pub fn first_of<A: Allocator + Copy>(firsts: &Vec<usize, A>, literal: Lit) -> usize
    ensures far { place_limit ≤ literal → result ≡ 0 }
    ensures near { literal < place_limit → result ≡ slice_index_or firsts.now.items literal unseen }
{
    let code = literal.code();
    if code >= PLACE_LIMIT {
        return 0;
    }
    if code >= firsts.len() {
        return UNSEEN;
    }
    firsts[code]
}
