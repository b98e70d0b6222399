//! Lists by literal, each of which is made empty.
ghost use Rattle.std.specs.Prelude.{◌≡◌, ◌≤◌, ◌-◌, ◌++◌, ◌∷◌, [], length, map, replicate, OnOk};

use std::alloc::{AllocError, Allocator};

/// Adds an empty list behind the others.
fn push_list<T: Drop, A: Allocator + Copy>(lists: &mut Vec<Vec<T, A>, A>) -> Result<(), AllocError>
    ensures { OnOk result (map (λ v. v.items) lists.new.items ≡ map (λ v. v.items) lists.old.items ++ [] ∷ []) }
{
    let alloc = *lists.allocator();
    lists.push(Vec::new(alloc))?;
    Ok(())
}

/// Adds empty lists until there are so many.
pub(crate) fn push_lists<T: Drop, A: Allocator + Copy>(
    lists: &mut Vec<Vec<T, A>, A>,
    count: usize,
) -> Result<(), AllocError>
    requires { length lists.old.items ≤ count }
    ensures { OnOk result
        (map (λ v. v.items) lists.new.items
        ≡ map (λ v. v.items) lists.old.items ++ replicate (count - length lists.old.items) []) }
{
    let old_count = lists.len();
    let mut added = 0;
    while added < count - old_count {
        push_list(lists)?;
        added += 1;
    }
    Ok(())
}
