//! Moves blocks to the lists of their levels.
ghost use Rattle.std.specs.Prelude.{◌≡◌, ℕ, ◌+◌, ◌<◌, ◌≤◌, [], ◌++◌, length, map, All, IfOk, IfSome, count_by, vec_capacity, vec_len, IsPermutation};
ghost use Rattle.oram_stash.specs.Plan.{list_at, joined, is_level, stays, picked};

use std::alloc::{AllocError, Global};

/// Makes `count` empty lists, each with room for `room` blocks.
pub fn empty_lists<B: Drop>(
    alloc: Global,
    count: usize,
    room: usize,
) -> Result<Vec<Vec<B>>, AllocError>
    ensures count { IfOk result (λ lists. vec_len lists ≡ count) }
    ensures empty { IfOk result (λ lists. All (λ list. list.items ≡ []) lists.items) }
    ensures room { IfOk result (λ lists. All (λ list. room ≤ vec_capacity list) lists.items) }
{
    let mut lists = Vec::with_capacity(alloc, count)?;
    for _ in 0..count {
        lists.push(Vec::with_capacity(alloc, room)?)?;
    }
    Ok(lists)
}

/// Moves each block, or reference to a block, to the list of its level, or to `rest`. Allocates nothing, since there is
/// room.
pub fn move_out<B: Drop>(
    blocks: Vec<B>,
    levels: &[Option<u8>],
    lists: &mut [Vec<B>],
    rest: &mut Vec<B>,
)
    requires same_length { length levels.now ≡ vec_len blocks }
    requires in_lists { All (λ level. IfSome level (λ l. l < length lists.old)) levels.now }
    requires empty { All (λ list. list.items ≡ []) lists.old }
    requires rest_empty { rest.old.items ≡ [] }
    requires room { (l : ℕ) → All (λ list. count_by (is_level l) levels.now ≤ vec_capacity list) lists.old }
    requires rest_room { vec_len blocks ≤ vec_capacity rest.old }

    ensures to_list { (l : ℕ) → list_at (map (λ list. list.items) lists.new) l ≡ picked (is_level l) levels.now blocks.items }
    ensures to_rest { rest.new.items ≡ picked stays levels.now blocks.items }
    ensures each_once { IsPermutation blocks.items (joined (map (λ list. list.items) lists.new) ++ rest.new.items) }
{
    for (block, level) in blocks.into_iter().zip(levels) {
        match level {
            Some(level) => {
                let list = &mut lists[usize::from(*level)];
                list.push(block).unwrap();
            }
            None => rest.push(block).unwrap(),
        }
    }
}
