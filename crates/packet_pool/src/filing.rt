//! Puts the lines of all threads into the order of their packets.
ghost use Rattle.std.specs.Prelude.{◌≡◌, ◌+◌, ◌<◌, ◌≤◌, ◌^◌, ℕ, length, map, IfOk};
ghost use Rattle.packet_pool.specs.Work.{IsSplit, IsFiled, GoesOnWith};

use crate::traffic::BATCH;
use set_model::{Line, Memory};
use std::alloc::Global;

/// How many threads there may be.
const THREADS: usize = 16;

/// The list whose next line is the packet's.
fn whose(lists: &[Vec<Line>], next: &[usize], packet: u64) -> usize
    requires next { length lists.now ≤ length next.now }
    requires there { (i : ℕ) × (i < length lists.now) × GoesOnWith (map (λ v. v.items) lists.now) next.now packet i }
    ensures list { result < length lists.now }
    ensures next { GoesOnWith (map (λ v. v.items) lists.now) next.now packet result }
{
    for (i, list) in lists.iter().enumerate() {
        let at = next[i];
        if at < list.len() && list[at].packet == packet {
            return i;
        }
    }
    unreachable!()
}

/// The lines of all lists, in the order of their packets, which are numbered from `first` on. A batch is moved whole.
pub(crate) fn file(
    alloc: Global,
    lists: &[Vec<Line>],
    first: u64,
    count: u64,
) -> Result<Vec<Line>, Memory>
    requires few { length lists.now ≤ 16 }
    requires room { first + count < 2 ^ 64 }
    requires split { IsSplit first count (map (λ v. v.items) lists.now) }
    ensures { IfOk result (λ v. IsFiled first count (map (λ w. w.items) lists.now) v.items) }
{
    let mut lines = Vec::with_capacity(alloc, count as usize)?;
    let mut next = [0usize; THREADS];
    for batch in 0..count.div_ceil(BATCH) {
        let start = BATCH * batch;
        let size = BATCH.min(count - start) as usize;
        let from = whose(lists, &next, first + start);
        let list = lists[from].as_slice();
        let end = next[from] + size;
        lines.extend_from_slice(&list[next[from]..end])?;
        next[from] = end;
    }
    Ok(lines)
}
