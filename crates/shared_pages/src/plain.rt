ghost use Rattle.std.specs.Prelude.{◌≡◌, ℕ, ◌<◌, ◌≤◌, true, length, map, get_or, vec_capacity, IfOk, OnOk};
ghost use Rattle.shared_pages.specs.Paged.{owns_of};

use crate::page::Page;
use set_model::Memory;
use std::alloc::Global;

/// A copy of the pages of plain items. It counts one reference for each settled page. The list has
/// room for no more pages.
///
/// # Errors
/// `Memory` if memory runs out.
pub fn copy_plain_pages<T: Copy + Drop>(
    alloc: Global,
    pages: &[Page<T>],
) -> Result<Vec<Page<T>>, Memory>
    ensures pages { IfOk result (λ others. others.items ≡ pages.now) }
    ensures room { IfOk result (λ others. vec_capacity others ≡ length pages.now) }
{
    let mut others = Vec::with_capacity(alloc, pages.len())?;
    'pages: for page in pages {
        others.push_reserved(page.copy_plain(alloc)?);
    }
    Ok(others)
}

/// Makes the pages of plain items from page `from` up to page `to` this list's own. The list has
/// room for as many pages as before.
///
/// # Errors
///
/// `Memory` if memory runs out. The items are as they were, and pages that were the list's own
/// still are.
pub fn own_plain_pages<T: Copy + Drop>(
    alloc: Global,
    pages: &mut Vec<Page<T>>,
    from: usize,
    to: usize,
) -> Result<(), Memory>
    requires { to ≤ length pages.old.items }
    ensures items { map (λ page. page.items) pages.new.items ≡ map (λ page. page.items) pages.old.items }
    ensures own { OnOk result ((k : ℕ) → from ≤ k → k < to → get_or (owns_of pages.new.items) k true ≡ true) }
    ensures room { vec_capacity pages.new ≡ vec_capacity pages.old }
    ensures kept { (k : ℕ) → get_or (owns_of pages.old.items) k true ≡ true → get_or (owns_of pages.new.items) k true ≡ true }
{
    'pages: for k in from..to {
        let page = &mut pages[k];
        page.own_plain(alloc)?;
    }
    Ok(())
}
