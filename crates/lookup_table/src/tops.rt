ghost use Rattle.std.specs.Prelude.{◌≡◌, ℕ, ◌+◌, ◌*◌, ◌/◌, ◌^◌, ◌<◌, ◌≤◌, true, length, get_or, vec_capacity};
ghost use Rattle.field_groups.specs.Groups.{IsWidth};
ghost use Rattle.shared_pages.specs.Paged.{owns_of};
ghost use Rattle.word_summary.specs.Marks.{IsMarkPage};
ghost use Rattle.lookup_table.specs.Summary.{ArePages, IsRenewed, AreRenewed, KeepsTops};

use set_model::Memory;
use shared_pages::Page;
use std::alloc::Global;
use word_summary::{mark_page, mark_run, new_page};

// A top is a page of the same form above 64 pages of marks. It has a mark for a page in each line
// in which that page has a mark.

/// A summary needs no tops up to this many rules, which have eight pages of marks.
pub(crate) const RULES_WITHOUT_TOPS: u32 = 32_768;

/// Makes the marks of the pages from page `from` up to page `to` anew, if their tops exist. Earlier
/// marks stay.
pub(crate) fn renew_tops(
    tops: &mut Vec<Page<u64>>,
    pages: &[Page<u64>],
    bits: u32,
    from: u32,
    to: u32,
)
    requires order { from ≤ to }
    requires pages { ArePages bits pages.now }
    requires tops { ArePages bits tops.old.items }
    requires own { (p : ℕ) → from ≤ p → p < to → get_or (owns_of tops.old.items) (p / 64) true ≡ true }
    ensures renewed { AreRenewed from to pages.now tops.old.items tops.new.items }
    ensures own { owns_of tops.new.items ≡ owns_of tops.old.items }
    ensures room { vec_capacity tops.new ≡ vec_capacity tops.old }
{
    'pages: for p in from..to {
        renew_top(tops, pages, bits, p);
    }
}

/// Makes the marks of page `p` anew, if its top exists.
fn renew_top(tops: &mut Vec<Page<u64>>, pages: &[Page<u64>], bits: u32, p: u32)
    requires pages { ArePages bits pages.now }
    requires tops { ArePages bits tops.old.items }
    requires own { get_or (owns_of tops.old.items) (p / 64) true ≡ true }
    ensures tops { ArePages bits tops.new.items }
    ensures renewed { AreRenewed p (p + 1) pages.now tops.old.items tops.new.items }
    ensures own { owns_of tops.new.items ≡ owns_of tops.old.items }
    ensures room { vec_capacity tops.new ≡ vec_capacity tops.old }
{
    let q = p as usize / 64;
    if q >= tops.len() {
        return;
    }
    let top = &mut tops[q];
    mark_from(top, pages, bits, p);
}

/// Makes the marks of page `p` anew in its top.
fn mark_from(top: &mut Page<u64>, pages: &[Page<u64>], bits: u32, p: u32)
    requires own { top.old.own ≡ true }
    requires pages { ArePages bits pages.now }
    requires top { IsMarkPage bits top.old.items }
    ensures own { top.new.own ≡ true }
    ensures renewed { IsRenewed p pages.now top.old.items top.new.items }
{
    match pages.get(p as usize) {
        Some(page) => mark_page(top, page.as_slice(), p % 64),
        // A missing page may have any rule, so it is marked in all lines.
        None => mark_run(top, 0, bits as usize / 8 * 256, p % 64),
    }
}

/// Adds tops with the marks of their pages, up to `n` tops. The list's capacity is then exactly its
/// length.
///
/// # Errors
///
/// `Memory` if memory runs out. The tops that were added have their marks.
pub(crate) fn add_tops(
    alloc: Global,
    tops: &mut Vec<Page<u64>>,
    n: u32,
    pages: &[Page<u64>],
    bits: u32,
    rules: u32,
) -> Result<(), Memory>
    requires groups { IsWidth 8 bits }
    requires few { n ≤ 2 ^ 26 }
    requires pages { ArePages bits pages.now }
    requires tops { ArePages bits tops.old.items }
    requires full { vec_capacity tops.old ≡ length tops.old.items }
    ensures kept { KeepsTops bits rules pages.now tops.old.items tops.new.items }
    ensures full { vec_capacity tops.new ≡ length tops.new.items }
{
    let to = rules.div_ceil(4096);
    'tops: for q in tops.len()..n as usize {
        let top = new_page(alloc, bits)?;
        tops.reserve_exact(1)?;
        tops.push_reserved(top);
        let from = 64 * q as u32;
        renew_tops(tops, pages, bits, from, to.max(from));
    }
    Ok(())
}

/// How many tops the summary of so many rules has.
pub(crate) fn tops_for(is_summed: bool, rules: u32) -> u32
    ensures { result ≤ 2 ^ 20 }
{
    if is_summed && rules > RULES_WITHOUT_TOPS {
        rules.div_ceil(262_144)
    } else {
        0
    }
}
