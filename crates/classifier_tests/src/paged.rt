// Lists in pages of 512 items that copies share.
ghost use Rattle.std.specs.Prelude.{ℕ};

use crate::asserts::{same, same_if_any};
use set_model::{Duplicate, Memory};
use shared_pages::{Page, Pages};
use std::alloc::Global;
use std::marker::Model;
use std::process::Abort;
use std::test::Fail;

/// A number that counts how often it was copied. Contracts see the number alone.
#[derive(Drop)]
struct Traced {
    number: u64,
    copies: u64,
}

impl Model for Traced {
    ghost use Rattle.std.specs.Prelude.{ℕ};

    ghost Value = { ℕ };

    ghost view = { λ traced. traced.number };
}

impl Duplicate for Traced {
    fn copy(&self, _alloc: Global) -> Result<Self, Memory> {
        Ok(Traced {
            number: self.number,
            copies: self.copies.saturating_add(1),
        })
    }
}

fn uncopied(number: u64) -> Traced {
    Traced { number, copies: 0 }
}

type Numbers = Pages<Traced>;

/// Asserts the number at each of some places.
fn assert_at(rt: &impl Abort, numbers: &Numbers, wanted: &[(u64, u64)]) {
    for (i, number) in wanted {
        assert!(rt; *i < numbers.len());
        same(rt, numbers.at(*i).number, *number, *i);
    }
}

/// Adds the numbers below 1,025: those of two pages, and one more.
fn add_numbers(rt: &impl Abort, numbers: &mut Numbers) -> Result<(), Memory> {
    for number in 0..1_025u64 {
        assert!(rt; numbers.len() < 1_025);
        numbers.push(uncopied(number))?;
    }
    numbers.settle()
}

/// Takes the last number of the first page out, and writes over the first and the last one.
fn change(rt: &impl Abort, numbers: &mut Numbers) -> Result<(), Memory> {
    assert!(rt; numbers.len() == 1_025);
    same(rt, numbers.remove(511)?.number, 511, 511);
    assert!(rt; numbers.len() == 1_024);
    numbers.set(0, uncopied(7_777))?;
    assert!(rt; numbers.len() == 1_024);
    numbers.set(1_023, uncopied(8_888))
}

/// Asserts that numbers change, and a copy of them doesn't.
fn check_numbers(rt: &impl Abort, numbers: &mut Numbers, copy: &Numbers) -> Result<(), Memory> {
    change(rt, numbers)?;
    let changed = [
        (0, 7_777),
        (510, 510),
        (511, 512),
        (1_022, 1_023),
        (1_023, 8_888),
    ];
    assert_at(rt, numbers, &changed);
    let as_before = [(0, 0), (511, 511), (512, 512), (1_024, 1_024)];
    assert_at(rt, copy, &as_before);
    Ok(())
}

fn check_copied(rt: &impl Abort, alloc: Global, numbers: &mut Numbers) -> Result<(), Memory> {
    add_numbers(rt, numbers)?;
    let copy = numbers.copy(alloc)?;
    check_numbers(rt, numbers, &copy)
}

#[test]
fn a_copy_lives_on_beside_a_change(rt: HostRuntime) -> Result<(), Fail> {
    Ok(check_copied(&rt, rt.alloc(), &mut Pages::new(rt.alloc()))?)
}

/// How often the first item of a page was copied.
fn copies(page: &Page<Traced>) -> Option<u64> {
    match page.as_slice().first() {
        Some(item) => Some(item.copies),
        None => None,
    }
}

/// Asserts how often the first item of a copy of the page was copied.
fn check_copy(
    rt: &impl Abort,
    alloc: Global,
    page: &Page<Traced>,
    wanted: u64,
) -> Result<(), Memory> {
    same_if_any(rt, copies(&page.copy(alloc)?), Some(wanted), wanted);
    Ok(())
}

/// Writes over the one item of a page.
fn write(rt: &impl Abort, alloc: Global, page: &mut Page<Traced>) -> Result<(), Memory> {
    assert!(rt; page.as_slice().len() == 1);
    page.set(alloc, 0, uncopied(8))
}

/// Asserts that a copy of a page of one item copies the item, unless the page was settled, and until the copy
/// changes.
fn check_page(rt: &impl Abort, alloc: Global, page: &mut Page<Traced>) -> Result<(), Memory> {
    check_copy(rt, alloc, page, 1)?;
    page.settle(alloc)?;
    check_copy(rt, alloc, page, 0)?;
    write(rt, alloc, &mut page.copy(alloc)?)?;
    same_if_any(rt, copies(page), Some(0), 2);
    Ok(())
}

#[test]
fn a_settled_page_is_shared(rt: HostRuntime) -> Result<(), Fail> {
    let mut page = Page::new(rt.alloc());
    page.push(rt.alloc(), uncopied(7))?;
    Ok(check_page(&rt, rt.alloc(), &mut page)?)
}
