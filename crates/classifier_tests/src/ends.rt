// Which words of 64 ends are expired, by worked examples.
ghost use Rattle.std.specs.Prelude.{◌≡◌, ◌+◌, ◌<◌, ◌≤◌, length, All, IfOk};

use mapping_table::EndTable;
use set_model::Memory;
use set_tables::End;
use std::alloc::Global;
use std::process::Abort;
use std::test::Fail;

/// The ends of `n` rules that expire at 10, and of one more rule with this expiry.
fn table(alloc: Global, n: u32, last: Option<u64>) -> Result<EndTable, Memory>
    requires { n < 1000 }
    ensures len { IfOk result (λ ends. length ends.items ≡ n + 1) }
    ensures places { IfOk result (λ ends. All (λ e. 1 ≤ e.place) ends.items) }
{
    let mut ends = EndTable::new(alloc);
    ends.reserve(n + 1)?;
    'ends: while ends.len() < n {
        ends.push(End {
            place: 1,
            expiry: Some(10),
        });
    }
    ends.push(End {
        place: 2,
        expiry: last,
    });
    Ok(ends)
}

/// Asserts which words are expired at which moments.
fn assert_expired(rt: &impl Abort, ends: &EndTable, wanted: &[(u32, u64, bool)]) {
    for (word, now, expired) in wanted {
        assert!(rt;
            ends.is_word_expired(*word, *now) == *expired,
            "word {word} at {now}"
        );
    }
}

/// Asserts the same of a new table.
fn check_table(
    rt: &impl Abort,
    alloc: Global,
    n: u32,
    last: Option<u64>,
    wanted: &[(u32, u64, bool)],
) -> Result<(), Memory>
    requires { n < 1000 }
{
    assert_expired(rt, &table(alloc, n, last)?, wanted);
    Ok(())
}

#[test]
fn a_word_is_expired_with_the_last_of_its_ends(rt: HostRuntime) -> Result<(), Fail> {
    let later = [
        (0, 9, false),
        (0, 10, true),
        (1, 19, false),
        (1, 20, true),
        (2, 20, false),
    ];
    check_table(&rt, rt.alloc(), 64, Some(20), &later)?;
    let never = [(0, 10, false), (0, u64::MAX, false)];
    Ok(check_table(&rt, rt.alloc(), 63, None, &never)?)
}

/// Drops the first of 65 rules, so that the end of the last one moves down a word.
fn check_drop(rt: &impl Abort, ends: &mut EndTable) -> Result<(), Memory>
    requires count { length ends.old.items ≡ 65 }
    requires places { All (λ e. 1 ≤ e.place) ends.old.items }
{
    ends.own_from(0)?;
    ends.drop_rules(0, 1);
    assert_expired(rt, ends, &[(0, 19, false), (0, 20, true), (1, 20, false)]);
    Ok(())
}

/// Lets the ends of the last rule of one word and the first of the next one expire at 20.
fn check_renewal(rt: &impl Abort, alloc: Global, ends: &mut EndTable) -> Result<(), Memory>
    requires { length ends.old.items ≡ 129 }
{
    ends.own_range(63, 2)?;
    ends.set_expiry(63, 2, Some(20));
    let wanted = [(0, 19, false), (0, 20, true), (1, 19, false), (2, 10, true)];
    assert_expired(rt, &ends.copy(alloc)?, &wanted);
    Ok(())
}

#[test]
fn an_end_that_moves_or_is_renewed_keeps_its_word(rt: HostRuntime) -> Result<(), Fail> {
    check_drop(&rt, &mut table(rt.alloc(), 64, Some(20))?)?;
    check_renewal(&rt, rt.alloc(), &mut table(rt.alloc(), 128, Some(10))?)?;
    Ok(())
}
