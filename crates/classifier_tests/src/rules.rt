ghost use Rattle.std.specs.Prelude.{◌≡◌, ◌<◌, ◌≤◌, IfOk, length};
ghost use Rattle.bit_rows.specs.Row.{Row};
ghost use Rattle.field_groups.specs.Groups.{IsWidth};
ghost use Rattle.set_model.specs.Blocks.{IsWithin};

use crate::asserts::same;
use bit_rows::BitRow;
use field_groups::last_four;
use lookup_table::{FieldTable, width_for};
use set_model::{Block, Memory};
use std::alloc::Global;
use std::process::Abort;
use std::test::Fail;

// A block of a field of so many bits, if it is one.
#[tactic(auto, using(std::proofs::lemmas::Nat::one_shl))]
fn block(rt: &impl Abort, bits: u32, base: u32, free_bits: u32) -> Block
    ensures { IsWithin bits result }
{
    assert!(rt; bits < 64 && free_bits <= 32);
    let size = 1u128 << free_bits;
    assert!(rt; size > 0);
    assert!(rt; base as u128 % size == 0);
    assert!(rt; base as u128 + size <= 1u128 << bits);
    Block {
        base: base as u128,
        free_bits,
    }
}

// Adds a block to a table of a field of so many bits.
fn add(
    rt: &impl Abort,
    table: &mut FieldTable,
    bits: u32,
    base: u32,
    free_bits: u32,
) -> Result<(), Memory> {
    assert!(rt; table.bits == bits && table.rules < 65_536);
    table.reserve(1)?;
    table.add_block(block(rt, bits, base, free_bits));
    Ok(())
}

// The table of these bases and free bits.
fn table_of(
    rt: &impl Abort,
    alloc: Global,
    bits: u32,
    blocks: &[(u32, u32)],
) -> Result<FieldTable, Fail>
    requires { IsWidth 8 bits }
{
    let mut table = FieldTable::new(alloc, bits)?;
    for (base, free_bits) in blocks {
        add(rt, &mut table, bits, *base, *free_bits)?;
    }
    Ok(table)
}

// A row of so many ones.
fn ones(alloc: Global, len: u32) -> Result<BitRow, Fail>
    ensures { IfOk result (λ row. length row.bits ≡ len) }
{
    let mut row = BitRow::zeros(alloc, len)?;
    row.fill(len, true);
    Ok(row)
}

// The set places of a row.
fn places(alloc: Global, row: &BitRow) -> Result<Vec<u32>, Fail> {
    let mut set = Vec::new(alloc);
    for r in 0..row.len() {
        if row.get(r) {
            set.push(r)?;
        }
    }
    Ok(set)
}

// The rules that hold a value.
#[tactic(auto, using(std::proofs::lemmas::Nat::one_shl))]
fn holding(
    rt: &impl Abort,
    alloc: Global,
    table: &FieldTable,
    value: u32,
) -> Result<Vec<u32>, Fail> {
    assert!(rt; table.bits < 64);
    assert!(rt; (value as u128) < 1u128 << table.bits);
    let mut row = ones(alloc, table.rules)?;
    table.match_into(value as u128, &mut row);
    assert!(rt; table.match_word(value as u128, 0, u64::MAX) == row.word(0));
    places(alloc, &row)
}

// Asserts which rules hold a value.
fn assert_holding(
    rt: &impl Abort,
    alloc: Global,
    table: &FieldTable,
    value: u32,
    rules: &[u32],
) -> Result<(), Fail> {
    assert!(rt;
        holding(rt, alloc, table, value)?.as_slice() == rules,
        "at {value}"
    );
    Ok(())
}

// The rules that share a value with a block.
fn sharing(
    rt: &impl Abort,
    alloc: Global,
    table: &FieldTable,
    base: u32,
    free_bits: u32,
) -> Result<Vec<u32>, Fail> {
    let mut row = ones(alloc, table.rules)?;
    let mut rest = ones(alloc, table.rules)?;
    table.share_into(block(rt, table.bits, base, free_bits), &mut row, &mut rest);
    places(alloc, &row)
}

// Asserts which rules share a value with a block.
fn assert_sharing(
    rt: &impl Abort,
    alloc: Global,
    table: &FieldTable,
    base: u32,
    free_bits: u32,
    rules: &[u32],
) -> Result<(), Fail> {
    let found = sharing(rt, alloc, table, base, free_bits)?;
    assert!(rt; found.as_slice() == rules, "at {base}");
    Ok(())
}

// The blocks of 1 to 254.
const SPLIT: [(u32, u32); 14] = [
    (1, 0),
    (2, 1),
    (4, 2),
    (8, 3),
    (16, 4),
    (32, 5),
    (64, 6),
    (128, 6),
    (192, 5),
    (224, 4),
    (240, 3),
    (248, 2),
    (252, 1),
    (254, 0),
];

// Asserts how many buckets a table of these blocks has, and which rules hold 100, 0 and 255.
fn assert_split(
    rt: &impl Abort,
    alloc: Global,
    table: &FieldTable,
    buckets: u64,
) -> Result<(), Fail> {
    assert!(rt; table.buckets.len() == buckets);
    assert!(rt; table.rules == 14);
    assert_holding(rt, alloc, table, 100, &[6])?;
    assert_holding(rt, alloc, table, 0, &[])?;
    assert_holding(rt, alloc, table, 255, &[])
}

// Asserts that these blocks match alike in groups of four bits, and of eight again.
fn assert_narrow(rt: &impl Abort, alloc: Global, narrow: &FieldTable) -> Result<(), Fail> {
    assert_split(rt, alloc, narrow, 32)?;
    assert_split(rt, alloc, &narrow.with_width(alloc, 8)?, 256)
}

// Asserts that these blocks match alike in groups of eight bits, of four, and of eight again.
fn assert_match_alike(rt: &impl Abort, alloc: Global, wide: &FieldTable) -> Result<(), Fail> {
    assert_split(rt, alloc, wide, 256)?;
    assert_narrow(rt, alloc, &wide.with_width(alloc, 4)?)
}

#[test]
fn block_match(rt: HostRuntime) -> Result<(), Fail> {
    let alloc = rt.alloc();
    assert_match_alike(&rt, alloc, &table_of(&rt, alloc, 8, &SPLIT)?)
}

// 10.0.0.5, and 192.168.1.0 to 192.168.2.1.
const ADDRESSES: [(u32, u32); 3] = [(0x0A00_0005, 0), (0xC0A8_0100, 8), (0xC0A8_0200, 1)];

// Asserts which of these addresses share a value with each of four blocks.
fn assert_shared(rt: &impl Abort, alloc: Global, table: &FieldTable) -> Result<(), Fail> {
    assert_sharing(rt, alloc, table, 3_232_235_520, 16, &[1, 2])?;
    assert_sharing(rt, alloc, table, 167_772_164, 2, &[0])?;
    assert_sharing(rt, alloc, table, 0xC0A8_0200, 9, &[2])?;
    assert_sharing(rt, alloc, table, 0xC0A8_0000, 8, &[])
}

fn assert_narrow_shared(rt: &impl Abort, alloc: Global, wide: &FieldTable) -> Result<(), Fail> {
    assert_shared(rt, alloc, &wide.with_width(alloc, 4)?)
}

// Asserts that a table of these addresses, the same in groups of four bits, and a copy share alike.
fn assert_share_alike(rt: &impl Abort, alloc: Global, wide: &FieldTable) -> Result<(), Fail> {
    assert_shared(rt, alloc, wide)?;
    assert_narrow_shared(rt, alloc, wide)?;
    assert_shared(rt, alloc, &wide.copy(alloc)?)
}

#[test]
fn share_probe(rt: HostRuntime) -> Result<(), Fail> {
    let alloc = rt.alloc();
    assert_share_alike(&rt, alloc, &table_of(&rt, alloc, 32, &ADDRESSES)?)
}

// Adds 10.0.0.5 alone to a table without rules, and then 192.168.1.0 to 192.168.2.1 at once.
fn add_addresses(rt: &impl Abort, table: &mut FieldTable) -> Result<(), Memory> {
    add(rt, table, 32, 0x0A00_0005, 0)?;
    let net = block(rt, 32, 0xC0A8_0100, 8);
    let pair = block(rt, 32, 0xC0A8_0200, 1);
    assert!(rt; table.bits == 32 && table.rules == 1);
    table.reserve(2)?;
    table.add_blocks(&[net, pair]);
    Ok(())
}

// Asserts that all three are in the table.
fn assert_all_came(rt: &impl Abort, alloc: Global, table: &FieldTable) -> Result<(), Fail> {
    assert!(rt; table.rules == 3);
    assert_holding(rt, alloc, table, 0xC0A8_0201, &[2])?;

    // The last byte of 10.0.0.5 agrees with the first two rules, and its first with one.
    assert!(rt; table.bits == 32 && table.groups() == 4);
    assert!(rt; table.buckets.word(table.place(0x0A00_0005, 3) as u64, 0) == 0b011);
    assert!(rt; table.buckets.len() == 1024);
    assert!(rt; table.buckets.word(0x0A, 0) == 0b001);
    Ok(())
}

// Asserts that the first and the third are left in the table.
fn assert_second_went(rt: &impl Abort, alloc: Global, table: &FieldTable) -> Result<(), Fail> {
    assert!(rt; table.rules == 2);
    assert_holding(rt, alloc, table, 0xC0A8_0201, &[1])?;
    assert_holding(rt, alloc, table, 0xC0A8_0101, &[])?;
    assert_holding(rt, alloc, table, 0x0A00_0005, &[0])
}

// Asserts that three rules come to a table without rules, and that the second of them goes.
fn assert_come_and_go(rt: &impl Abort, alloc: Global, table: &mut FieldTable) -> Result<(), Fail> {
    add_addresses(rt, table)?;
    assert_all_came(rt, alloc, table)?;
    assert!(rt; table.rules == 3);
    table.own_from(1)?;
    table.drop_rules(1, 1);
    assert_second_went(rt, alloc, table)
}

#[test]
fn rules_come_and_go(rt: HostRuntime) -> Result<(), Fail> {
    let alloc = rt.alloc();
    assert_come_and_go(&rt, alloc, &mut FieldTable::new(alloc, 32)?)
}

// A table of so many hosts, 10.0.0.0 and on.
fn hosts(rt: &impl Abort, alloc: Global, n: u32) -> Result<FieldTable, Fail> {
    let mut table = FieldTable::new(alloc, 32)?;
    table.set_summed(true);
    for i in 0..n {
        assert!(rt; i < 65_536);
        add(rt, &mut table, 32, 0x0A00_0000 + i, 0)?;
    }
    Ok(table)
}

// Asserts that the second of n hosts has gone, and that no other came.
fn assert_dropped(rt: &impl Abort, alloc: Global, table: &FieldTable, n: u32) -> Result<(), Fail>
    requires { (1 < n) × (n < 4096) }
{
    assert!(rt; table.rules == n - 1);
    assert_holding(rt, alloc, table, 0x0A00_0001, &[])?;
    assert_holding(rt, alloc, table, 0x0B00_0000, &[])?;
    assert_holding(rt, alloc, table, 0x0A00_0000 + n - 1, &[n - 2])
}

// Asserts that all of n hosts are there, and the other one.
fn assert_added(rt: &impl Abort, alloc: Global, table: &FieldTable, n: u32) -> Result<(), Fail>
    requires { (1 < n) × (n < 4096) }
{
    assert!(rt; table.rules == n + 1);
    assert_holding(rt, alloc, table, 0x0A00_0001, &[1])?;
    assert_holding(rt, alloc, table, 0x0A00_0000 + n - 1, &[n - 1])?;
    assert_holding(rt, alloc, table, 0x0B00_0000, &[n])
}

// Asserts that a table of n hosts and a copy of it change each by itself.
fn assert_live_on(
    rt: &impl Abort,
    alloc: Global,
    table: &mut FieldTable,
    copy: &mut FieldTable,
    n: u32,
) -> Result<(), Fail> {
    assert!(rt; copy.rules == n && n < 4096 && n > 1);
    add(rt, copy, 32, 0x0B00_0000, 0)?;
    assert!(rt; table.rules == n);
    table.own_from(1)?;
    table.drop_rules(1, 1);
    assert_dropped(rt, alloc, table, n)?;
    assert_added(rt, alloc, copy, n)
}

// The same of a copy that is made here.
fn assert_copy_lives_on(
    rt: &impl Abort,
    alloc: Global,
    table: &mut FieldTable,
    n: u32,
) -> Result<(), Fail> {
    table.settle()?;
    let mut copy = table.copy(alloc)?;
    assert_live_on(rt, alloc, table, &mut copy, n)
}

#[test]
fn copies_live_on_beside_each_other(rt: HostRuntime) -> Result<(), Fail> {
    let alloc = rt.alloc();
    for n in [511, 512, 513, 1024] {
        assert_copy_lives_on(&rt, alloc, &mut hosts(&rt, alloc, n)?, n)?;
    }
    Ok(())
}

// Asserts which of the first 64 pages of a table of addresses may match one.
fn assert_pages(rt: &impl Abort, table: &FieldTable, address: u32, pages: u64) {
    assert!(rt; table.bits == 32);
    let lines = last_four(address as u128, 8, 32);
    let found = table.candidate_pages(address as u128, lines, 0);
    same(rt, found, pages, address as u64);
}

// Asserts which pages of a table of 33,000 hosts may match one, before its first 200 go and after.
fn assert_tops_tell(rt: &impl Abort, alloc: Global, table: &mut FieldTable) -> Result<(), Fail> {
    // 10.0.128.132 is rule 32,900, of page 8.
    assert_pages(rt, table, 0x0A00_8084, 1 << 8);
    assert_pages(rt, table, 0x0A00_FF84, 0);

    // It becomes rule 32,700, of page 7.
    assert!(rt; table.rules == 33_000);
    table.own_from(0)?;
    table.drop_rules(0, 200);
    assert_pages(rt, table, 0x0A00_8084, 1 << 7);
    assert_pages(rt, &table.with_width(alloc, 4)?, 0x0A00_8084, 1 << 7);
    Ok(())
}

#[test]
fn tops_tell_which_pages_may_match(rt: HostRuntime) -> Result<(), Fail> {
    let alloc = rt.alloc();
    assert_tops_tell(&rt, alloc, &mut hosts(&rt, alloc, 33_000)?)
}

#[test]
fn widths(rt: HostRuntime) {
    for (bits, rules, width) in [
        (32, 0, 8),
        (32, 16_384, 8),
        (32, 16_385, 4),
        (128, 4_096, 8),
        (128, 4_097, 4),
        (16, 32_768, 8),
        (16, 32_769, 4),
    ] {
        same(&rt, width_for(bits, rules) as u64, width, rules as u64);
    }
}
