// The blocks of intervals, and the groups of values and of blocks, by hand.
ghost use Rattle.std.specs.Prelude.{◌<◌, ◌^◌, ◌/◌};
ghost use Rattle.field_groups.specs.Groups.{IsWidth};
ghost use Rattle.range_expand.specs.Split.{IsFieldInterval};
ghost use Rattle.set_model.specs.Blocks.{IsWithin};

use crate::asserts::same;
use field_groups::{group_mask, group_value, last_four};
use range_expand::{Blocks, count};
use set_model::Block;
use std::process::Abort;
use std::test::Fail;

// Whether there is a block with this base and so many free bits.
fn is_block(block: Option<Block>, base: u128, free_bits: u32) -> bool {
    match block {
        Some(block) => block.base == base && block.free_bits == free_bits,
        None => false,
    }
}

// Asserts that the blocks of an interval have these bases and free bits.
fn assert_split(rt: &impl Abort, low: u128, high: u128, bits: u32, wanted: &[(u128, u32)])
    requires { IsFieldInterval low high bits }
{
    same(rt, count(low, high, bits) as u64, wanted.len() as u64, 0);
    let mut blocks = Blocks::new(low, high, bits);
    for (base, free_bits) in wanted {
        assert!(rt; is_block(blocks.next(), *base, *free_bits), "{base}");
    }
}

// 1 to 254 of a field of eight bits.
const INSIDE: [(u128, u32); 14] = [
    (1, 0),
    (2, 1),
    (4, 2),
    (8, 3),
    (16, 4),
    (32, 5),
    (64, 6),
    (128, 6),
    (192, 5),
    (224, 4),
    (240, 3),
    (248, 2),
    (252, 1),
    (254, 0),
];

// 1024 to 65535 of a field of 16 bits.
const HIGH_PORTS: [(u128, u32); 6] = [
    (1024, 10),
    (2048, 11),
    (4096, 12),
    (8192, 13),
    (16384, 14),
    (32768, 15),
];

#[test]
fn block_splits(rt: HostRuntime) {
    assert_split(&rt, 1, 254, 8, &INSIDE);
    assert_split(&rt, 0, 255, 8, &[(0, 8)]);
    assert_split(&rt, 1024, 65535, 16, &HIGH_PORTS);
    assert_split(&rt, 0, u128::MAX, 128, &[(0, 128)]);
}

// Asserts a group of an address.
fn assert_group(rt: &impl Abort, address: u32, width: u32, g: u32, wanted: u64)
    requires width { IsWidth width 32 }
    requires group { g < 32 / width }
{
    same(
        rt,
        group_value(address as u128, width, 32, g) as u64,
        wanted,
        g as u64,
    );
}

// Asserts a group of a block, and the mask of the bits that it fixes there.
fn assert_mask(rt: &impl Abort, block: Block, width: u32, bits: u32, g: u32, wanted: (u64, u64))
    requires width { IsWidth width bits }
    requires group { g < bits / width }
    requires block { IsWithin bits block }
{
    let (base, mask) = group_mask(block, width, bits, g);
    same(rt, base as u64, wanted.0, g as u64);
    same(rt, mask as u64, wanted.1, g as u64);
}

// 192.168.1.5.
#[test]
fn groups_of_an_address(rt: HostRuntime) {
    for (g, wanted) in [(0, 0xC0), (1, 0xA8), (2, 0x01), (3, 0x05)] {
        assert_group(&rt, 0xC0A8_0105, 8, g, wanted);
    }
    for (g, wanted) in [(0, 0xC), (1, 0x0), (6, 0x0), (7, 0x5)] {
        assert_group(&rt, 0xC0A8_0105, 4, g, wanted);
    }
}

// 10.0.0.0/12, 192.168.2.0/31 and ::/0.
#[test]
fn masks_of_blocks(rt: HostRuntime) {
    let net = Block {
        base: 0x0A00_0000,
        free_bits: 20,
    };
    assert_mask(&rt, net, 8, 32, 0, (0x0A, 0xFF));
    assert_mask(&rt, net, 8, 32, 1, (0x00, 0xF0));
    assert_mask(&rt, net, 8, 32, 2, (0x00, 0x00));
    assert_mask(&rt, net, 4, 32, 2, (0x0, 0xF));
    assert_mask(&rt, net, 4, 32, 3, (0x0, 0x0));
    let pair = Block {
        base: 0xC0A8_0200,
        free_bits: 1,
    };
    assert_mask(&rt, pair, 8, 32, 3, (0x00, 0xFE));
    let all = Block {
        base: 0,
        free_bits: 128,
    };
    assert_mask(&rt, all, 8, 128, 0, (0, 0));
    assert_mask(&rt, all, 4, 128, 31, (0, 0));
}

// Asserts the places of the last four groups of a value in a list, and how many groups are before them.
fn assert_last(rt: &impl Abort, value: u128, width: u32, bits: u32, wanted: [u64; 4], rest: u32)
    requires { IsWidth width bits }
{
    let four = last_four(value, width, bits);
    same(rt, four.fourth as u64, wanted[0], 4);
    same(rt, four.third as u64, wanted[1], 3);
    same(rt, four.second as u64, wanted[2], 2);
    same(rt, four.last as u64, wanted[3], 1);
    assert!(rt; four.rest == rest);
}

#[test]
fn last_four_groups(rt: HostRuntime) {
    // 192.168.1.5 in bytes, and in halves of them: c0a80105.
    assert_last(
        &rt,
        0xC0A8_0105,
        8,
        32,
        [0xC0, 256 + 0xA8, 512 + 0x01, 768 + 0x05],
        0,
    );
    assert_last(&rt, 0xC0A8_0105, 4, 32, [64, 81, 96, 117], 4);

    // Port 443 has two bytes, so the first is there three times.
    assert_last(&rt, 0x01BB, 8, 16, [1, 1, 1, 256 + 0xBB], 0);

    // The last four bytes of 2001:db8::80.
    assert_last(
        &rt,
        0x2001_0DB8_0000_0000_0000_0000_0000_0080,
        8,
        128,
        [12 * 256, 13 * 256, 14 * 256, 15 * 256 + 0x80],
        12,
    );
}
