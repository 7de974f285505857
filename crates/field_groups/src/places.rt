ghost use Rattle.std.specs.Prelude.{◌≡◌, ◌-◌, ◌/◌, ◌<◌, ◌≤◌};
ghost use Rattle.field_groups.specs.Groups.{IsWidth};
ghost use Rattle.field_groups.specs.LastFour.{IsGroupPlace, AreLastFour};

/// The places of the last four groups of a value, and the number of groups before them. The list
/// has an item for each value of each group. If a field has fewer groups, its first group is there
/// more than once.
#[derive(Clone, Copy)]
pub struct LastFour {
    /// The place of the fourth group from the end.
    pub fourth: usize,
    /// The place of the third group from the end.
    pub third: usize,
    /// The place of the last group but one.
    pub second: usize,
    /// The place of the last group.
    pub last: usize,
    /// How many groups there are before the four.
    pub rest: u32,
}

/// How many groups of `width` bits a field of `bits` bits has.
#[inline(always)]
pub fn group_count(width: u32, bits: u32) -> u32
    requires { IsWidth width bits }
    ensures { result ≡ bits / width }
{
    if width == 8 { bits / 8 } else { bits / 4 }
}

/// The place of the value's group that has `behind` groups after it.
#[inline(always)]
fn place_behind(value: u128, width: u32, bits: u32, behind: u32) -> usize
    requires width { IsWidth width bits }
    requires group { behind < bits / width }
    requires last { behind ≤ 3 }
    ensures { IsGroupPlace width bits value (bits / width - 1 - behind) result }
{
    let g = group_count(width, bits) - 1 - behind;
    // Four groups are at most 32 bits.
    let low = (value % (1 << 32)) as u64;
    let v = low >> (width * behind) & (1u64 << width) - 1;
    ((g as usize) << width) + v as usize
}

/// The places of a value's last four groups.
#[inline(always)]
pub fn last_four(value: u128, width: u32, bits: u32) -> LastFour
    requires { IsWidth width bits }
    ensures { AreLastFour width bits value result }
{
    let groups = group_count(width, bits);
    let behind_first = groups - 1;
    LastFour {
        fourth: place_behind(value, width, bits, behind_first.min(3)),
        third: place_behind(value, width, bits, behind_first.min(2)),
        second: place_behind(value, width, bits, behind_first.min(1)),
        last: place_behind(value, width, bits, 0),
        rest: groups.saturating_sub(4),
    }
}
