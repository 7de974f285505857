// Laws of groups and blocks. Each is the contract of a function that does nothing, so callers may
// cite it.
ghost use Rattle.field_groups.specs.Laws.{HeldByGroups, SharedByGroups, SharedIsHeld, AgreeingRun, AgreeingHalves, FixedByMask};

/// A block holds a value exactly if in each group the value agrees with the block.
pub fn held_by_groups()
    ensures { HeldByGroups }
{}

/// Two blocks share a value exactly if in each group some value agrees with both.
pub fn shared_by_groups()
    ensures { SharedByGroups }
{}

/// Two blocks share a value, by their ends, exactly if both hold some value.
pub fn shared_is_held()
    ensures { SharedIsHeld }
{}

/// The values of a group that agree with a block are a run.
pub fn agreeing_run()
    ensures { AgreeingRun }
{}

/// A value of a group of eight bits agrees with a block exactly if its halves do in the two groups
/// of four bits.
pub fn agreeing_halves()
    ensures { AgreeingHalves }
{}

/// What a block fixes of a group is that group of the block's network mask.
pub fn fixed_by_mask()
    ensures { FixedByMask }
{}
