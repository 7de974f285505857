// The law on which lookups rely. It is the contract of a function that does nothing, so callers may
// cite it.
ghost use Rattle.lookup_table.specs.Laws.{HeldByBuckets};

/// A rule's block holds a value exactly if the rule is set in the value's bucket of each group.
pub fn held_by_buckets()
    ensures { HeldByBuckets }
{}
