// Comparisons that name the case. They have a module of their own, since each place that prints two values is
// slow to prove.
use std::process::Abort;

/// Asserts that two numbers are the same.
pub(crate) fn same(rt: &impl Abort, found: u64, wanted: u64, case: u64) {
    assert_eq!(rt; found, wanted, "case {case}");
}

/// Asserts that two numbers are the same, or that both are missing.
pub(crate) fn same_if_any(rt: &impl Abort, found: Option<u64>, wanted: Option<u64>, case: u64) {
    assert_eq!(rt; found, wanted, "case {case}");
}
