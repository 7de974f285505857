// Comparisons that print both values. They have a module of their own, since each place that prints two values is slow to
// prove.
use std::process::Abort;

/// Asserts that two numbers are the same.
pub fn same(rt: &impl Abort, found: u64, wanted: u64) {
    assert_eq!(rt; found, wanted);
}

/// Asserts that two numbers are the same, or that both are missing.
pub fn same_if_any(rt: &impl Abort, found: Option<u64>, wanted: Option<u64>) {
    assert_eq!(rt; found, wanted);
}
