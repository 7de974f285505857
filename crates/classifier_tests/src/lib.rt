//! Tests the classifier by worked examples, and the image of a set beside a plain list of elements.
//!
//! The examples are of blocks, groups, rows of bits, pages, tables, ends and expiries. The elements of the
//! plain list look random.
//!
//! **Definitions:** none; this crate has only tests. **Theory:** docs/architecture.md, "The classifier, by
//! one example".
#![tactic(auto)]

#[cfg(test)]
mod asserts;
#[cfg(test)]
mod changes;
#[cfg(test)]
mod compares;
#[cfg(test)]
mod disjoint;
#[cfg(test)]
mod drawn;
#[cfg(test)]
mod ends;
#[cfg(test)]
mod examples;
#[cfg(test)]
mod expiries;
#[cfg(test)]
mod fields;
#[cfg(test)]
mod narrow;
#[cfg(test)]
mod paged;
#[cfg(test)]
mod plain;
#[cfg(test)]
mod random;
#[cfg(test)]
mod rows;
#[cfg(test)]
mod rules;
#[cfg(test)]
mod sets;
#[cfg(test)]
mod summaries;
