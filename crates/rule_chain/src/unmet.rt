//! The tests that no packet can meet, since no packet has a key for their sets.
ghost use Rattle.std.specs.Prelude.{◌≡◌, ◌==◌, ◌++◌, List, ℕ, true, false, map, IfOk, OnOk};
ghost use Rattle.std.specs.List.{filter, flat_map, fold, list_any};
ghost use Rattle.set_model.specs.Control.{Generation};
ghost use Rattle.set_model.specs.declared.packet.Packet.{Packet as OnePacket};
ghost use Rattle.rule_chain.specs.declared.chains.Test.{Test as OneTest};
ghost use Rattle.rule_chain.specs.Judged.{meets_test};
ghost use Rattle.rule_chain.specs.Unmet.{are_alike as are_both_alike, has_key as has_key_of, has_no_key, key_types as types_of, of_chains, of_rule, sets_of, unmet, with_type};

use crate::chains::{Chain, Chains, Rule, Test};
use crate::decide::are_alike;
use set_model::{Memory, Packet, Packets, SetDecl};
use std::alloc::Global;

/// Whether one of these sets has the kinds of this one.
fn has_type(schema: &[SetDecl], types: &[u32], set: u32) -> bool
    ensures { result ≡ list_any (λ o. are_both_alike schema.now o set) types.now }
{
    types.iter().any(|other| are_alike(schema, *other, set))
}

/// Adds a set to those that stand for the types of keys, unless one of them has its kinds.
///
/// # Errors
///
/// `Memory` if memory runs out.
pub fn add_type(schema: &[SetDecl], types: &mut Vec<u32>, set: u32) -> Result<(), Memory>
    ensures { OnOk result (types.new.items ≡ with_type schema.now types.old.items set) }
{
    if !has_type(schema, types.as_slice(), set) {
        types.push(set)?;
    }
    Ok(())
}

/// Adds the sets of packets.
#[tactic(auto, using(crate::proofs::UnmetLaws::one_packet_more))]
fn add_types(schema: &[SetDecl], types: &mut Vec<u32>, packets: &[Packet]) -> Result<(), Memory>
    ensures { OnOk result (types.new.items ≡ fold (with_type schema.now) types.old.items (map (λ (p : OnePacket). p.set) packets.now)) }
{
    for packet in packets {
        match add_type(schema, types, packet.set) {
            Ok(()) => {}
            Err(_) => return Err(Memory),
        }
    }
    Ok(())
}

/// The types of the keys of packets, each by the first set that has it.
///
/// # Errors
///
/// `Memory` if memory runs out.
#[tactic(auto, using(crate::proofs::UnmetLaws::one_section_more))]
pub fn key_types(alloc: Global, schema: &[SetDecl], keys: &[Packets]) -> Result<Vec<u32>, Memory>
    ensures { IfOk result (λ types. types.items ≡ types_of schema.now (sets_of keys.now)) }
{
    let mut types = Vec::new(alloc);
    for packets in keys {
        match add_types(schema, &mut types, packets.as_slice()) {
            Ok(()) => {}
            Err(_) => return Err(Memory),
        }
    }
    Ok(types)
}

/// Whether one of these sets has the kinds of a test's set.
fn has_key(schema: &[SetDecl], types: &[u32], test: Test) -> bool
    ensures { result ≡ has_key_of schema.now types.now test }
{
    types
        .iter()
        .any(|other| are_alike(schema, test.set, *other))
}

/// Adds the tests of a rule for whose sets there is no key.
fn add_unmet(
    schema: &[SetDecl],
    types: &[u32],
    tests: &[Test],
    found: &mut Vec<Test>,
) -> Result<(), Memory>
    ensures { OnOk result (found.new.items ≡ found.old.items ++ filter (has_no_key schema.now types.now) tests.now) }
{
    for test in tests {
        if !has_key(schema, types, *test) {
            found.push(*test)?;
        }
    }
    Ok(())
}

/// Adds those of rules.
fn add_unmet_of_rules(
    schema: &[SetDecl],
    types: &[u32],
    rules: &[Rule],
    found: &mut Vec<Test>,
) -> Result<(), Memory>
    ensures { OnOk result (found.new.items ≡ found.old.items ++ flat_map (of_rule (has_no_key schema.now types.now)) rules.now) }
{
    for rule in rules {
        match add_unmet(schema, types, rule.tests.as_slice(), found) {
            Ok(()) => {}
            Err(_) => return Err(Memory),
        }
    }
    Ok(())
}

/// Adds those of chains.
fn add_unmet_of_chains(
    schema: &[SetDecl],
    types: &[u32],
    chains: &[Chain],
    found: &mut Vec<Test>,
) -> Result<(), Memory>
    ensures { OnOk result (found.new.items ≡ found.old.items ++ of_chains (has_no_key schema.now types.now) chains.now) }
{
    for chain in chains {
        match add_unmet_of_rules(schema, types, chain.rules.as_slice(), found) {
            Ok(()) => {}
            Err(_) => return Err(Memory),
        }
    }
    Ok(())
}

impl Chains {
    /// The tests that no packet can meet, in the order of the file: no packet has a key for their sets, since
    /// these have other kinds. `types` are the types of the packets' keys ([`key_types`](crate::key_types)).
    /// Without packets there are no such tests.
    ///
    /// # Errors
    ///
    /// `Memory` if memory runs out.
    pub fn unmet(&self, alloc: Global, types: &[u32]) -> Result<Vec<Test>, Memory>
        ensures { (sets : List ℕ) → types.now ≡ types_of self.now.schema sets → IfOk result (λ found. found.items ≡ unmet self.now.schema sets self.now.chains) }
    {
        let mut found = Vec::new(alloc);
        if types.is_empty() {
            return Ok(found);
        }
        add_unmet_of_chains(
            self.schema.as_slice(),
            types,
            self.chains.as_slice(),
            &mut found,
        )?;
        Ok(found)
    }
}

/// No packet whose set is among these meets a test for which they have no key: neither `in` nor `out`.
pub fn unmet_law(_schema: &[SetDecl])
    ensures { (sets : List ℕ) (t : OneTest) (g : Generation) (p : OnePacket) → list_any (λ s. s == p.set) sets ≡ true → has_key_of _schema.now sets t ≡ false → meets_test _schema.now g p t ≡ false }
{}
