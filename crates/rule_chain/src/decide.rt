//! The verdict on a packet.
ghost use Rattle.std.specs.Prelude.{◌≡◌, ◌==◌, ◌≤◌, ◌<◌, length, slice_get};
ghost use Rattle.std.specs.List.{list_all, zip};
ghost use Rattle.set_model.specs.Control.{Generation};
ghost use Rattle.set_model.specs.Runnable.{IsFitting};
ghost use Rattle.rule_chain.specs.Chains.{rule_count};
ghost use Rattle.rule_chain.specs.Judged.{kind_number, same_kinds, alike, as_asked, meets_test, decision_of, DecideNothing, judged};

use crate::chains::{Act, Chain, Chains, Test};
use crate::lookups::Lookups;
use set_model::{Kind, Packet, SetDecl, Verdict};

fn number_of_kind(kind: Kind) -> u8
    ensures { result ≡ kind_number kind }
{
    match kind {
        Kind::Ipv4 => 0,
        Kind::Ipv6 => 1,
        Kind::Ether => 2,
        Kind::Proto => 3,
        Kind::Service => 4,
        Kind::Mark => 5,
    }
}

fn all_the_same(kinds: &[Kind], others: &[Kind]) -> bool
    ensures { result ≡ list_all (λ p. kind_number p.0 == kind_number p.1) (zip kinds.now others.now) }
{
    kinds.iter().zip(others.iter()).all(|(kind, other)| number_of_kind(*kind)
        == number_of_kind(*other))
}

fn have_same_kinds(kinds: &[Kind], others: &[Kind]) -> bool
    ensures { result ≡ same_kinds kinds.now others.now }
{
    kinds.len() == others.len() && all_the_same(kinds, others)
}

fn is_as_asked(inside: bool, found: bool) -> bool
    ensures { result ≡ as_asked inside found }
{
    if inside { found } else { !found }
}

pub(crate) fn are_alike(schema: &[SetDecl], set: u32, other: u32) -> bool
    ensures { result ≡ alike (slice_get schema.now set) (slice_get schema.now other) }
{
    match schema.get(set as usize) {
        None => false,
        Some(own) => match schema.get(other as usize) {
            None => false,
            Some(of) => have_same_kinds(own.kinds.as_slice(), of.kinds.as_slice()),
        },
    }
}

/// Whether a packet meets a test.
#[tactic(auto, using(crate::proofs::JudgedLaws::fits_alike))]
fn meets_test<L: Lookups>(schema: &[SetDecl], lookups: &mut L, packet: &Packet, test: Test) -> bool
    requires schema { L.schema (L.state lookups.old) ≡ schema.now }
    requires packet { IsFitting schema.now packet.now }
    ensures meets { (g : Generation) → L.looks_in (L.state lookups.old) g → result ≡ meets_test schema.now g packet.entry.now test }
    ensures same { L.state lookups.new ≡ L.state lookups.old }
{
    if !are_alike(schema, test.set, packet.set) {
        return false;
    }
    let found = lookups.has(test.set, &packet.key, packet.now);
    is_as_asked(test.inside, found)
}

/// Whether a packet meets all tests.
fn meets_all<L: Lookups>(
    schema: &[SetDecl],
    lookups: &mut L,
    packet: &Packet,
    tests: &[Test],
) -> bool
    requires schema { L.schema (L.state lookups.old) ≡ schema.now }
    requires packet { IsFitting schema.now packet.now }
    ensures meets { (g : Generation) → L.looks_in (L.state lookups.old) g → result ≡ list_all (meets_test schema.now g packet.entry.now) tests.now }
    ensures same { L.state lookups.new ≡ L.state lookups.old }
{
    match tests {
        [] => true,
        [test, others @ ..] => {
            meets_test(schema, lookups, packet, *test) && meets_all(schema, lookups, packet, others)
        }
    }
}

/// How many rules chains have.
fn count_rules(chains: &[Chain]) -> u64
    requires { rule_count chains.now ≤ 64 }
    ensures { result ≡ rule_count chains.now }
{
    match chains {
        [] => 0,
        [chain, others @ ..] => chain.rules.len() + count_rules(others),
    }
}

impl Chains {
    /// The number of the rule that decides in a chain, if one does. `passed` marks the chains that are
    /// known to decide nothing. So each chain is walked at most once.
    fn walk<L: Lookups>(
        &self,
        lookups: &mut L,
        packet: &Packet,
        chain: u64,
        passed: &mut [bool],
    ) -> Option<u64>
        requires schema { L.schema (L.state lookups.old) ≡ self.now.schema }
        requires packet { IsFitting self.now.schema packet.now }
        requires chain { chain < length self.now.chains }
        requires size { length passed.old ≡ 4 }
        requires passed { (g : Generation) → L.looks_in (L.state lookups.old) g → DecideNothing self.now g packet.now passed.old }
        ensures decides { (g : Generation) → L.looks_in (L.state lookups.old) g → result ≡ decision_of self.now g packet.entry.now chain }
        ensures passed { (g : Generation) → L.looks_in (L.state lookups.old) g → DecideNothing self.now g packet.entry.now passed.new }
        ensures size { length passed.new ≡ 4 }
        ensures same { L.state lookups.new ≡ L.state lookups.old }
    {
        let first = count_rules(&self.chains.as_slice()[..chain as usize]);
        let rules = self.chains.at(chain).rules.as_slice();
        let mut number = first;
        'rules: for rule in rules {
            if meets_all(
                self.schema.as_slice(),
                lookups,
                packet,
                rule.tests.as_slice(),
            ) {
                match rule.act {
                    Act::Accept | Act::Drop => return Some(number),
                    Act::Return => return None,
                    Act::Jump { chain: earlier } => {
                        let place = earlier as usize;
                        if !passed[place] {
                            let decision = self.walk(lookups, packet, u64::from(earlier), passed);
                            if decision.is_some() {
                                return decision;
                            }
                            passed[place] = true;
                        }
                    }
                }
            }
            number += 1;
        }
        None
    }

    /// The verdict on a packet in the generation of the lookups. It has the number of the rule that
    /// decides as an element's id, or none if no rule decides. Rules are numbered through the file. It
    /// takes no memory.
    pub fn decide<L: Lookups>(&self, lookups: &mut L, packet: &Packet) -> Verdict
        requires schema { L.schema (L.state lookups.old) ≡ self.now.schema }
        requires packet { IsFitting self.now.schema packet.now }
        ensures verdict { (g : Generation) → L.looks_in (L.state lookups.old) g → result ≡ judged self.now g packet.entry.now }
        ensures same { L.state lookups.new ≡ L.state lookups.old }
    {
        let mut passed = [false; 4];
        match self.walk(lookups, packet, self.chains.len() - 1, &mut passed) {
            Some(number) => Verdict::Element { id: number },
            None => Verdict::None,
        }
    }
}
