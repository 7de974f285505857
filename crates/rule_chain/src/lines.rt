//! The lines of packets that chains of rules have judged.
ghost use Rattle.std.specs.Prelude.{◌≡◌, ◌++◌, All, OnOk, OnErr, slice_get};
ghost use Rattle.set_model.specs.Control.{Generation};
ghost use Rattle.set_model.specs.declared.packet.Packet.{Packet};
ghost use Rattle.set_model.specs.declared.report.Line.{Line as PacketLine};
ghost use Rattle.text_pieces.specs.Appends.{AppendsPart};
ghost use Rattle.rule_chain.specs.Judged.{judged};
ghost use Rattle.rule_chain.specs.JudgedText.{IsOfRules, accept_text, accepts_by, chain_rules, is_accepting, judged_line, judged_text};

use crate::chains::{Act, Chain, Chains};
use set_model::{Line, Lines, Memory, Verdict};
use text_pieces::Piece::{Number, Packet, Word};
use text_pieces::append_pieces;

fn accept_word(accept: bool) -> &'static [u8]
    ensures { result.now ≡ accept_text accept }
{
    if accept { b"accept" } else { b"drop" }
}

fn accepts(act: Act) -> bool
    ensures { result ≡ accepts_by act }
{
    match act {
        Act::Accept => true,
        Act::Drop | Act::Return | Act::Jump { .. } => false,
    }
}

/// Whether the rule with this number accepts. Rules are numbered through the chains.
#[tactic(auto, using(crate::proofs::LineLaws::at_front, crate::proofs::LineLaws::at_behind))]
fn accepts_at(chains: &[Chain], number: u64) -> bool
    ensures { result ≡ is_accepting (slice_get (chain_rules chains.now) number) }
{
    match chains {
        [] => false,
        [chain, others @ ..] => {
            let count = chain.rules.len();
            if number < count {
                accepts(chain.rules.at(number).act)
            } else {
                accepts_at(others, number - count)
            }
        }
    }
}

/// The word for what the policy does.
fn policy_word(chains: &Chains) -> &'static [u8]
    ensures { result.now ≡ accept_text chains.now.accept }
{
    accept_word(chains.accept)
}

/// The word for what the rule with this number does. Rules are numbered through the file.
fn rule_word(chains: &Chains, number: u64) -> &'static [u8]
    ensures { result.now ≡ accept_text (is_accepting (slice_get (chain_rules chains.now.chains) number)) }
{
    accept_word(accepts_at(chains.chains.as_slice(), number))
}

/// Appends the line of a packet.
fn write_line(chains: &Chains, line: &Line, out: &mut Vec<u8>) -> Result<(), Memory>
    ensures ok { OnOk result (out.new.items ≡ out.old.items ++ judged_line chains.now line.now) }
    ensures err { OnErr result (AppendsPart out.old.items out.new.items (judged_line chains.now line.now)) }
{
    match line.verdict {
        Verdict::None => append_pieces(
            &[
                Packet(line),
                Word(b" policy "),
                Word(policy_word(chains)),
                Word(b"\n"),
            ],
            out,
        ),
        Verdict::Element { id } => append_pieces(
            &[
                Packet(line),
                Word(b" rule "),
                Number(id),
                Word(b" "),
                Word(rule_word(chains, id)),
                Word(b"\n"),
            ],
            out,
        ),
    }
}

/// Appends the lines of packets that chains have judged, in their order. `packet 0 thread 0 generation
/// 1 rule 2 accept` has the number of the rule that decided and what it does. If no rule decided, the
/// end is `policy drop` or `policy accept`.
///
/// # Errors
///
/// `Memory` if memory runs out. A front of the text is then appended.
pub fn write_judged(chains: &Chains, lines: &Lines, out: &mut Vec<u8>) -> Result<(), Memory>
    requires { All (λ (l : PacketLine). IsOfRules chains.now l.verdict) lines.now }
    ensures ok { OnOk result (out.new.items ≡ out.old.items ++ judged_text chains.now lines.now) }
    ensures err { OnErr result (AppendsPart out.old.items out.new.items (judged_text chains.now lines.now)) }
{
    for line in lines.as_slice() {
        write_line(chains, line, out)?;
    }
    Ok(())
}

/// Chains decide nothing on a packet, or by the number of a rule that accepts or drops.
pub fn judged_rules_law(_chains: &Chains)
    ensures { (g : Generation) (p : Packet) → IsOfRules _chains.now (judged _chains.now g p) }
{}
