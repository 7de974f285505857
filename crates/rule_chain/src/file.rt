//! The whole of a rules file.
ghost use Rattle.std.specs.Prelude.{◌≡◌, ◌≤◌, ℕ, List, Bool, IfOk, Err, length};
ghost use Rattle.token_forms.specs.Gives.{Gives, IsReadAs};
ghost use Rattle.token_forms.specs.BadTokens.{IsPlainBadTokenOf, HasOneBadTokenAmong};
ghost use Rattle.token_forms.specs.Fronts.{AreFrontsClosed, IsRefusedOnce};
ghost use Rattle.token_forms.specs.TextTokens.{plain_tokens};
ghost use Rattle.token_forms.specs.declared.token.Reason.{Reason};
ghost use Rattle.token_forms.specs.declared.error.ReadError.TheVariants.{Bad};
ghost use Rattle.set_script.specs.Limits.{most_sets};
ghost use Rattle.rule_chain.specs.Chains.{AreChains};
ghost use Rattle.rule_chain.specs.Rules.{rules_file};
ghost use Rattle.rule_chain.specs.RulesReading as reading;
ghost use Rattle.rule_chain.specs.RulesText.{IsRulesText, IsBadRules};
ghost use Rattle.rule_chain.specs.declared.chains.Chain.{Chain as OneChain};

use crate::blocks::statements;
use crate::chains::{ChainList, Chains};
use crate::draft::RulesDraft;
use set_model::{Duplicate, Memory, Schema, SetDecl};
use std::alloc::Global;
use token_forms::{BadToken, ReadError, Reader, plain_bad_token_before};

/// Why a text wasn't read as a rules file.
pub type RulesError = ReadError;

/// The chains and the policy, which a file must have.
#[tactic(auto, using(token_forms::proofs::Refusals::refusals), unfolding(crate::specs::RulesReading::finished))]
fn finished(reader: &mut Reader, d: RulesDraft) -> Result<(ChainList, bool), ReadError>
    ensures { Gives (λ x. (x.0, x.1)) result reader.new (reading.finished d.chains d.policy reader.old) }
{
    match d.policy {
        Some(accept) => Ok((d.chains, accept)),
        None => Err(reader.refuse()),
    }
}

/// Reads all before the end of the text.
#[tactic(auto, using(token_forms::proofs::Refusals::refusals), unfolding(crate::specs::RulesReading::body))]
fn body(
    reader: &mut Reader,
    alloc: Global,
    schema: &[SetDecl],
) -> Result<(ChainList, bool), ReadError>
    requires { length schema.now ≤ most_sets }
    ensures { Gives (λ x. (x.0, x.1)) result reader.new (reading.body schema.now reader.old) }
{
    let (d, _) = statements(reader, alloc, schema)?;
    finished(reader, d)
}

#[tactic(auto, using(token_forms::proofs::Refusals::refusals), unfolding(crate::specs::RulesReading::rules_file))]
fn whole(
    reader: &mut Reader,
    alloc: Global,
    schema: &[SetDecl],
) -> Result<(ChainList, bool), ReadError>
    requires { length schema.now ≤ most_sets }
    ensures { Gives (λ x. (x.0, x.1)) result reader.new (reading.rules_file schema.now reader.old) }
{
    let (chains, accept) = body(reader, alloc, schema)?;
    reader.the_end()?;
    Ok((chains, accept))
}

/// The chains and the policy that a text means.
fn chains_of(alloc: Global, schema: &[SetDecl], text: &[u8]) -> Result<(ChainList, bool), ReadError>
    requires { length schema.now ≤ most_sets }
    ensures found { IfOk result (λ x. IsRulesText schema.now text.now (x.0, x.1)) }
    ensures only { (rules : List OneChain × Bool) → IsRulesText schema.now text.now rules → IsReadAs (λ x. (x.0, x.1)) result rules }
    ensures bad { (line : ℕ) (reason : Reason) → result ≡ Err (Bad line reason) → IsBadRules schema.now text.now line reason }
    ensures sound { IfOk result (λ x. AreChains schema.now x.0) }
{
    let mut reader = Reader::plain(text);
    whole(&mut reader, alloc, schema)
}

/// The chains that a rules file means, over the sets of a schema.
///
/// # Errors
///
/// `Bad` exactly if the text isn't a rules file, with the line of its first token that doesn't fit and
/// the reason. The reason is `Character`, `End`, `Set` at the place of a set's name, or else
/// `Statement`. `Memory` if memory runs out.
pub fn read_rules(alloc: Global, schema: &Schema, text: &[u8]) -> Result<Chains, RulesError>
    // There are no more sets than a script may declare.
    requires { length schema.now ≤ most_sets }
    // What is read are the chains and the policy that the text means.
    ensures found { IfOk result (λ c. IsRulesText schema.now text.now (c.chains, c.accept)) }
    // A text that means chains is read as these, unless memory runs out. So it means at most one list
    // of chains.
    ensures only { (rules : List OneChain × Bool) → IsRulesText schema.now text.now rules → IsReadAs (λ c. (c.chains, c.accept)) result rules }
    // A refused text is no rules file. The line is its bad token's, and the reason is the first that
    // applies.
    ensures bad { (line : ℕ) (reason : Reason) → result ≡ Err (Bad line reason) → IsBadRules schema.now text.now line reason }
    // They are over the sets of this schema.
    ensures schema { IfOk result (λ c. c.schema ≡ schema.now) }
{
    match chains_of(alloc, schema.as_slice(), text) {
        Ok((chains, accept)) => Ok(Chains {
            schema: schema.copy(alloc)?,
            chains,
            accept,
        }),
        Err(e) => Err(e),
    }
}

/// The bad token of a text, for the sets of a schema, with its place and its reason. It is `None`
/// exactly if the text is in the grammar. `read_rules` reports the line and the reason of the same
/// token.
///
/// # Errors
///
/// `Memory` if memory runs out.
pub fn bad_token(alloc: Global, schema: &Schema, text: &[u8]) -> Result<Option<BadToken>, Memory>
    requires { length schema.now ≤ most_sets }
    ensures { IfOk result (IsPlainBadTokenOf (rules_file schema.now) text.now) }
{
    let mut reader = Reader::plain(text);
    match whole(&mut reader, alloc, schema.as_slice()) {
        Ok(_) => return Ok(None),
        Err(ReadError::Memory) => return Err(Memory),
        Err(ReadError::Bad { reason, .. }) => {
            return Ok(plain_bad_token_before(text, reader, reason));
        }
    }
}

/// A text means at most one list of chains and one policy.
pub fn one_rules_law(_schema: &Schema, _text: &[u8])
    ensures { (rules other : List OneChain × Bool) → IsRulesText _schema.now _text.now rules → IsRulesText _schema.now _text.now other → rules ≡ other }
{}

/// The tokens before any place of a rules file's front are a front of a rules file, too.
pub fn rules_fronts_law(_schema: &Schema)
    ensures { AreFrontsClosed (rules_file _schema.now) }
{}

/// A text that is no rules file is refused at one line, for one reason, and for one token.
pub fn one_rules_fault_law(_schema: &Schema, _text: &[u8])
    ensures refused { IsRefusedOnce (rules_file _schema.now) (plain_tokens _text.now) }
    ensures token { HasOneBadTokenAmong (rules_file _schema.now) (plain_tokens _text.now) _text.now }
{}
