//! The types of the keys that a plan takes.
ghost use Rattle.std.specs.Prelude.{◌≡◌, IfOk};
ghost use Rattle.rule_chain.specs.Unmet.{key_types};
ghost use Rattle.unmet_tests.specs.UnmetText.{plan_sets};

use pcap_keys::PlanLine;
use rule_chain::add_type;
use set_model::{Memory, SetDecl};
use std::alloc::Global;

/// The types of the keys that the lines of a plan take, each by the first set that has it.
///
/// # Errors
///
/// `Memory` if memory runs out.
#[tactic(auto, using(crate::proofs::PlanLaws::one_line_more))]
pub fn plan_types(alloc: Global, schema: &[SetDecl], plan: &[PlanLine]) -> Result<Vec<u32>, Memory>
    ensures { IfOk result (λ types. types.items ≡ key_types schema.now (plan_sets plan.now)) }
{
    let mut types = Vec::new(alloc);
    for line in plan {
        match add_type(schema, &mut types, line.set) {
            Ok(()) => {}
            Err(_) => return Err(Memory),
        }
    }
    Ok(types)
}
