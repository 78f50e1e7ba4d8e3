//! Instances that short texts spell, and what the checker says of their proofs.
use hrt_base::NoMemory;
use hrt_reader::{ReadRefusal, read_instance};
use opb_text::formula_of;
use proof_checker::Checker;
use proof_lines::Claim;
use rank_tables::Instance;
use stability_model::Model;
use std::alloc::Global;
use std::test::Fail;

/// The instance that a text spells. A text that isn't short is refused.
pub fn instance_in(alloc: Global, text: &[u8]) -> Result<Instance, ReadRefusal> {
    if text.len() > 1000 {
        return Err(ReadRefusal::NoMemory);
    }
    read_instance(alloc, text)
}

/// The claim of a proof of an instance's model, which the checker accepts.
pub fn claim_of(alloc: Global, inst: &Instance, proof: &[u8]) -> Result<Claim, Fail> {
    if proof.len() > 10_000 {
        return Err(Fail::from(NoMemory));
    }
    let formula = formula_of(alloc, &Model::of(alloc, inst)?)?;
    let mut checker = Checker::new(alloc, formula)?;
    checker.feed(alloc, proof)?;
    Ok(checker.finish(alloc)?)
}
