// The joint check. The function here does nothing: its contract is a fact about definitions, so that the check asks for its proof.
ghost use Rattle.samples.specs.Samples.{Samples};

// The worked examples hold, all of them together.
#[tactic(auto, using(crate::proofs::Samples::samples))]
pub fn samples_hold()
    ensures { Samples }
{}
