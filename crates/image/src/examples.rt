// A worked example of both kinds of image, computed from their definitions.
ghost use Rattle.image.specs.Examples.{Examples};

#[tactic(auto, using(crate::proofs::Computed::examples))]
pub fn examples_are_shown()
    ensures { Examples }
{}
