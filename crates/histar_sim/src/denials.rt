//! The kernel's reason is the rule's reason. The law is the contract of a function that does nothing.
ghost use Rattle.histar_sim.specs.NamedDenials.{EachDenialIsNamed};

/// Says that the raw call that the kernel denied of a line is on what the sentence of the refusal names.
pub fn denials_are_named()
    ensures { EachDenialIsNamed }
{}
