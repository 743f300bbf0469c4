//! Names keep their numbers. The law is the contract of a function that does nothing.
ghost use Rattle.histar_sim.specs.NamesOfLines.{NamesStay};

/// Says that the names of objects and of categories keep their numbers along the lines of a script.
pub fn names_stay()
    ensures { NamesStay }
{}
