//! The law of the texts of raw calls. It is the contract of a function that does nothing.
ghost use Rattle.histar_rawtext.specs.RawTextLaws.{TextsDetermineCalls};

/// Proves that two raw calls of threads with the same text are the same call of the same thread. The law is
/// about numbers of 64 bits: an object's number and a category are a `u64`, and each other number of a call
/// is smaller.
pub fn a_text_determines_its_call()
    ensures { TextsDetermineCalls }
{}
