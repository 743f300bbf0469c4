//! What is true of each transcript with notes. A law is the contract of a function that does nothing.
ghost use Rattle.histar_transcript.specs.NotesLaws.{NotesAreAdded};

/// Shows that notes are added to a transcript, which is else the same.
pub fn notes_are_added()
    ensures { NotesAreAdded }
{}
