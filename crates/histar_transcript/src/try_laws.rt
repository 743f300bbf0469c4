//! What is true of each trial. A law is the contract of a function that does nothing.
ghost use Rattle.histar_transcript.specs.TryLaws.{AddedLinesAreBad};

/// Shows that a bad call is one of those that were tried.
pub fn added_lines_are_bad()
    ensures { AddedLinesAreBad }
{}
