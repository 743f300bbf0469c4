//! The laws of outputs and of pages. Each law is the contract of a function that does nothing.
ghost use Rattle.histar_report.specs.Laws.{CallsHaveTheirOwn, OutputsFollowReplies};

/// Proves that in whatever a run writes the raw calls are those of boot and then those of one reply after
/// another, and so are the explanations.
pub fn outputs_follow_replies()
    ensures { OutputsFollowReplies }
{}

/// Proves that on a page each raw call and each explanation is under the call that it belongs to.
pub fn calls_have_their_own()
    ensures { CallsHaveTheirOwn }
{}
