//! The replies to which the kernel's refusals lead. The law is the contract of a function that does nothing.
ghost use Rattle.histar_programs.specs.Laws.{RefusalsHaveReplies};

/// States that if a program replies to its refusals and was run to its reply, the reply is EACCES exactly if
/// the kernel refused a raw call by comparing labels, and EPERM exactly where it refused one because a label
/// was outside its range. At most one raw call was refused, and after it the thread was only given
/// labels.
pub fn refusals_have_replies()
    ensures { RefusalsHaveReplies }
{}
