//! Kinds of texts on a page.
ghost use Rattle.std.specs.Prelude.{◌≡◌};
ghost use Rattle.histar_page.specs.Rendering.{closing, opening};

/// The kind of a text on a page, which determines its markup.
#[derive(Clone, Copy)]
pub enum Kind {
    Title,
    /// The title, at the head of the page.
    MainTitle,
    /// The process of a rule of style, at whose address the rule is followed.
    RuleAddress,
    /// The process of a rule of style, whose calls the rule leaves.
    RuleCaller,
    FileName,
    Calls,
    Refusals,
    Denials,
    Version,
    /// The process of a link, as the name of the place that the link is.
    LinkTarget,
    /// The process of a link, as the place to which the link leads.
    LinkAddress,
    /// The process of a link, as it is seen.
    LinkName,
    /// The process of a call that can be opened.
    CallBy,
    /// The process of a call with nothing behind it.
    BareBy,
    /// How many calls are folded at the beginning of a session.
    SetUpCalls,
    /// The process of a folded call that can be opened.
    SetUpBy,
    /// The process of a folded call with nothing behind it.
    BareSetUpBy,
    /// The number of a line, as the name of its place.
    LineId,
    LineNumber,
    /// The number of a line without a reply, such as that of boot.
    OtherLine,
    Call,
    /// The process of a call of `login`.
    LoginBy,
    /// The user of a call of `login`, whose password is hidden.
    LoginAs,
    Reply,
    Refusal,
    /// Why a call was refused, by the rules.
    Reason,
    /// A comment of the script.
    Prose,
    /// A comment that is a heading.
    Heading,
    /// A comment that is neither: a claim on rights, for example.
    Mark,
    /// An expected reply that was given.
    ClaimMet,
    /// An expected reply that was not given.
    ClaimMissed,
    RawCall,
    DeniedCall,
    /// A raw call of boot, up to its bytes, which are hidden.
    HiddenBytes,
    Explanation,
    /// A user of the script.
    UserName,
    /// A group of the script.
    GroupName,
    /// A member of the group before it.
    MemberName,
    /// The user of the process of a column, above it.
    ColumnUser,
    /// A process at the head of a column.
    Column,
    /// A process in a job at the head of a column.
    JobColumn,
    Path,
    Stat,
    /// A process at a cell.
    Process,
    /// A process in a job at a cell.
    JobProcess,
    Granted,
    Withheld,
    /// A file that not everyone may read.
    Secret,
    /// A process that is trusted with a file.
    Trusted,
    /// A process that is confined.
    Confined,
    /// A process that is neither.
    Outsider,
    /// The process of a call that read at the path of a secret.
    ReadBy,
    /// The process of a call that wrote there.
    WrittenBy,
    /// The number of the line of such a call, as the place to which a link leads.
    UseAddress,
    /// The number of the line of such a call, as it is seen.
    UseLine,
    /// A user as whom a process that logs in may read a file.
    LoginReader,
    /// The path of a file that the titles after it are on.
    LeakPath,
    /// The title of a way to reveal or to change a file.
    LeakTitle,
    /// To whom a process can pass on what it learns.
    Flow,
    /// The height of a drawing.
    DrawnHeight,
    /// How far down a process of a job is.
    ProcessBand,
    /// How far down a file is that a job may change.
    FileBand,
    /// How far down a process is that may read.
    ReadEdge,
    /// How far down a process is that may write.
    WriteEdge,
    /// How far down a process is that may read and write.
    BothEdge,
    /// How far down the file of an edge is.
    EdgeEnd,
    /// The process of an edge.
    EdgeProcess,
    /// The file of an edge.
    EdgeFile,
    /// How far down a process is.
    ProcessNode,
    /// How far down a file is.
    FileNode,
    /// The process or the file of a node.
    NodeName,
}

impl Kind {
    /// Returns the markup before a text of this kind.
    pub(crate) fn opening(self) -> &'static [u8]
        ensures { result.now ≡ opening self }
    {
        match self {
            Kind::Title => b"<title>",
            Kind::RuleAddress => b"[id=\"by-",
            Kind::MainTitle => b"<h1>",
            Kind::FileName => b"<p>\n<span>file: <b>",
            Kind::Calls => b"<span>calls: <b>",
            Kind::Refusals => b"<span>refusals: <b>",
            Kind::Denials => b"<span>denied raw calls: <b>",
            Kind::Version => b"<span>histar <b>",
            Kind::LinkTarget => b"<a class=\"by\" id=\"by-",
            Kind::CallBy => b"<details data-by=\"",
            Kind::BareBy => b"<div class=\"bare\" data-by=\"",
            Kind::SetUpCalls => b"<a class=\"by\" id=\"set-up\" href=\"#set-up\">",
            Kind::SetUpBy => b"<details class=\"set\" data-by=\"",
            Kind::BareSetUpBy => b"<div class=\"bare set\" data-by=\"",
            Kind::LineNumber => b"<span class=\"number\">",
            Kind::OtherLine | Kind::Granted => b"<b>",
            Kind::Call | Kind::LoginBy => b"<code class=\"call\">",
            Kind::LoginAs => b" login ",
            Kind::Reply => b"<code class=\"reply\">",
            Kind::Refusal => b"<code class=\"refusal\">",
            Kind::Reason => b"<span class=\"reason\">",
            Kind::Prose => b"<p class=\"prose\">",
            Kind::Heading => b"<h3>",
            Kind::Mark => b"<p class=\"mark\"><code>",
            Kind::ClaimMet => b"<p class=\"met\">expected <code>",
            Kind::ClaimMissed => b"<p class=\"missed\">expected <code>",
            Kind::RawCall | Kind::HiddenBytes => b"<code class=\"raw\">",
            Kind::DeniedCall => b"<code class=\"raw denied\">",
            Kind::Explanation => b"<code class=\"why\">",
            Kind::UserName => b"<span class=\"user\">user <b>",
            Kind::GroupName => b"<span class=\"group\">group <b>",
            Kind::MemberName => b"<span class=\"member\">with <b>",
            Kind::ColumnUser | Kind::Column => b"<th scope=\"col\">",
            Kind::JobColumn => b"<th scope=\"col\" class=\"job\">",
            Kind::Path => b"<th scope=\"row\">",
            Kind::Stat => b"<td class=\"stat\">",
            Kind::Process => b"<td class=\"rights\"><small>",
            Kind::JobProcess => b"<td class=\"rights job\"><small>",
            Kind::Withheld => b"<i>",
            Kind::Secret => b"<code>",
            Kind::Trusted => b"<span class=\"trusted\">trusted <b>",
            Kind::Confined => b"<span class=\"confined\">confined <b>",
            Kind::Outsider => b"<span class=\"outside\">outside <b>",
            Kind::ReadBy | Kind::WrittenBy => b"<span class=\"use\">",
            Kind::UseAddress => b"<a href=\"#line-",
            Kind::LoginReader => b"<span class=\"login\">login <b>",
            Kind::LeakPath => b"<p class=\"titled\"><code>",
            Kind::LeakTitle => b"<p class=\"leak\"><code>",
            Kind::Flow => b"<p class=\"flow\"><code>",
            Kind::DrawnHeight => b"<svg viewBox=\"0 0 936 ",
            Kind::ProcessBand =>
                b"<rect class=\"job\" width=\"216\" height=\"44\" y=\"-9\" transform=\"translate(0 ",
            Kind::FileBand =>
                b"<rect class=\"job\" width=\"416\" height=\"32\" y=\"-3\" transform=\"translate(512 ",
            Kind::ReadEdge =>
                b"<line class=\"reads\" marker-start=\"url(#read)\" x1=\"210\" x2=\"518\" y1=\"",
            Kind::WriteEdge =>
                b"<line class=\"writes\" marker-end=\"url(#written)\" x1=\"210\" x2=\"518\" y1=\"",
            Kind::BothEdge =>
                b"<line class=\"both\" marker-start=\"url(#both)\" marker-end=\"url(#both)\" x1=\"210\" x2=\"518\" y1=\"",
            Kind::EdgeEnd
            | Kind::EdgeProcess
            | Kind::EdgeFile
            | Kind::RuleCaller
            | Kind::LinkAddress
            | Kind::LinkName
            | Kind::LineId
            | Kind::UseLine => b"",
            Kind::ProcessNode => b"<g class=\"node\" transform=\"translate(8 ",
            Kind::FileNode => b"<g class=\"node\" transform=\"translate(520 ",
            Kind::NodeName => b"<text x=\"8\" y=\"18\">",
        }
    }

    /// Returns the markup after a text of this kind.
    pub(crate) fn closing(self) -> &'static [u8]
        ensures { result.now ≡ closing self }
    {
        match self {
            Kind::Title => b"</title>\n",
            Kind::RuleAddress => b"\"]:target ~ :is(details, .bare):not([data-by=\"",
            Kind::RuleCaller => b"\"]) { display: none }\n",
            Kind::MainTitle => b"</h1>\n",
            Kind::FileName
            | Kind::Calls
            | Kind::Refusals
            | Kind::Denials
            | Kind::Version
            | Kind::Trusted
            | Kind::Confined
            | Kind::Outsider
            | Kind::LoginReader
            | Kind::UserName
            | Kind::GroupName
            | Kind::MemberName => b"</b></span>\n",
            Kind::LinkTarget => b"\" href=\"#by-",
            Kind::LinkAddress => b"\">by ",
            Kind::LinkName => b"</a>\n",
            Kind::SetUpCalls => b" set-up calls</a>\n",
            Kind::CallBy | Kind::BareBy | Kind::SetUpBy | Kind::BareSetUpBy => b"\" id=\"line-",
            Kind::LineId | Kind::UseAddress => b"\">",
            Kind::ReadBy => b" read here at line ",
            Kind::WrittenBy => b" wrote here at line ",
            Kind::UseLine => b"</a></span>\n",
            Kind::LineNumber | Kind::Reason => b"</span>\n",
            Kind::LoginBy => b"",
            Kind::LoginAs => b" &bull;&bull;&bull;&bull;</code>\n",
            Kind::Prose => b"</p>\n",
            Kind::Heading => b"</h3>\n",
            Kind::Mark | Kind::ClaimMet | Kind::ClaimMissed | Kind::Flow => b"</code></p>\n",
            Kind::LeakPath | Kind::LeakTitle => b"</code></p>\n",
            Kind::HiddenBytes => b"x&bull;&bull;&bull;&bull; = ok</code>\n",
            Kind::OtherLine | Kind::Granted => b"</b>",
            Kind::Call
            | Kind::Reply
            | Kind::Refusal
            | Kind::RawCall
            | Kind::DeniedCall
            | Kind::Explanation
            | Kind::Secret => b"</code>\n",
            Kind::ColumnUser | Kind::Column | Kind::JobColumn | Kind::Path => b"</th>",
            Kind::Stat => b"</td>",
            Kind::Process | Kind::JobProcess => b"</small>",
            Kind::Withheld => b"</i>",
            Kind::DrawnHeight => b"\" role=\"img\" aria-label=\"Processes and files\">\n",
            Kind::ProcessBand | Kind::FileBand => b")\"></rect>\n",
            Kind::ReadEdge | Kind::WriteEdge | Kind::BothEdge => b"\" y2=\"",
            Kind::EdgeEnd => b"\"><title>",
            Kind::EdgeProcess => b" and ",
            Kind::EdgeFile => b"</title></line>\n",
            Kind::ProcessNode => b")\"><rect width=\"200\" height=\"26\" rx=\"4\"></rect>",
            Kind::FileNode => b")\"><rect width=\"400\" height=\"26\" rx=\"4\"></rect>",
            Kind::NodeName => b"</text></g>\n",
        }
    }
}
