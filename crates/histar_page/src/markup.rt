//! The fixed texts of a page.
ghost use Rattle.std.specs.Prelude.{◌≡◌};
ghost use Rattle.histar_page.specs.Rendering.{markup_text};

/// How the page looks: in light and dark, on small screens, and on paper.
const STYLE: &[u8] = b"<style>
:root { color-scheme: light dark; --ink: #1b1f24; --dim: #59636e; --page: #fff; --panel: #f3f5f8; --line: #d5dae0;
  --good: #17652f; --bad: #a40e1f; --bad-panel: #fdeaec; --job: #e6e2f6; --s: #cfe3ff; --r: #cdefd6; --w: #ffe2b8; --d: #ffd1d6; --letter: #1b1f24;
  --reads: #2c8a4b; --writes: #c26a00; --both: #7a4fb5 }
@media (prefers-color-scheme: dark) { :root { --ink: #e6e9ed; --dim: #a0a9b4; --page: #14171b; --panel: #1e2329; --line: #39414b;
  --good: #7fd69a; --bad: #ff9aa2; --bad-panel: #3d1d22; --job: #372f5c; --s: #234a7a; --r: #22583a; --w: #6b4a12; --d: #74303a; --letter: #f4f6f8;
  --reads: #6fd08d; --writes: #f0a34a; --both: #b99cf0 } }
* { box-sizing: border-box }
body { margin: 0 auto; max-width: 76rem; padding: 1rem; background: var(--page); color: var(--ink); font: 16px/1.5 system-ui, sans-serif }
h1 { margin: 0 0 .3rem; font-size: 1.5rem; overflow-wrap: anywhere }
h2 { margin: 2rem 0 .6rem; font-size: 1.15rem }
a { color: inherit }
header p, nav, #refusals { display: flex; flex-wrap: wrap; gap: .2rem 1.2rem; margin: 0 0 .3rem; color: var(--dim) }
header b { color: var(--ink) }
#refusals { display: inline-flex; margin: 0 1.2rem .3rem 0 }
.by { display: inline-block; margin: 0 1.2rem .3rem 0; color: var(--dim) }
.by:target { color: var(--ink); font-weight: bold }
code, small, td b, td i { font-family: ui-monospace, monospace; font-size: .85rem }
code { white-space: pre-wrap; overflow-wrap: anywhere }
summary, .bare { display: grid; grid-template-columns: 1rem 2.6rem minmax(0, 3fr) minmax(0, 2fr); gap: 0 .6rem; align-items: baseline; padding: .2rem 0; border-top: 1px solid var(--line) }
summary { cursor: pointer; list-style: none }
summary::-webkit-details-marker { display: none }
summary::before { content: '+'; color: var(--dim); font-family: ui-monospace, monospace }
details[open] > summary::before { content: '-' }
.bare::before { content: '' }
details:target > summary, .bare:target { background: var(--panel) }
#refusals:target ~ .other, #refusals:target ~ details:not(:has(.refusal)), #refusals:target ~ .bare:not(:has(.refusal)) { display: none }
@media screen { .set:not(:target, .by:target ~ *) { display: none } }
.other > summary { display: block; color: var(--dim) }
.other > summary::before { margin-right: .6rem }
.number { color: var(--dim); text-align: right; font-variant-numeric: tabular-nums }
.reply { color: var(--good) }
.refusal { color: var(--ink); background: var(--panel); font-weight: bold; justify-self: start; padding: 0 .4rem; border-radius: .2rem }
.reason { grid-column: 3 / -1; color: var(--dim); font-size: .9rem }
h3 { margin: 1.4rem 0 .3rem; font-size: 1rem }
.prose, .mark, .met, .missed { margin: .2rem 0 .2rem 4.2rem; max-width: 46rem }
.mark, .met, .missed { color: var(--dim); font-size: .85rem }
.met::before { content: '\\2713  '; color: var(--good) }
.missed { color: var(--bad); background: var(--bad-panel); font-weight: bold }
.missed::before { content: '\\2717  ' }
.who span { display: inline-block; margin: 0 .8rem .2rem 0; color: var(--dim) }
.who b { color: var(--ink); font-weight: normal; font-family: ui-monospace, monospace; font-size: .9rem }
.behind { margin: 0 0 .5rem 4.8rem; padding: .4rem .6rem; background: var(--panel); border-radius: .3rem }
.behind code { display: block; color: inherit; padding-left: 1.2rem; text-indent: -1.2rem }
.behind .denied, .behind .why { color: var(--bad) }
.denied { font-weight: bold }
.wide { overflow-x: auto }
table { border-collapse: collapse }
th, td { padding: .2rem .6rem .2rem 0; border-top: 1px solid var(--line); text-align: left; vertical-align: top; white-space: nowrap }
thead th { border: 0; color: var(--dim); font-weight: normal; font-size: .85rem }
tbody th { min-width: 12rem; font: .85rem/1.7 ui-monospace, monospace; white-space: normal; overflow-wrap: anywhere }
.stat, small { color: var(--dim) }
.users th, .users + tr th:nth-child(n + 5), .rights { padding: .2rem .3rem }
thead .users td { border: 0 }
thead .users th { color: var(--ink) }
th.job, td.job { background: var(--job) }
.rights small { display: none }
.rights b, .rights i { display: inline-block; width: 1.25rem; margin-right: 1px; text-align: center; font-style: normal; font-weight: normal; color: var(--letter); background: var(--panel) }
.rights i { color: var(--dim) }
.rights small + b { background: var(--s) }
.rights small + * + b { background: var(--r) }
.rights small + * + * + b { background: var(--w) }
.rights small + * + * + * + b { background: var(--d) }
.secret { display: grid; grid-template-columns: repeat(3, minmax(0, 1fr)); grid-auto-flow: dense; gap: .2rem .6rem; place-items: start }
.secret { max-width: 46rem; margin: .6rem 0 0; padding: .3rem 0; border-top: 1px solid var(--line) }
.secret code { grid-column: 1 / -1 }
.secret span { padding: 0 .4rem; border-radius: .2rem; font-size: .85rem; color: var(--letter); overflow-wrap: anywhere }
.secret b { font-family: ui-monospace, monospace; font-weight: normal }
.trusted { grid-column: 1; background: var(--w) }
.confined { grid-column: 2; background: var(--r) }
.outside, .login { grid-column: 3 }
.outside { background: var(--panel) }
.login { background: var(--s) }
.sentence { margin: 0; max-width: 46rem; font-size: .9rem }
.sentence > span:first-child { display: block; color: var(--dim) }
.sentence code { color: var(--ink) }
.use { display: inline-block; margin-right: .8rem }
.titled, .leak { margin: 0 }
.titled { padding-top: .3rem; border-top: 1px solid var(--line) }
.leak { padding-left: 1.2rem; color: var(--dim) }
svg { display: block; width: 58.5rem; font: 13px ui-monospace, monospace }
.node rect { fill: var(--panel); stroke: var(--line) }
.node text { fill: var(--ink) }
rect.job { fill: var(--job); opacity: .7 }
line { stroke-width: 1.4; opacity: .75 }
line.reads { stroke: var(--reads) }
line.writes { stroke: var(--writes) }
line.both { stroke: var(--both) }
path.reads { fill: var(--reads) }
path.writes { fill: var(--writes) }
path.both { fill: var(--both) }
@media (max-width: 40rem) {
  summary, .bare { grid-template-columns: 1rem 2rem minmax(0, 1fr) }
  summary .reply, summary .refusal, .bare .reply, .bare .refusal { grid-column: 3 }
  .behind { margin-left: 1rem }
  .prose, .mark, .met, .missed { margin-left: 0 }
  .reason { grid-column: 3 }
  thead { display: none }
  table, tbody, tr, tbody th { display: block }
  tr { padding: .3rem 0; border-top: 1px solid var(--line) }
  th, td { border: 0; padding: 0 .6rem 0 0 }
  td { display: inline-block; white-space: nowrap }
  .rights { padding: .1rem .5rem .1rem .3rem }
  .rights small { display: inline; margin-right: .3rem }
}
@media print {
  :root { --page: #fff; --ink: #000; --dim: #444; --good: #17652f; --bad: #a40e1f; --letter: #000 }
  body { max-width: none; padding: 0; font-size: 10pt }
  nav, #refusals, .by { display: none }
  tr, summary, .bare { break-inside: avoid }
  .rights b, .job, .refusal, .behind { print-color-adjust: exact; -webkit-print-color-adjust: exact }
}
";

/// A fixed text of a page.
#[derive(Clone, Copy)]
pub enum Markup {
    Begin,
    Style,
    EndStyle,
    EndHead,
    BeginWho,
    EndWho,
    BeginSession,
    BeginBoot,
    BeginOther,
    BeginSummary,
    BeginBehind,
    EndCall,
    EndBare,
    EndSession,
    BeginFiles,
    EndUsers,
    EndColumns,
    BeginRow,
    EndCell,
    EndRow,
    EndFiles,
    FilesLeftOut,
    BeginSecrets,
    SecretsLeftOut,
    NoSecrets,
    OnSecrets,
    BeginSecret,
    BeginLaw,
    UnlessCalled,
    UnlessLogin,
    EndSecret,
    OnTitles,
    NoTitles,
    EndSecrets,
    BeginFlows,
    OnFlows,
    EndFlows,
    BeginLabels,
    NotDrawn,
    BeginDrawing,
    Arrows,
    EndDrawing,
    End,
}

impl Markup {
    /// Returns the text.
    pub(crate) fn text(self) -> &'static [u8]
        ensures { result.now ≡ markup_text self }
    {
        match self {
            Markup::Begin => b"<!DOCTYPE html>
<html lang=\"en\">
<head>
<meta charset=\"utf-8\">
<meta name=\"viewport\" content=\"width=device-width, initial-scale=1\">
",
            Markup::Style => STYLE,
            Markup::EndStyle => b"</style>
</head>
<body>
<header>
",
            Markup::EndHead => b"</p>
<nav><a href=\"#who\">Who</a> <a href=\"#session\">Session</a> <a href=\"#files\">Files</a> <a href=\"#secrets\">Secrets</a> <a href=\"#flows\">Flows</a> <a href=\"#drawing\">Drawing</a></nav>
</header>
<main>
",
            Markup::BeginWho => b"<section id=\"who\">\n<h2>Who</h2>\n<p class=\"who\">\n",
            Markup::EndWho => b"</p>\n</section>\n",
            Markup::BeginSession => b"<section id=\"session\">
<h2>Session</h2>
<p id=\"refusals\"><a href=\"#session\">All</a> <a href=\"#refusals\">Refusals</a></p>
",
            Markup::BeginBoot => b"<details class=\"other\">\n<summary>Boot, line ",
            Markup::BeginOther => b"<details class=\"other\">\n<summary>Raw calls of line ",
            Markup::BeginSummary => b"\n<summary>",
            Markup::BeginBehind => b"</summary>\n<div class=\"behind\">\n",
            Markup::EndCall => b"</div>\n</details>\n",
            Markup::EndBare => b"</div>\n",
            Markup::EndSession | Markup::EndSecrets | Markup::EndFlows => b"</section>\n",
            Markup::BeginFiles => b"<section id=\"files\">
<h2>Files</h2>
<p>Who may do what at the end: s to see it, r to read it, w to write it, d to take it away. Above each process is its user; the tinted columns are of processes in jobs.</p>
<div class=\"wide\">
<table>
<thead>
<tr class=\"users\"><td colspan=\"4\"></td>",
            Markup::EndUsers => b"</tr>
<tr><th scope=\"col\">Path</th><th scope=\"col\">Kind</th><th scope=\"col\">Owner</th><th scope=\"col\">Mode</th>",
            Markup::EndColumns => b"</tr>\n</thead>\n<tbody>\n",
            Markup::BeginRow => b"<tr>",
            Markup::EndCell => b"</td>",
            Markup::EndRow => b"</tr>\n",
            Markup::EndFiles => b"</tbody>\n</table>\n</div>\n</section>\n",
            Markup::FilesLeftOut => b"<section id=\"files\">
<h2>Files</h2>
<p>Their table has more than 1,000,000 bytes and is left out. <code>histar access</code> prints it.</p>
</section>
",
            Markup::SecretsLeftOut => b"<section id=\"secrets\">
<h2>Secrets</h2>
<p>Their lines have more than 1,000,000 bytes and are left out. <code>histar trust</code> prints the one of a file.</p>
</section>
",
            Markup::BeginSecrets => b"<section id=\"secrets\">\n<h2>Secrets</h2>\n",
            Markup::NoSecrets => b"<p>Each file is for everyone to read at the end.</p>\n",
            Markup::OnSecrets =>
                b"<p>On whom each file rests at the end that isn't for everyone to read: the trusted could pass it on, the confined can't, and who logs in as one of these users may read it.</p>\n",
            Markup::BeginSecret => b"<p class=\"secret\">\n",
            Markup::BeginLaw => b"</p>
<p class=\"sentence\"><span>After the session nobody outside learns what is in ",
            Markup::UnlessCalled =>
                b"unless a trusted process makes a call, or they log in as a reader (<code>outsiders_learn_nothing</code>).</span>\n",
            Markup::UnlessLogin =>
                b"unless they log in as a reader (<code>outsiders_learn_nothing</code>).</span>\n",
            Markup::EndSecret => b"</p>\n",
            Markup::OnTitles =>
                b"<h3>How each is revealed or changed</h3>\n<p>Below each file: which processes reveal it and to whom, which users read it after a login, and who changes it. These are the titles of what <code>histar leak</code> prints of the file, with the calls.</p>\n",
            Markup::NoTitles =>
                b"<h3>How each is revealed or changed</h3>\n<p>This is left out, since there are too many files and processes. <code>histar leak</code> prints it of one file.</p>\n",
            Markup::BeginFlows => b"<section id=\"flows\">\n<h2>Flows</h2>\n",
            Markup::OnFlows =>
                b"<p>To whom each process can pass on what it learns, at the end: a process in a job to those alone that know each of its jobs. An exclamation mark is behind one that holds such a job, and may pass on what the job made.</p>\n",
            Markup::BeginLabels => b"<section id=\"drawing\">\n<h2>Drawing</h2>\n",
            Markup::NotDrawn =>
                b"<p>It has more than 12 processes or 30 files and directories at the end, and is not drawn.</p>\n</section>\n",
            Markup::BeginDrawing =>
                b"<p>Processes are on the left, files and directories on the right. A line with a head at the process says that it may read the file, one with a head at the file that it may write there: so what one writes another may read. The bands are jobs, and what they may change.</p>\n<div class=\"wide\">\n",
            Markup::Arrows =>
                b"<defs>\n<marker id=\"read\" viewBox=\"0 0 8 8\" refX=\"7\" refY=\"4\" markerWidth=\"8\" markerHeight=\"8\" orient=\"auto-start-reverse\"><path class=\"reads\" d=\"M0 0 8 4 0 8z\"></path></marker>\n<marker id=\"written\" viewBox=\"0 0 8 8\" refX=\"7\" refY=\"4\" markerWidth=\"8\" markerHeight=\"8\" orient=\"auto-start-reverse\"><path class=\"writes\" d=\"M0 0 8 4 0 8z\"></path></marker>\n<marker id=\"both\" viewBox=\"0 0 8 8\" refX=\"7\" refY=\"4\" markerWidth=\"8\" markerHeight=\"8\" orient=\"auto-start-reverse\"><path class=\"both\" d=\"M0 0 8 4 0 8z\"></path></marker>\n</defs>\n",
            Markup::EndDrawing => b"</svg>\n</div>\n</section>\n",
            Markup::End => b"</main>
</body>
</html>
",
        }
    }
}
