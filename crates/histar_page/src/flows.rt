//! The flows on a page: to whom each process can pass on what it learns.
ghost use Rattle.std.specs.Prelude.{◌≡◌, ◌++◌, ◌∷◌, [], map, IfOk, OnOk};
ghost use Rattle.histar_script.specs.Lines.{lines_of};
ghost use Rattle.histar_page.specs.Texts.{texts};
ghost use Rattle.histar_page.specs.Items.{items_of};
ghost use Rattle.histar_page.specs.Items.Item.{Fixed};
ghost use Rattle.histar_page.specs.declared.markup.Markup.TheVariants.{EndFlows};
ghost use Rattle.histar_page.specs.Flows.{flow_item, flows_items};

use crate::kind::Kind;
use crate::lines::lines_in;
use crate::markup::Markup;
use crate::piece::{Piece, begun, fix, show};
use std::alloc::{AllocError, Global};

/// Returns the pieces of the part of a page that shows flows: each line of them.
pub(crate) fn flows_pieces<'a>(alloc: Global, flows: &'a [u8]) -> Result<Vec<Piece<'a>>, AllocError>
    ensures { IfOk result (λ pieces. items_of pieces.items ≡ flows_items (lines_of flows.entry.now)) }
{
    let lines = lines_in(alloc, flows)?;
    let mut pieces = begun(alloc, Markup::BeginFlows, Markup::OnFlows)?;
    push_flows(&mut pieces, lines.as_slice())?;
    Ok(pieces)
}

/// Adds the lines of the flows, and their end.
fn push_flows<'a>(pieces: &mut Vec<Piece<'a>>, lines: &[&'a [u8]]) -> Result<(), AllocError>
    ensures { OnOk result (items_of pieces.new.items
        ≡ items_of pieces.old.items ++ map flow_item (texts lines.now) ++ Fixed EndFlows ∷ []) }
{
    let mut rest = lines;
    'lines: while let [line, more @ ..] = rest {
        show(pieces, Kind::Flow, line)?;
        rest = more;
    }
    fix(pieces, Markup::EndFlows)
}
