//! The page with its generated content, from what wins at its nodes and at their pseudo-elements.
ghost use Rattle.std.specs.Prelude.{◌≡◌, length, IfOk};
ghost use Rattle.viz_base.specs.Answers.{GivesOneOf};
ghost use Rattle.css_semantics.specs.Winners.{AreWinners};
ghost use Rattle.page_pseudo.specs.Growth.{IsGrowth, growth_of, refusal_of};

use crate::fault::GrowFault;
use crate::limits::check_room;
use crate::seeds::Seeds;
use crate::splitting::split;
use crate::walking::walk;
use std::alloc::Global;
use viz_base::{Cascaded, List, Page};

/// A page with its generated content.
#[derive(Drop)]
pub struct Grown {
    /// The nodes that are written and the generated ones, in document order.
    pub page: Page,
    /// What wins at each of them.
    pub cascaded: Cascaded,
    /// The number of each on the page as it is written; none of a generated one.
    pub from: List<Option<u32>>,
}

/// The page with its generated content (CSS 2.1, 12.1), from what wins at each of its nodes, at their `:before` and at
/// their `:after`. An element for whose `:before` a text wins gets a first child with the tag `:before`, no attributes
/// and these winners, with one text node in it unless the text is empty, and for `:after` a last child likewise; a
/// replaced element and `br` get none. Hidden elements do too.
///
/// `Generated` for the first element, in document order of the page as it is written, at which the sum of the generated
/// characters passes 262,144, both texts of an element counting there; `Mem` for want of memory, as which a number of a
/// node counts from `2^32` on; no clause says when.
pub fn grow(
    alloc: Global,
    page: &Page,
    own: &Cascaded,
    before: &Cascaded,
    after: &Cascaded,
) -> Result<Grown, GrowFault>
    requires own { length own.now.winners ≡ length page.now.nodes }
    requires before { length before.now.winners ≡ length page.now.nodes }
    requires after { length after.now.winners ≡ length page.now.nodes }
    ensures given { GivesOneOf growth_of refusal_of result
        (IsGrowth (record {
          nodes = page.now.nodes;
          own = own.now.winners;
          before = before.now.winners;
          after = after.now.winners;
        })) }
    ensures lists { IfOk result (λ g. AreWinners page.now.nodes own.now.winners
        → AreWinners page.now.nodes before.now.winners → AreWinners page.now.nodes after.now.winners
        → AreWinners g.page.nodes g.cascaded.winners) }
{
    let seeds = Seeds {
        page,
        own,
        before,
        after,
    };
    check_room(seeds)?;
    let grown = walk(alloc, seeds)?;
    Ok(split(alloc, grown)?)
}
