//! The box tree of a job's page.
ghost use Rattle.std.specs.Prelude.{◌≡◌, ◌≢◌, ◌<◌, length};
ghost use Rattle.std.specs.Prelude.{IfOk, MatchResult, Ok, Err};
ghost use Rattle.css_semantics.specs.ComputedValues.{AreComputed};
ghost use Rattle.css_semantics.specs.Winners.{AreWinners};
ghost use Rattle.layout_laws.specs.Styled.{AreStylesOf};
ghost use Rattle.layout_semantics.specs.Refusals.{BoxRefusal};
ghost use Rattle.page_boxes.specs.Trees.{lists_of, page_tree};
ghost use Rattle.page_pseudo.specs.Growth.{growth_of};
ghost use Rattle.page_build.specs.Jobs.{HasTree};
ghost use Rattle.page_build.specs.Refusals.{of_boxes};

use crate::faults::JobRefusal;
use page_boxes::build_boxes;
use page_pseudo::Grown;
use page_style::compute;
use std::alloc::Global;
use viz_base::{BoxTree, Font, List, Page, Style};

/// The styles of the nodes of a page with its generated content.
fn styles_of(alloc: Global, grown: &Grown, fonts: &List<Font>) -> Result<List<Style>, JobRefusal>
    requires fonts { 0 < length fonts.now }
    requires lists { AreWinners grown.now.page.nodes grown.now.cascaded.winners }
    ensures given { MatchResult result
        (AreComputed grown.now.page.nodes grown.now.cascaded.winners fonts.now)
        (λ refusal. refusal ≡ JobRefusal.Mem) }
    ensures fitting { IfOk result (λ styles. AreStylesOf grown.now.page.nodes styles fonts.now) }
{
    Ok(compute(alloc, &grown.page, &grown.cascaded, fonts)?)
}

/// The boxes of a page with these styles.
fn boxes_of(
    alloc: Global,
    page: &Page,
    styles: &List<Style>,
    fonts: &List<Font>,
) -> Result<BoxTree, JobRefusal>
    requires { AreStylesOf page.now.nodes styles.now fonts.now }
    ensures { MatchResult result (λ tree. page_tree page.now.nodes styles.now fonts.now
        ≡ Ok (lists_of tree)) (λ refusal. refusal ≢ JobRefusal.Mem
        → (why : BoxRefusal) × (page_tree page.now.nodes styles.now fonts.now ≡ Err why)
        × (refusal ≡ of_boxes why)) }
{
    Ok(build_boxes(alloc, page, styles, fonts)?)
}

/// The box tree of a page with its generated content.
pub(crate) fn tree_of(
    alloc: Global,
    grown: &Grown,
    fonts: &List<Font>,
) -> Result<BoxTree, JobRefusal>
    requires fonts { 0 < length fonts.now }
    requires lists { AreWinners grown.now.page.nodes grown.now.cascaded.winners }
    ensures { MatchResult result (λ tree. HasTree (growth_of grown.now) fonts.now
        (Ok (lists_of tree))) (λ refusal. refusal ≢ JobRefusal.Mem
        → (why : BoxRefusal) × HasTree (growth_of grown.now) fonts.now (Err why)
        × (refusal ≡ of_boxes why)) }
{
    let styles = styles_of(alloc, grown, fonts)?;
    boxes_of(alloc, &grown.page, &styles, fonts)
}
