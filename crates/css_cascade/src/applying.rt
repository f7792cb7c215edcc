//! What applies to an element, of rulesets and of its style attribute, and which of it wins.
ghost use Rattle.std.specs.Prelude.{◌≡◌, map, length, IfOk, List as Seq, codes};
ghost use Rattle.std.specs.Prelude.{option_map};
ghost use Rattle.std.specs.List.{AllByRecursion};
ghost use Rattle.viz_base.specs.declared.sheets.Decl.{Decl};
ghost use Rattle.css_semantics.specs.declared.claims.Origin.TheVariants as of_origin;
ghost use Rattle.css_semantics.specs.Names.{same_name};
ghost use Rattle.css_semantics.specs.SheetsGrammar.{AreDeclarationsOf};
ghost use Rattle.css_semantics.specs.CascadeReading.{AreClaimed, IsStyled, style_of};
ghost use Rattle.css_semantics.specs.Matching.{IsElementAt};
ghost use Rattle.css_select.specs.steps.Trees.{AreSiblings};
ghost use Rattle.css_cascade.specs.steps.Seen.{seen};
ghost use Rattle.css_cascade.specs.steps.Trimming.{AreKept, IsTrimmed, rules_of};
ghost use Rattle.css_cascade.specs.steps.Trying.{AreBuckets};

use crate::buckets::Buckets;
use crate::order::{Applied, keep_claims, no_winners};
use crate::reading::claims_in;
use crate::trimming::Trimmed;
use crate::trying::{numbers_for, try_all};
use css_select::Siblings;
use css_semantics::{Claim, Origin};
use css_syntax::read_declarations;
use css_token::same_name;
use std::alloc::Global;
use viz_base::{Attr, Element, List, Mem, Page, Spec};

/// The specificity of what a style attribute says (CSS 2.1, 6.4.3).
const STYLE: Spec = Spec {
    style: 1,
    ids: 0,
    attrs: 0,
    types: 0,
};

/// The winners, by the place of their property in the table, of what rulesets and the style attribute say that applies
/// to an element.
pub fn applied<'a: 'b, 'b>(
    alloc: Global,
    rulesets: &[Trimmed<'a>],
    buckets: &Buckets<'_>,
    page: &Page,
    siblings: &Siblings,
    node: u32,
    element: &Element,
    style: &'b [Claim],
) -> Result<Vec<Option<Applied<'b>>>, Mem>
    requires element { IsElementAt page.now.nodes node element.now }
    requires siblings { AreSiblings page.now.nodes siblings.now }
    requires trimmed { AllByRecursion IsTrimmed rulesets.now }
    requires buckets { AreBuckets page.now.nodes (map rules_of rulesets.now) buckets.now }
    ensures len { IfOk result (λ best. length best.items ≡ 40) }
    ensures kept { IfOk result (λ best. AreKept page.now.nodes node rulesets.now style.now
        (map (option_map seen) best.items)) }
{
    let mut best = no_winners(alloc)?;
    let numbers = numbers_for(alloc, buckets, element)?;
    let candidates = buckets.candidates.as_slice();
    try_all(
        &mut best, rulesets, page, siblings, node, candidates, &numbers,
    );
    // The style attribute comes behind all sheets; its specificity is above that of any selector (6.4.3).
    keep_claims(&mut best, STYLE, style);
    Ok(best)
}

fn is_style(attr: &Attr) -> bool
    ensures { result ≡ same_name attr.now.name (codes "style") }
{
    same_name(attr.name.as_str(), "style")
}

/// The value of the first attribute `style`.
pub fn style_of(attrs: &[Attr]) -> Option<&str>
    ensures { option_map (λ text. text.now) result ≡ style_of attrs.now }
{
    for attr in attrs {
        if is_style(attr) {
            return Some(attr.value.as_str());
        }
    }
    None
}

/// What a style attribute with this text says.
fn styled_by(alloc: Global, node: u32, text: &str) -> Result<List<Claim>, Mem>
    ensures { IfOk result (λ claims. (decls : Seq Decl) × AreDeclarationsOf text.now decls
        × AreClaimed (of_origin.Style node) text.now decls claims) }
{
    let decls = read_declarations(alloc, text)?;
    claims_in(alloc, Origin::Style(node), text, decls.as_slice())
}

/// What the style attribute of an element says.
pub fn styled(alloc: Global, node: u32, attrs: &[Attr]) -> Result<List<Claim>, Mem>
    ensures { IfOk result (IsStyled node attrs.now) }
{
    match style_of(attrs) {
        Some(text) => styled_by(alloc, node, text),
        None => Ok(List::new(alloc)),
    }
}
