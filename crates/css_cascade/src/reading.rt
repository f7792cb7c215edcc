//! The rulesets of style sheets: their selectors with specificities, and what their declarations say.
ghost use Rattle.std.specs.Prelude.{◌≡◌, ◌+◌, ◌^◌, ◌≤◌, ◌<◌, ◌∷◌, ◌++◌, [], map, length, ℕ, IfErr, IfOk, IfSome, MatchOption, MatchResult, Ok, OnOk, Some};
ghost use Rattle.std.specs.List.{AllByRecursion};
ghost use Rattle.std.specs.Option.{option_to_list};
ghost use Rattle.std.specs.Prelude.{List as Seq, Result, None};
ghost use Rattle.viz_base.specs.declared.settings.Setting.{Setting};
ghost use Rattle.css_semantics.specs.declared.parts.Refusal.{Refusal};
ghost use Rattle.css_semantics.specs.Shorthands.{Says};
ghost use Rattle.css_semantics.specs.Specificity.{IsCountable};
ghost use Rattle.css_semantics.specs.CascadeReading.{AreClaimed, AreRulesets, Each, IsClaimed, IsNoSlice, IsRanked, IsRuleset, IsSlice, claim_of, claims_of, is_pseudo, sheet_origin, source_of, those_of, unsupported_at, weight_of};
ghost use Rattle.css_semantics.specs.Spelled.{Spelled, spelled};
ghost use Rattle.css_semantics.specs.SelectorGrammar.{IsGroupOf};
ghost use Rattle.css_select.specs.Verdicts.{IsReadingOf};
ghost use Rattle.css_select.specs.Refusals.{refusal_of as reason_of, unsupported_at as no_support_at};
ghost use Rattle.viz_base.specs.Answers.{FailsWith, GivesOneOf};
ghost use Rattle.css_cascade.specs.Faults.{BySelector, IsUnread, refusal_of};
ghost use Rattle.css_cascade.specs.steps.Chosen.{IsRulesetOf};

use crate::faults::CascadeFault;
use crate::nodes::number;
use css_select::{SelFault, read_selector, specificity};
use css_semantics::{Claim, Origin, Ranked, Ruleset, Weight};
use css_value::{ValueFault, read_declaration};
use std::alloc::{AllocError, Global};
use viz_base::{
    Decl, List, Mem, Prop, Pseudo, Rule, Selector, Setting, Sheet, Source, Text, Value,
};

/// The text of a sheet, and where the sheet stands.
#[derive(Clone, Copy)]
struct SheetText<'a> {
    origin: Origin,
    text: &'a str,
}

/// A slice of a text, if it begins and ends at characters.
pub fn slice(text: &str, at: u32, len: u32) -> Option<&str>
    ensures { MatchOption result (IsNoSlice text.now at len)
        (λ piece. IsSlice text.now at len piece.now) }
{
    let start = at as usize;
    let end = start + len as usize;
    if text.is_char_boundary(start) && text.is_char_boundary(end) {
        Some(&text[start..end])
    } else {
        None
    }
}

fn weight_of(origin: Origin, important: bool) -> Weight
    ensures { result ≡ weight_of origin important }
{
    match origin {
        // The default sheet has one place in the order, so its `!important` counts for nothing (6.4.1).
        Origin::Default => Weight::Default,
        Origin::Author(_) | Origin::Style(_) => if important {
            Weight::Important
        } else {
            Weight::Normal
        },
    }
}

fn source_of(origin: Origin, at: u32, len: u32) -> Source
    ensures { result ≡ source_of origin at len }
{
    match origin {
        Origin::Default => Source::Default { at, len },
        Origin::Author(sheet) => Source::Author { sheet, at, len },
        Origin::Style(node) => Source::Style { node, at, len },
    }
}

fn claim_of(origin: Origin, decl: &Decl, prop: Prop, value: Option<Value>) -> Claim
    ensures { result ≡ claim_of origin decl.now prop value }
{
    Claim {
        prop,
        value,
        weight: weight_of(origin, decl.important),
        source: source_of(origin, decl.at, decl.len),
    }
}

/// What a declaration with these settings says.
fn claims_for(
    alloc: Global,
    origin: Origin,
    decl: &Decl,
    settings: List<Setting>,
) -> Result<List<Claim>, Mem>
    ensures { IfOk result (λ claims. claims
        ≡ map (λ s. claim_of origin decl.now s.prop (Some s.value)) settings) }
{
    let mut claims = List::new(alloc);
    for setting in settings.into_vec() {
        claims.push(claim_of(origin, decl, setting.prop, Some(setting.value)))?;
    }
    Ok(claims)
}

/// That a declaration's value is refused by name.
fn refused_claim(alloc: Global, origin: Origin, decl: &Decl, prop: Prop) -> Result<List<Claim>, Mem>
    ensures { IfOk result (λ claims. claims ≡ claim_of origin decl.now prop None ∷ []) }
{
    let mut claims = List::new(alloc);
    // A claim without a value: it refuses the page only where it wins at a node that is shown.
    claims.push(claim_of(origin, decl, prop, None))?;
    Ok(claims)
}

/// What a declaration with this value says.
fn said(alloc: Global, origin: Origin, decl: &Decl, value: &str) -> Result<List<Claim>, Mem>
    ensures { IfOk result (λ claims. (answer : Result (Seq Setting) Refusal)
        × Says decl.now.name value.now answer × (claims ≡ claims_of origin decl.now answer)) }
{
    match read_declaration(alloc, decl.name.as_str(), value) {
        Ok(settings) => claims_for(alloc, origin, decl, settings),
        Err(ValueFault::Ignored) => Ok(List::new(alloc)),
        Err(ValueFault::Unsupported(prop)) => refused_claim(alloc, origin, decl, prop),
        Err(ValueFault::Mem) => Err(Mem),
    }
}

/// What a declaration says.
fn claims_by(alloc: Global, origin: Origin, text: &str, decl: &Decl) -> Result<List<Claim>, Mem>
    ensures { IfOk result (λ claims. IsClaimed origin text.now decl.now (Ok claims)) }
{
    match slice(text, decl.at, decl.len) {
        Some(value) => said(alloc, origin, decl, value),
        None => Ok(List::new(alloc)),
    }
}

/// What declarations say, one after another.
pub fn claims_in(
    alloc: Global,
    origin: Origin,
    text: &str,
    decls: &[Decl],
) -> Result<List<Claim>, Mem>
    ensures { IfOk result (AreClaimed origin text.now decls.now) }
{
    let mut claims = Vec::new(alloc);
    for decl in decls {
        claims.append(&mut claims_by(alloc, origin, text, decl)?.into_vec())?;
    }
    Ok(List::from(claims))
}

/// Whether both are the same pseudo-element, or none.
fn is_pseudo(which: Option<Pseudo>, pseudo: Option<Pseudo>) -> bool
    ensures { result ≡ is_pseudo which pseudo }
{
    match (which, pseudo) {
        (None, None) => true,
        (Some(Pseudo::Before), Some(Pseudo::Before)) => true,
        (Some(Pseudo::After), Some(Pseudo::After)) => true,
        _ => false,
    }
}

/// The selectors with a pseudo-element, or without one.
fn those_of(
    alloc: Global,
    which: Option<Pseudo>,
    selectors: List<Selector>,
) -> Result<List<Selector>, Mem>
    requires { AllByRecursion (λ s. IsCountable (spelled s)) selectors }
    ensures those { IfOk result (λ those. map spelled those
        ≡ those_of which (map spelled selectors)) }
    ensures countable { IfOk result (AllByRecursion (λ s. IsCountable (spelled s))) }
{
    let mut those = List::new(alloc);
    for selector in selectors.into_vec() {
        if is_pseudo(which, selector.pseudo) {
            those.push(selector)?;
        }
    }
    Ok(those)
}

/// The selectors of a group with a pseudo-element, or without one.
fn read_those(
    alloc: Global,
    which: Option<Pseudo>,
    selector: &str,
) -> Result<List<Selector>, SelFault>
    ensures those { IfOk result (λ those. (selectors : Seq Spelled)
        × IsGroupOf selector.now selectors × (map spelled those ≡ those_of which selectors)) }
    ensures unread { IfErr result (λ fault. FailsWith (reason_of fault)
        (IsReadingOf selector.now)) }
    ensures countable { IfOk result (AllByRecursion (λ s. IsCountable (spelled s))) }
{
    let selectors = read_selector(alloc, selector)?;
    Ok(those_of(alloc, which, selectors)?)
}

/// Selectors with their specificities.
fn ranked(alloc: Global, selectors: List<Selector>) -> Result<List<Ranked>, Mem>
    requires { AllByRecursion (λ s. IsCountable (spelled s)) selectors }
    ensures { IfOk result (λ group. IsRanked group (map spelled selectors)) }
{
    let mut group = List::new(alloc);
    for selector in selectors.into_vec() {
        let spec = specificity(&selector);
        group.push(Ranked { selector, spec })?;
    }
    Ok(group)
}

/// What a selector that is refused by name comes to, at this place of its ruleset.
fn unsupported_at(origin: Origin, rule: u32, at: u32) -> Result<Option<Ruleset>, CascadeFault>
    ensures is { GivesOneOf option_to_list refusal_of result
        (BySelector (λ answer. answer ≡ unsupported_at origin (rule + at))) }
    ensures room { IfErr result (λ fault. fault ≡ CascadeFault.Mem → 2 ^ 32 ≤ rule + at) }
{
    match origin {
        Origin::Author(sheet) => {
            let place = rule.checked_add(at).ok_or(Mem)?;
            Err(CascadeFault::Selector(sheet, place))
        }
        // The page has no say in the default sheet; a style attribute has no selector.
        Origin::Default | Origin::Style(_) => Ok(None),
    }
}

/// What a rule comes to, at this place, of which the selector can't be read.
fn unread(origin: Origin, rule: u32, fault: SelFault) -> Result<Option<Ruleset>, CascadeFault>
    ensures is { GivesOneOf option_to_list refusal_of result
        (BySelector (IsUnread origin rule fault)) }
    ensures room { IfErr result (λ answered. answered ≡ CascadeFault.Mem → IfSome (reason_of fault)
        (λ reason. (at : ℕ) × (reason ≡ no_support_at at) × (2 ^ 32 ≤ rule + at))) }
{
    match fault {
        SelFault::Bad(_) => Ok(None),
        SelFault::Unsupported(at) => unsupported_at(origin, rule, at),
        SelFault::Mem => Err(CascadeFault::Mem),
    }
}

/// The ruleset of these selectors of a rule.
fn ruleset_by(
    alloc: Global,
    origin: Origin,
    text: &str,
    rule: &Rule,
    selectors: List<Selector>,
) -> Result<Ruleset, Mem>
    requires { AllByRecursion (λ s. IsCountable (spelled s)) selectors }
    ensures { IfOk result (λ read. IsRanked read.group (map spelled selectors)
        × AreClaimed origin text.now rule.now.decls read.claims) }
{
    Ok(Ruleset {
        group: ranked(alloc, selectors)?,
        claims: claims_in(alloc, origin, text, rule.decls.as_slice())?,
    })
}

/// The ruleset of these selectors of a rule, if there is one.
fn ruleset_of(
    alloc: Global,
    origin: Origin,
    text: &str,
    rule: &Rule,
    selectors: List<Selector>,
) -> Result<Option<Ruleset>, Mem>
    requires { AllByRecursion (λ s. IsCountable (spelled s)) selectors }
    ensures { IfOk result (λ found. IsRulesetOf origin text.now rule.now
        (map spelled selectors) found) }
{
    // What such a rule declares is read for the cascade that it belongs to alone.
    if selectors.is_empty() {
        return Ok(None);
    }
    Ok(Some(ruleset_by(alloc, origin, text, rule, selectors)?))
}

/// The ruleset of a rule with this selector, if it can be read, and has such selectors.
fn ruleset_with(
    alloc: Global,
    which: Option<Pseudo>,
    sheet: SheetText<'_>,
    rule: &Rule,
    selector: &str,
) -> Result<Option<Ruleset>, CascadeFault>
    requires { IsSlice sheet.text.now rule.now.at rule.now.len selector.now }
    ensures { GivesOneOf option_to_list refusal_of result
        (BySelector (IsRuleset which sheet.entry.origin sheet.entry.text.now rule.now)) }
{
    match read_those(alloc, which, selector) {
        Ok(selectors) => Ok(ruleset_of(alloc, sheet.origin, sheet.text, rule, selectors)?),
        Err(fault) => unread(sheet.origin, rule.at, fault),
    }
}

/// The ruleset of a rule, if its selector can be read, and has such selectors.
fn ruleset_at(
    alloc: Global,
    which: Option<Pseudo>,
    sheet: SheetText<'_>,
    rule: &Rule,
) -> Result<Option<Ruleset>, CascadeFault>
    ensures { GivesOneOf option_to_list refusal_of result
        (BySelector (IsRuleset which sheet.entry.origin sheet.entry.text.now rule.now)) }
{
    match slice(sheet.text, rule.at, rule.len) {
        Some(selector) => ruleset_with(alloc, which, sheet, rule, selector),
        None => Ok(None),
    }
}

fn push_found(rulesets: &mut Vec<Ruleset>, found: Option<Ruleset>) -> Result<(), AllocError>
    ensures { OnOk result (rulesets.new.items ≡ rulesets.old.items ++ option_to_list found) }
{
    if let Some(one) = found {
        rulesets.push(one)?;
    }
    Ok(())
}

/// The rulesets of a sheet, by its selectors with a pseudo-element, or without one.
fn rulesets_in(
    alloc: Global,
    which: Option<Pseudo>,
    sheet: SheetText<'_>,
    rules: &[Rule],
) -> Result<Vec<Ruleset>, CascadeFault>
    ensures { GivesOneOf (λ found. found.items) refusal_of result
        (BySelector (Each (IsRuleset which sheet.entry.origin sheet.entry.text.now) rules.now)) }
{
    let mut rulesets = Vec::new(alloc);
    for rule in rules {
        push_found(&mut rulesets, ruleset_at(alloc, which, sheet, rule)?)?;
    }
    Ok(rulesets)
}

/// Where the sheet of this number stands: the first is the default one.
fn sheet_origin(at: usize) -> Result<Origin, Mem>
    ensures { MatchResult result (λ origin. origin ≡ sheet_origin at) (λ _. 2 ^ 32 < at) }
{
    match at.checked_sub(1) {
        Some(sheet) => Ok(Origin::Author(number(sheet)?)),
        None => Ok(Origin::Default),
    }
}

/// The rulesets of sheets in order, the first of which is the default one, by their selectors with a pseudo-element, or
/// without one. For which media a rule is doesn't matter here.
pub fn read_rulesets(
    alloc: Global,
    which: Option<Pseudo>,
    texts: &[Text],
    sheets: &[Sheet],
) -> Result<Vec<Ruleset>, CascadeFault>
    requires { length texts.now ≡ length sheets.now }
    ensures { GivesOneOf (λ found. found.items) refusal_of result
        (BySelector (AreRulesets which texts.now sheets.now)) }
{
    let mut rulesets = Vec::new(alloc);
    for at in 0..sheets.len() {
        let origin = sheet_origin(at)?;
        let sheet = SheetText {
            origin,
            text: texts[at].as_str(),
        };
        rulesets.append(&mut rulesets_in(alloc, which, sheet, sheets[at].rules.as_slice())?)?;
    }
    Ok(rulesets)
}
