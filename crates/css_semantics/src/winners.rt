ghost use Rattle.std.specs.Prelude.{◌≡◌, ◌↔◌, Bool, true, false, List as Seq, [], Some, None};
ghost use Rattle.viz_base.specs.declared.sheets.Decl.{Decl};
ghost use Rattle.css_semantics.specs.declared.claims.Claim.{Claim};
ghost use Rattle.css_semantics.specs.declared.claims.Origin.{Origin};
ghost use Rattle.css_semantics.specs.declared.claims.Ruleset.{Ruleset};
ghost use Rattle.css_semantics.specs.declared.claims.Standing.{Standing};
ghost use Rattle.css_semantics.specs.Hidden.{StandingsAgree};
ghost use Rattle.viz_base.specs.Pages.{IsPage};
ghost use Rattle.viz_base.specs.declared.nodes.Node.{Node};
ghost use Rattle.css_semantics.specs.CascadeLaws.{Hides, IsImportant, Overrides, is_author};
ghost use Rattle.viz_base.specs.declared.settings.Prop.{Prop};
ghost use Rattle.viz_base.specs.declared.selectors.Spec.{Spec};
ghost use Rattle.css_semantics.specs.CascadeOrder.{Applied, IsGreatest, IsWinner, greatest, of_prop, spec_cmp, winner_of};

/// Law: of the settings of a property that apply to a node, the winner is the one before which none is greater by
/// weight and specificity and behind which each is less; there is exactly one where there is a setting (CSS 2.1,
/// 6.4.1).
pub fn one_winner()
    ensures winner { (p : Prop) (all : Seq Applied) (a : Applied)
        → (winner_of p all ≡ Some a) ↔ IsWinner p all a }
    ensures none { (p : Prop) (all : Seq Applied)
        → (winner_of p all ≡ None) ↔ (of_prop p all ≡ []) }
{}

/// Law: the specificity by which a ruleset applies is one of those of its selectors that match, and none of them is
/// greater; there is one where a selector matches (CSS 2.1, 6.4.3).
pub fn one_specificity()
    ensures greatest { (specs : Seq Spec) (s : Spec)
        → (greatest spec_cmp specs ≡ Some s) ↔ IsGreatest spec_cmp specs s }
    ensures none { (specs : Seq Spec) → (greatest spec_cmp specs ≡ None) ↔ (specs ≡ []) }
{}

/// Law: an author's `!important` declaration overrides one that isn't, and each of the author's overrides each of the
/// default sheet, even one that is `!important` there (CSS 2.1, 6.4.1 and 6.4.2).
pub fn important_overrides()
    ensures normal { (o q : Origin) (d e : Decl) → IsImportant o d → e.important ≡ false
        → Overrides o d q e }
    ensures default { (o q : Origin) (d e : Decl) → is_author o ≡ true → is_author q ≡ false
        → Overrides o d q e }
{}

/// Law: a node inside a hidden one is hidden whatever wins at it, and so is one at which `display: none` wins; no other
/// is (CSS 2.1, 9.2.4).
pub fn hidden_inside()
    ensures { (replaced : Bool) (outer : Standing) (winners : Seq Claim)
        → Hides replaced outer winners }
{}

/// Law: what the cascade takes for hidden, as it goes from node to node, is each node at which or around which
/// `display: none` wins, and no other (CSS 2.1, 9.2.4).
pub fn hidden_by_display()
    ensures { (nodes : Seq Node) (rulesets : Seq Ruleset) → IsPage nodes
        → StandingsAgree nodes rulesets }
{}
