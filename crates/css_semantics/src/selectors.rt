ghost use Rattle.std.specs.Prelude.{◌≡◌, ◌↔◌, ℕ, List as Seq, [], ◌∷◌, Some, None};
ghost use Rattle.std.specs.declared.cmp.Ordering.TheVariants.{Greater};
ghost use Rattle.viz_base.specs.declared.nodes.Node.{Node};
ghost use Rattle.viz_base.specs.declared.selectors.Compound.{Compound};
ghost use Rattle.viz_base.specs.declared.selectors.Join.{Join};
ghost use Rattle.viz_base.specs.declared.selectors.Join.TheVariants as of_join;
ghost use Rattle.viz_base.specs.declared.selectors.Pseudo.{Pseudo};
ghost use Rattle.viz_base.specs.declared.selectors.Test.TheVariants as of_test;
ghost use Rattle.css_semantics.specs.CascadeOrder.{spec_cmp, style_spec};
ghost use Rattle.css_semantics.specs.Matching.{IsAncestor, IsParent, IsPrevious, Match, MatchesCompound};
ghost use Rattle.css_semantics.specs.SelectorLaws.{alone, counts, joined};
ghost use Rattle.css_semantics.specs.Specificity.{spec_of};

/// Law: a selector of one simple selector matches a node exactly where that does. `A > B` matches it exactly where `B`
/// does and `A` matches its parent, `A B` exactly where `B` does and `A` matches some element around it, and `A + B`
/// exactly where `B` does and `A` matches the element directly before it, `A` being any selector (CSS 2.1, 5.5 to 5.7).
pub fn joins_say_where()
    ensures one { (nodes : Seq Node) (n : ℕ) (b : Compound)
        → Match ((of_join.First, b) ∷ []) nodes n ↔ MatchesCompound nodes b n }
    ensures child { (nodes : Seq Node) (n : ℕ) (a : Seq (Join × Compound)) (b : Compound)
        → Match (joined a of_join.Child b) nodes n
        ↔ (MatchesCompound nodes b n × ((p : ℕ) × IsParent nodes p n × Match a nodes p)) }
    ensures descendant { (nodes : Seq Node) (n : ℕ) (a : Seq (Join × Compound)) (b : Compound)
        → Match (joined a of_join.Descendant b) nodes n
        ↔ (MatchesCompound nodes b n × ((top : ℕ) × IsAncestor nodes top n × Match a nodes top)) }
    ensures next { (nodes : Seq Node) (n : ℕ) (a : Seq (Join × Compound)) (b : Compound)
        → Match (joined a of_join.Next b) nodes n
        ↔ (MatchesCompound nodes b n × ((s : ℕ) × IsPrevious nodes s n × Match a nodes s)) }
{}

/// Law: what one id, one class, one tag and a pseudo-element behind it count (CSS 2.1, 6.4.3).
pub fn specificity_counts()
    ensures id { (name : Seq ℕ) → spec_of (alone None (of_test.Id name ∷ []), None) ≡ counts 1 0 0 }
    ensures class { (name : Seq ℕ) → spec_of (alone None (of_test.Class name ∷ []), None)
        ≡ counts 0 1 0 }
    ensures tag { (name : Seq ℕ) → spec_of (alone (Some name) [], None) ≡ counts 0 0 1 }
    ensures pseudo { (name : Seq ℕ) (p : Pseudo)
        → spec_of (alone (Some name) [], Some p) ≡ counts 0 0 2 }
{}

/// Law: a style attribute is more specific than any selector, one id more than any number of classes and tags, and one
/// class more than any number of tags (CSS 2.1, 6.4.3).
pub fn specificity_order()
    ensures style { (ids others tags : ℕ) → spec_cmp style_spec (counts ids others tags) ≡ Greater }
    ensures id { (others tags : ℕ) → spec_cmp (counts 1 0 0) (counts 0 others tags) ≡ Greater }
    ensures class { (tags : ℕ) → spec_cmp (counts 0 1 0) (counts 0 0 tags) ≡ Greater }
{}
