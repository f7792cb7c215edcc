//! What all cascades have in common: a page has one at most.
ghost use Rattle.std.specs.Prelude.{◌≡◌, ℕ, List as Seq, Result};
ghost use Rattle.viz_base.specs.declared.nodes.Node.{Node};
ghost use Rattle.viz_base.specs.declared.settings.Setting.{Setting};
ghost use Rattle.viz_base.specs.declared.sheets.Sheet.{Sheet};
ghost use Rattle.viz_base.specs.declared.selectors.Pseudo.{Pseudo};
ghost use Rattle.css_semantics.specs.Cascade.{Fault, IsCascade};
ghost use Rattle.css_semantics.specs.PseudoCascade.{IsPseudoCascade};

/// Law: the nodes of a page with these texts, read as these sheets, have at most one cascade, or are refused in one
/// way.
pub fn one_cascade()
    ensures { (nodes : Seq Node) (texts : Seq (Seq ℕ)) (sheets : Seq Sheet)
        (a b : Result (Seq (Seq Setting)) Fault) → IsCascade nodes texts sheets a
        → IsCascade nodes texts sheets b → a ≡ b }
{}

/// Law: the pseudo-elements of the nodes of a page with these texts, read as these sheets, have at most one cascade, or
/// are refused in one way.
pub fn one_pseudo_cascade()
    ensures { (nodes : Seq Node) (texts : Seq (Seq ℕ)) (sheets : Seq Sheet) (which : Pseudo)
        (a b : Result (Seq (Seq Setting)) Fault) → IsPseudoCascade nodes texts sheets which a
        → IsPseudoCascade nodes texts sheets which b → a ≡ b }
{}
