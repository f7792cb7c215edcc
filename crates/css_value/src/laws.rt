ghost use Rattle.std.specs.Prelude.{◌≡◌, ◌↔◌, List as Seq, Result};
ghost use Rattle.viz_base.specs.declared.settings.Setting.{Setting};
ghost use Rattle.css_semantics.specs.declared.parts.Part.{Part};
ghost use Rattle.css_semantics.specs.declared.parts.Refusal.{Refusal};
ghost use Rattle.css_semantics.specs.declared.parts.Shorthand.{Shorthand};
ghost use Rattle.css_semantics.specs.Shorthands.{shorthand};
ghost use Rattle.css_value.specs.Grammars.{IsShorthand};

/// A law: what the value of a shorthand says is what the grammar that CSS 2.1 prints for it says, and nothing else
/// (8.3, 8.4, 8.5 and 15.8); but for `list-style`, of which it is what the definition says.
pub fn shorthands_by_grammar()
    ensures { (s : Shorthand) (ps : Seq Part) (a : Result (Seq Setting) Refusal)
        → (a ≡ shorthand s ps) ↔ IsShorthand s ps a }
{}
