ghost use Rattle.std.specs.Prelude.{◌≡◌, ℕ, [], ◌∷◌, List as Seq, Ok, Result};
ghost use Rattle.viz_base.specs.declared.lengths.Sides.{Sides};
ghost use Rattle.viz_base.specs.declared.settings.Prop.{Prop};
ghost use Rattle.viz_base.specs.declared.settings.Value.{Value};
ghost use Rattle.viz_base.specs.declared.settings.Setting.{Setting};
ghost use Rattle.css_semantics.specs.declared.parts.Part.{Part};
ghost use Rattle.css_semantics.specs.declared.parts.Refusal.{Refusal};
ghost use Rattle.css_semantics.specs.declared.parts.Shorthand.{Shorthand};
ghost use Rattle.css_semantics.specs.InitialWords.{StandAtTheirPlaces};
ghost use Rattle.css_semantics.specs.Properties.{properties, row};
ghost use Rattle.css_semantics.specs.Values.{longhand, part_value};
ghost use Rattle.css_semantics.specs.Shorthands.{Says, declared, shorthand};
ghost use Rattle.css_semantics.specs.Winners.{AreAllowed};
ghost use Rattle.css_semantics.specs.ValuesLaws.{FewerSides, HasValue, IsAmong, longhands, props};

/// A law: a declaration sets its own property alone, or all that it is short for, in the order of the table of
/// properties, each once (CSS 2.1, 1.4.3).
pub fn settings_in_order()
    ensures alone { (p : Prop) (ps : Seq Part) (settings : Seq Setting)
        → longhand p ps ≡ Ok settings → props settings ≡ p ∷ [] }
    ensures whole { (s : Shorthand) (ps : Seq Part) (settings : Seq Setting)
        → shorthand s ps ≡ Ok settings → props settings ≡ longhands s }
    ensures ordered { (name : Seq ℕ) (ps : Seq Part) (settings : Seq Setting)
        → declared name ps ≡ Ok settings → IsAmong (props settings) properties }
{}

/// A law: each value of one part is one that the property's row of the table has. None is negative where it says so,
/// and only zero is accepted where it says that (CSS 2.1, 4.3.2).
pub fn values_by_the_table()
    ensures { (p : Prop) (a : Part) (v : Value) → part_value p a ≡ Ok v → HasValue (row p) v }
{}

/// A law: each keyword that is an initial value stands in its property's row at the place that is named for it (CSS
/// 2.1, 6.1.1).
pub fn initial_words_at_their_places()
    ensures { StandAtTheirPlaces }
{}

/// A law: each setting of a declaration is one that the property's row of the table allows: `inherit`, names of
/// families or a text where the row takes them, a percentage of at most 2^40 millionths (CSS 2.1, 4.3 and 6.2.1).
pub fn values_allowed()
    ensures { (name text : Seq ℕ) (settings : Seq Setting) → Says name text (Ok settings)
        → AreAllowed settings }
{}

/// A law: what one, two, three and four values of a shorthand for four sides stand for (CSS 2.1, 8.3).
pub fn fewer_sides()
    ensures { (on : Sides Prop) → FewerSides on }
{}

/// A law: no name and text have two answers.
pub fn one_answer()
    ensures { (name text : Seq ℕ) (a b : Result (Seq Setting) Refusal) → Says name text a
        → Says name text b → a ≡ b }
{}
