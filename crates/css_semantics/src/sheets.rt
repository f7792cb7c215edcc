ghost use Rattle.std.specs.Prelude.{◌≡◌, ℕ, List as Seq, Bool, Option, Result};
ghost use Rattle.css_semantics.specs.Pieces.{Token};
ghost use Rattle.viz_base.specs.declared.sheets.Decl.{Decl};
ghost use Rattle.viz_base.specs.declared.sheets.MediaEntry.{MediaEntry};
ghost use Rattle.viz_base.specs.declared.sheets.Rule.{Rule};
ghost use Rattle.css_semantics.specs.SheetsReading.{Refusal};
ghost use Rattle.css_semantics.specs.SheetsGrammar.{AreDeclarations, AreDeclarationsOf, IsSheet, IsSheetOf};
ghost use Rattle.css_semantics.specs.SheetsStretches.{IsStretch};
ghost use Rattle.css_semantics.specs.MediaLists.{IsMediaList};

/// Law: for each test of what ends a stretch, each list of tokens falls in exactly one way into a stretch and a rest.
pub fn one_stretch()
    ensures exists { (stop : Token → Bool) (ts : Seq Token)
        → (front : Seq Token) × (rest : Seq Token) × IsStretch stop ts front rest }
    ensures unique { (stop : Token → Bool) (ts f g r s : Seq Token) → IsStretch stop ts f r
        → IsStretch stop ts g s → (f ≡ g) × (r ≡ s) }
{}

/// Law: each list of tokens has exactly one list of declarations, and the text of a style attribute at most one.
pub fn one_list_of_declarations()
    ensures exists { (ts : Seq Token) → (ds : Seq Decl) × AreDeclarations ts ds }
    ensures unique { (ts : Seq Token) (ds es : Seq Decl) → AreDeclarations ts ds
        → AreDeclarations ts es → ds ≡ es }
    ensures text { (text : Seq ℕ) (ds es : Seq Decl) → AreDeclarationsOf text ds
        → AreDeclarationsOf text es → ds ≡ es }
{}

/// Law: each prelude of an `@media` is exactly one media list.
pub fn one_media_list()
    ensures exists { (ts : Seq Token)
        → (entries : Seq (Option MediaEntry)) × IsMediaList ts entries }
    ensures unique { (ts : Seq Token) (a b : Seq (Option MediaEntry)) → IsMediaList ts a
        → IsMediaList ts b → a ≡ b }
{}

/// Law: each list of tokens spells exactly one sheet, or is refused in exactly one way; and a text in at most one way.
pub fn one_sheet()
    ensures exists { (ts : Seq Token) → (answer : Result (Seq Rule) Refusal) × IsSheet ts answer }
    ensures unique { (ts : Seq Token) (a b : Result (Seq Rule) Refusal) → IsSheet ts a
        → IsSheet ts b → a ≡ b }
    ensures text { (text : Seq ℕ) (a b : Result (Seq Rule) Refusal) → IsSheetOf text a
        → IsSheetOf text b → a ≡ b }
{}
