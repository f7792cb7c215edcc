ghost use Rattle.std.specs.Prelude.{◌≡◌, ◌↔◌, ◌<◌, ◌≤◌, ◌⊎◌, ℕ, List, [], ◌∷◌, map, drop, flat_map, IsTrue, codes};
ghost use Rattle.viz_base.specs.declared.tokens.TokenKind.TheVariants.{Hash};
ghost use Rattle.css_semantics.specs.SelectorTerminals.{begins_identifier};
ghost use Rattle.css_semantics.specs.Pieces.{Token};
ghost use Rattle.css_semantics.specs.Tokens.{AreTokens};
ghost use Rattle.css_semantics.specs.TokensEscapes.{ResolvesEscapes};
ghost use Rattle.css_semantics.specs.TokensMacros.{IsIdent};
ghost use Rattle.css_semantics.specs.TokensTable.{Matches};
ghost use Rattle.css_semantics.specs.TokensUnescaped.{Extent, hex_value, scalar};

/// A law: no text has two lists of tokens (CSS 2.1, 4.1.1).
pub fn tokens_are_unique(text: &str)
    ensures { (first second : List Token) → AreTokens text.now first → AreTokens text.now second
        → first ≡ second }
{}

/// A law: the tokens of a text join to it.
pub fn tokens_join(text: &str)
    ensures { (tokens : List Token) → AreTokens text.now tokens
        → flat_map (λ t. t.text) tokens ≡ text.now }
{}

/// A law: what each escape in a text gives (CSS 2.1, 4.1.3).
pub fn escapes_resolve()
    ensures { (extent : Extent) → ResolvesEscapes extent }
{}

/// A law: the hexadecimal digits of an escape count 0 to 15, in either case; the number that they spell is that of the
/// character, and of 0, a surrogate and what is past U+10FFFF it is U+FFFD (CSS 2.1, 4.1.3; the last our own reading).
pub fn escapes_by_number()
    ensures small { map hex_value (codes "0123456789abcdef")
        ≡ 0 ∷ 1 ∷ 2 ∷ 3 ∷ 4 ∷ 5 ∷ 6 ∷ 7 ∷ 8 ∷ 9 ∷ 10 ∷ 11 ∷ 12 ∷ 13 ∷ 14 ∷ 15 ∷ [] }
    ensures large { map hex_value (codes "ABCDEF") ≡ 10 ∷ 11 ∷ 12 ∷ 13 ∷ 14 ∷ 15 ∷ [] }
    ensures itself { (n : ℕ) → 0 < n → (n < 0xD800) ⊎ ((0xDFFF < n) × (n ≤ 0x10FFFF))
        → scalar n ≡ n }
    ensures replaced { (n : ℕ) → (n ≡ 0) ⊎ (((0xD800 ≤ n) × (n ≤ 0xDFFF)) ⊎ (0x10FFFF < n))
        → scalar n ≡ 0xFFFD }
{}

/// A law: a selector takes the name behind a `#` exactly where it is an identifier (CSS 2.1, 5.9).
pub fn ids_are_identifiers()
    ensures { (text : List ℕ) → Matches Hash text
        → IsTrue (begins_identifier (drop 1 text)) ↔ IsIdent (drop 1 text) }
{}
