ghost use Rattle.std.specs.Prelude.{◌≡◌, ℕ, List};
ghost use Rattle.css_semantics.specs.Pieces.{Token};
ghost use Rattle.css_select.specs.Verdicts.{IsReading, IsReadingOf, Verdict};

/// Law: each list of tokens is exactly one of these: a group of selectors, in one way; one with refused selectors, at
/// one place the first of them; or none, at one place. So is each text.
pub fn one_reading()
    ensures exists { (end : ℕ) (ts : List Token) → (v : Verdict) × IsReading end ts v }
    ensures unique { (end : ℕ) (ts : List Token) (v w : Verdict) → IsReading end ts v
        → IsReading end ts w → v ≡ w }
    ensures exists_text { (text : List ℕ) → (v : Verdict) × IsReadingOf text v }
    ensures unique_text { (text : List ℕ) (v w : Verdict) → IsReadingOf text v → IsReadingOf text w
        → v ≡ w }
{}
