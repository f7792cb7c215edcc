ghost use Rattle.std.specs.Prelude.{◌≡◌, ◌↔◌, ℕ, ℤ, pos, neg_ℤ, ◌+ℤ◌, ◌-ℤ◌, ◌*ℤ◌, ◌≤ℤ◌, ◌<ℤ◌, IsTrue};
ghost use Rattle.lin_proof.specs.Form.{Form, value, denied, plus};
ghost use Rattle.lin_proof.specs.Cut.{cut, divides};

/// Of a form and its denial exactly one is at least 0, whatever the variables are.
pub fn denial_holds_elsewhere()
    ensures value { (f : Form) (v : ℕ → ℤ) → value (denied f) v ≡ neg_ℤ (value f v) -ℤ pos 1 }
    ensures one { (f : Form) (v : ℕ → ℤ) → (pos 0 ≤ℤ value (denied f) v) ↔ (value f v <ℤ pos 0) }
{}

/// The value of a form plus a multiple of another, whatever the variables are.
pub fn sum_of_values()
    ensures { (f : Form) (m : ℤ) (g : Form) (v : ℕ → ℤ)
        → value (plus f m g) v ≡ value f v +ℤ m *ℤ value g v }
{}

/// A form whose coefficients a number divides is at least 0 exactly where its cut by that number is.
pub fn cut_holds_as_well()
    ensures { (f : Form) (d : ℤ) → IsTrue (divides d f) → (v : ℕ → ℤ) →
        (pos 0 ≤ℤ value f v) ↔ (pos 0 ≤ℤ value (cut d f) v) }
{}
