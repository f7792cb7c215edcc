//! What all growth has in common: a page grows to one page at most.
ghost use Rattle.std.specs.Prelude.{◌≡◌, ℕ, Result};
ghost use Rattle.page_pseudo.specs.Grown.{Written};
ghost use Rattle.page_pseudo.specs.Growth.{Growth, IsGrowth};

/// Law: a page grows to at most one page, or is refused at one node, and never both.
pub fn one_growth()
    ensures { (w : Written) (a b : Result Growth ℕ) → IsGrowth w a → IsGrowth w b → a ≡ b }
{}
