ghost use Rattle.std.specs.Prelude.{◌≡◌, ℤ, ◌+ℤ◌, List};
ghost use Rattle.layout_semantics.specs.Margins.{collapsed};
ghost use Rattle.layout_laws.specs.Margins.{IsGreatestPositive, IsLeastNegative};

/// Adjoining margins collapse to the greatest positive one less the absolute value of the least negative one (CSS
/// 2.1, 8.3.1).
pub fn margins_collapse_to_the_greatest_and_the_least()
    ensures { (margins : List ℤ) (most least : ℤ) → IsGreatestPositive margins most
        → IsLeastNegative margins least → collapsed margins ≡ most +ℤ least }
{}

/// There are such margins, whichever adjoin.
pub fn margins_have_a_greatest_and_a_least()
    ensures most { (margins : List ℤ) → (m : ℤ) × IsGreatestPositive margins m }
    ensures least { (margins : List ℤ) → (m : ℤ) × IsLeastNegative margins m }
{}
