ghost use Rattle.std.specs.Prelude.{◌≡◌, ◌+◌, ℕ, List, slice_get, Some, true, false};
ghost use Rattle.layout_semantics.specs.WhiteSpace.{Thing, collapsed_things, keeps_white};
ghost use Rattle.layout_laws.specs.Spaces.{is_space, others};

/// No white space stands first in inline content, nor directly after white space, a forced line break or a block (CSS
/// 2.1, 16.6.1).
pub fn white_space_stands_alone()
    ensures first { (things : List Thing) (a : Thing)
        → slice_get (collapsed_things things) 0 ≡ Some a → is_space a ≡ false }
    ensures next { (things : List Thing) (at : ℕ) (a b : Thing)
        → slice_get (collapsed_things things) at ≡ Some a
        → slice_get (collapsed_things things) (at + 1) ≡ Some b → is_space b ≡ true
        → keeps_white a ≡ true }
{}

/// Characters other than white space all stay, in their order, and so do forced line breaks and atomic boxes.
pub fn what_is_no_white_space_stays()
    ensures { (things : List Thing) → others (collapsed_things things) ≡ others things }
{}
