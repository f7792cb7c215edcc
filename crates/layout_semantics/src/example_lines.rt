ghost use Rattle.std.specs.Prelude.{◌≡◌, [], ◌∷◌};
ghost use Rattle.layout_semantics.specs.PlainPages.{TreeKeeps};
ghost use Rattle.layout_semantics.specs.Examples.{border_boxes, edges};
ghost use Rattle.layout_semantics.specs.ExampleLines.{aligned_words, subscript, words_that_stay, wide_letter};

/// `text-align` puts what a line holds at its right end, or in its middle (CSS 2.1, 16.2).
pub fn aligned_words()
    ensures { (ok : TreeKeeps aligned_words)
        → border_boxes aligned_words ok
        ≡ edges 0 0 20480 2456 ∷ edges 0 0 20480 2456 ∷ edges 0 0 20480 1228 ∷ edges 0 0 20480 1228
        ∷ edges 18432 102 20480 1125 ∷ edges 0 1228 20480 2456 ∷ edges 0 1228 20480 2456
        ∷ edges 9216 1330 11264 2353 ∷ [] }
{}

/// A `sub` is lowered, which makes its line deeper (CSS 2.1, 10.8.1).
pub fn subscript()
    ensures { (ok : TreeKeeps subscript) → border_boxes subscript ok
        ≡ edges 0 0 20480 1379 ∷ edges 0 0 20480 1379 ∷ edges 0 0 20480 1379 ∷ edges 0 0 20480 1379
        ∷ edges 0 102 1024 1125 ∷ edges 1024 446 1448 1294 ∷ edges 1024 446 1448 1294 ∷ [] }
{}

/// With `white-space: nowrap` no line breaks at a space, and text sticks out (CSS 2.1, 16.6).
pub fn words_that_stay()
    ensures { (ok : TreeKeeps words_that_stay) → border_boxes words_that_stay ok
        ≡ edges 0 0 20480 1228 ∷ edges 0 0 20480 1228 ∷ edges 0 0 2560 1228 ∷ edges 0 0 2560 1228
        ∷ edges 0 102 4608 1125 ∷ [] }
{}

/// Each letter is as wide as its font says (CSS 2.1, 15): 8px and 16px.
pub fn wide_letter()
    ensures { (ok : TreeKeeps wide_letter)
        → border_boxes wide_letter ok ≡ edges 0 0 20480 1228 ∷ edges 0 0 20480 1228
        ∷ edges 0 0 20480 1228 ∷ edges 0 102 1536 1125 ∷ [] }
{}
