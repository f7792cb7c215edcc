ghost use Rattle.std.specs.Prelude.{◌≡◌, [], ◌∷◌};
ghost use Rattle.layout_semantics.specs.PlainPages.{TreeKeeps};
ghost use Rattle.layout_semantics.specs.Examples.{border_boxes, edges, margins_of_two_blocks, empty_block_between, one_word, superscript, float_between_margins, cleared_block, three_floats, wide_float, long_word, waiting_float, shrunk_float, clipped_inline_block, clipped_block, wide_image};

/// Two margins that adjoin collapse to the greater (CSS 2.1, 8.3.1): the gap is 30px.
pub fn margins_of_two_blocks()
    ensures { (ok : TreeKeeps margins_of_two_blocks)
        → border_boxes margins_of_two_blocks ok
        ≡ edges 0 0 20480 3200 ∷ edges 0 0 20480 3200 ∷ edges 0 0 20480 640
        ∷ edges 0 2560 20480 3200 ∷ [] }
{}

/// The margins of a block that collapses through join those around it; it stands where a bottom border would put it
/// (CSS 2.1, 8.3.1).
pub fn empty_block_between()
    ensures { (ok : TreeKeeps empty_block_between)
        → border_boxes empty_block_between ok
        ≡ edges 0 0 20480 3200 ∷ edges 0 0 20480 3200 ∷ edges 0 0 20480 640
        ∷ edges 0 1280 20480 1280 ∷ edges 0 2560 20480 3200 ∷ [] }
{}

/// A line is as high as `line-height`, its half-leading above and below the text (CSS 2.1, 10.8.1).
pub fn one_word()
    ensures { (ok : TreeKeeps one_word)
        → border_boxes one_word ok ≡ edges 0 0 20480 1228 ∷ edges 0 0 20480 1228
        ∷ edges 0 0 20480 1228 ∷ edges 0 102 2048 1125 ∷ [] }
{}

/// A raised inline box makes its line higher (CSS 2.1, 10.8.1).
pub fn superscript()
    ensures { (ok : TreeKeeps superscript) → border_boxes superscript ok
        ≡ edges 0 0 20480 1412 ∷ edges 0 0 20480 1412 ∷ edges 0 0 20480 1412 ∷ edges 0 0 20480 1412
        ∷ edges 0 286 1024 1309 ∷ edges 1024 85 1448 933 ∷ edges 1024 85 1448 933 ∷ [] }
{}

/// A float between margins that adjoin stands where an empty block would, below the margin that they collapse to (CSS
/// 2.1, 8.3.1 and 9.5).
pub fn float_between_margins()
    ensures { (ok : TreeKeeps float_between_margins)
        → border_boxes float_between_margins ok
        ≡ edges 0 0 20480 2508 ∷ edges 0 1280 20480 2508 ∷ edges 0 1280 20480 1280
        ∷ edges 0 1280 1920 1920 ∷ edges 0 1280 20480 2508 ∷ edges 1920 1280 20480 2508
        ∷ edges 1920 1382 2432 2405 ∷ [] }
{}

/// Clearance puts a block below the floats, and its margins no longer adjoin those above (CSS 2.1, 9.5.2).
pub fn cleared_block()
    ensures { (ok : TreeKeeps cleared_block)
        → border_boxes cleared_block ok
        ≡ edges 0 0 20480 5708 ∷ edges 0 0 20480 5708 ∷ edges 0 0 6400 3200
        ∷ edges 0 3200 20480 3200 ∷ edges 0 4480 20480 5708 ∷ edges 0 4480 20480 5708
        ∷ edges 0 4582 512 5605 ∷ [] }
{}

/// Floats stand side by side, and one without room goes below (CSS 2.1, 9.5.1).
pub fn three_floats()
    ensures { (ok : TreeKeeps three_floats) → border_boxes three_floats ok
        ≡ edges 0 0 20480 1280 ∷ edges 0 0 20480 0 ∷ edges 0 0 8192 640 ∷ edges 8192 0 16384 640
        ∷ edges 0 640 8192 1280 ∷ [] }
{}

/// A float that is too wide goes below the floats on the other side and sticks out (CSS 2.1, 9.5.1).
pub fn wide_float()
    ensures { (ok : TreeKeeps wide_float)
        → border_boxes wide_float ok ≡ edges 0 0 20480 1920 ∷ edges 0 0 20480 0
        ∷ edges 17280 0 20480 1280 ∷ edges 0 1280 25600 1920 ∷ [] }
{}

/// A line without room for its first word beside a float goes below the float (CSS 2.1, 9.5).
pub fn long_word()
    ensures { (ok : TreeKeeps long_word)
        → border_boxes long_word ok ≡ edges 0 0 20480 4428 ∷ edges 0 0 20480 4428
        ∷ edges 0 3200 20480 4428 ∷ edges 0 0 6400 3200 ∷ edges 0 3302 23040 4325 ∷ [] }
{}

/// A float without room on its line goes below the line (CSS 2.1, 9.5).
pub fn waiting_float()
    ensures { (ok : TreeKeeps waiting_float) → border_boxes waiting_float ok
        ≡ edges 0 0 20480 1868 ∷ edges 0 0 20480 1228 ∷ edges 0 0 20480 1228 ∷ edges 0 102 2048 1125
        ∷ edges 0 1228 18433 1868 ∷ [] }
{}

/// A float is no wider than its containing block where its content can break (CSS 2.1, 10.3.5).
pub fn shrunk_float()
    ensures { (ok : TreeKeeps shrunk_float)
        → border_boxes shrunk_float ok
        ≡ edges 0 0 20480 2456 ∷ edges 0 0 20480 0 ∷ edges 0 0 3840 0 ∷ edges 0 0 3840 2456
        ∷ edges 0 0 3840 1228 ∷ edges 0 102 2048 1125 ∷ edges 0 1228 3840 2456
        ∷ edges 0 1330 2048 2353 ∷ [] }
{}

/// The baseline of an inline-block that clips its content is its bottom margin edge (CSS 2.1, 10.8.1).
pub fn clipped_inline_block()
    ensures { (ok : TreeKeeps clipped_inline_block)
        → border_boxes clipped_inline_block ok
        ≡ edges 0 0 20480 1535 ∷ edges 0 0 20480 1535 ∷ edges 0 0 20480 1535 ∷ edges 0 0 20480 1535
        ∷ edges 0 409 1024 1432 ∷ edges 1024 0 1536 1228 ∷ edges 1024 0 1536 1228
        ∷ edges 1024 102 1536 1125 ∷ [] }
{}

/// A block that starts a formatting context stands below the float (CSS 2.1, 9.5).
pub fn clipped_block()
    ensures { (ok : TreeKeeps clipped_block)
        → border_boxes clipped_block ok
        ≡ edges 0 0 20480 3840 ∷ edges 0 0 20480 3840 ∷ edges 0 0 6400 3200
        ∷ edges 0 3200 20480 3840 ∷ [] }
{}

/// A width clamped by its maximum keeps the ratio of an image (CSS 2.1, 10.4).
pub fn wide_image()
    ensures { (ok : TreeKeeps wide_image)
        → border_boxes wide_image ok ≡ edges 0 0 20480 15667 ∷ edges 0 0 20480 15667
        ∷ edges 0 0 20480 15667 ∷ edges 0 0 20480 15360 ∷ [] }
{}
