ghost use Rattle.std.specs.Prelude.{◌≡◌, ◌<◌, ◌++◌, [], ℕ, ℤ, Bool, false, IsTrue, List, length, Option};
ghost use Rattle.std.specs.List.{AllByRecursion};
ghost use Rattle.viz_base.specs.Trees.{is_inline};
ghost use Rattle.viz_base.specs.declared.layouts.Band.{Band};
ghost use Rattle.viz_base.specs.declared.layouts.Extent.{Extent};
ghost use Rattle.viz_base.specs.declared.layouts.Waiting.{Waiting};
ghost use Rattle.layout_semantics.specs.Blocks.{kind_of};
ghost use Rattle.layout_semantics.specs.Clearance.{Ground, hangs, stands, on_ground, resolve};
ghost use Rattle.layout_semantics.specs.Floats.{FloatBox};
ghost use Rattle.layout_semantics.specs.Flow.{Independent, Progress, flow, whole_independent};
ghost use Rattle.layout_semantics.specs.Leads.{is_up_to, none_passed};
ghost use Rattle.layout_semantics.specs.FlowBoxes.{room};
ghost use Rattle.layout_semantics.specs.Order.{IsOnPage};
ghost use Rattle.layout_semantics.specs.Page.{page_rendering};
ghost use Rattle.lay_margin.specs.Runs.{no_run};
ghost use Rattle.lay_margin.specs.declared.runs.Run.{Run};
ghost use Rattle.lay_steps.specs.Flow.{Context, content_of, content_step};
ghost use Rattle.lay_steps.specs.Forward.{cleared_of, forward, forward_step, way};
ghost use Rattle.lay_steps.specs.Order.{is_in_order};
ghost use Rattle.lay_steps.specs.Progress.{context_of};
ghost use Rattle.lay_steps.specs.Runs.{run_of};
ghost use Rattle.lay_steps.specs.Tables.{inside_of, laid_at, outside_of, page_boxes, table_to};

use viz_base::{BoxTree, World};

/// The boxes of a tree are numbered in document order: a box, with all in it, stands before the one that comes next in
/// the same box, or where that box has no more, before what comes next after it (CSS 2.1, 3.1).
pub fn boxes_stand_in_document_order(tree: &BoxTree)
    ensures { IsTrue (is_in_order tree.now) }
{}

/// Which box of a lead is cleared, with its border edge, and which margins join the run before it: decided box by box
/// on the way, it is what the definition finds by leads that pass more and more boxes (CSS 2.1, 8.3.1, 9.5.2).
pub fn clearance_is_decided_on_the_way(tree: &BoxTree, world: World, at: usize)
    requires within { at < length tree.now.boxes }
    ensures margins { (size : Waiting ℤ
        → Extent ℤ) (edge : ℤ) (run : List ℤ) (cb : Band ℤ) (floats : List FloatBox)
        (least : Option ℤ) → run_of (run
        ++ (resolve (on_ground tree.now world size
        (hangs edge) floats least) run cb at none_passed).margins)
        ≡ (forward (on_ground tree.now world size (hangs edge) floats least) none_passed cb at
        (run_of run)).run }
    ensures cleared { (size : Waiting ℤ
        → Extent ℤ) (edge : ℤ) (run : List ℤ) (cb : Band ℤ) (floats : List FloatBox)
        (least : Option ℤ) → (resolve (on_ground tree.now world size
        (hangs edge) floats least) run cb at none_passed).cleared
        ≡ cleared_of (forward (on_ground tree.now world size
        (hangs edge) floats least) none_passed cb at (run_of run)).end }
    ensures opened { (size : Waiting ℤ
        → Extent ℤ) (y : ℤ) (cb : Band ℤ) (floats : List FloatBox) (least : Option ℤ)
        → (resolve (on_ground tree.now world size (stands y) floats least) [] cb at
        (is_up_to at)).cleared ≡ cleared_of
        (forward (on_ground tree.now world size (stands y) floats least)
        (is_up_to at) cb at no_run).end }
{}

/// The way forward from a box, by that of the boxes in it: more levels would change nothing.
pub fn a_way_forward_comes_from_inside(tree: &BoxTree, at: usize)
    requires within { at < length tree.now.boxes }
    ensures { (g : Ground) (passed : ℕ
        → Bool) (cb : Band ℤ) (run : Run ℤ) (waiting : List (Waiting ℤ)) → g.tree ≡ tree.now
        → way g passed cb at run waiting ≡ forward_step g passed (way g passed) cb at run waiting }
{}

/// The steps through what is in a box, by those through what is in later boxes, whatever the table of boxes outside the
/// flow holds.
pub fn the_steps_of_a_content_come_from_inside(tree: &BoxTree, world: World, at: usize)
    requires within { at < length tree.now.boxes }
    ensures { (apart : ℕ → Independent) (cb : Band ℤ) (top : ℤ) (s : Context)
        → content_of tree.now world apart at cb top s ≡ content_step tree.now world
        (content_of tree.now world apart) apart at cb top s }
{}

/// What stands outside the flow of a block container, its floats and the atomic boxes of its lines, is laid out once,
/// and the table holds it by its number as the flow lays it out (CSS 2.1, 9.2.2, 9.5).
pub fn what_stands_outside_the_flow_is_laid_out_once(tree: &BoxTree, world: World, at: usize)
    requires on_page { IsOnPage tree.now.boxes at }
    requires container { is_inline (kind_of tree.now at) ≡ false }
    ensures { AllByRecursion (λ k. whole_independent tree.now world k (room tree.now world k)
        ≡ laid_at (table_to tree.now world (length tree.now.boxes)) k) (outside_of tree.now at) }
{}

/// The steps through what is in a box add the boxes that the flow adds, and leave the context as it does (CSS 2.1,
/// 9.4.1).
pub fn the_steps_of_a_content_are_its_flow(tree: &BoxTree, world: World, at: usize)
    requires on_page { IsOnPage tree.now.boxes at }
    requires container { is_inline (kind_of tree.now at) ≡ false }
    ensures context { (left top : ℤ) (p : Progress) → context_of (flow tree.now world at
        (inside_of tree.now world left at) top p) ≡ (content_of tree.now world
        (laid_at (table_to tree.now world (length tree.now.boxes))) at
        (inside_of tree.now world left at) top (context_of p)).context }
    ensures boxes { (left top : ℤ) (p : Progress) → (flow tree.now world at
        (inside_of tree.now world left at) top p).boxes ≡ p.boxes ++ (content_of tree.now world
        (laid_at (table_to tree.now world (length tree.now.boxes))) at
        (inside_of tree.now world left at) top (context_of p)).boxes }
{}

/// The steps of a page are its rendering: the whole flow, with floats, clearance, contexts, replaced boxes and lines.
pub fn the_steps_of_a_page_are_its_rendering(tree: &BoxTree, world: World)
    ensures { (page_rendering tree.now world).boxes ≡ page_boxes tree.now world }
{}
