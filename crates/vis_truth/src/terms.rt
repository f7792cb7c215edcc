ghost use Rattle.std.specs.Prelude.{fold, map, ◌*◌, ◌+ℤ◌, ◌*ℤ◌, ℤ, pos, ⊤, ◌&&◌, [], ◌∷◌, ◌++◌, Some, None};
ghost use Rattle.std.specs.Ordering.{int_eq};
ghost use Rattle.std.specs.Int.RustNames.{int_lt, int_le};
ghost use Rattle.std.specs.Option.{option_copied};
ghost use Rattle.viz_calc.specs.State.{AllSmall};
ghost use Rattle.viz_calc.specs.Run.{Lays};
ghost use Rattle.viz_calc.specs.Renderings.{quad_at};
ghost use Rattle.logic_semantics.specs.Scenes.{named};
ghost use Rattle.logic_semantics.specs.Terms.{edge_value, summand_value, term_value, compares, do_overlap, boxes_overlap};
ghost use Rattle.vis_truth.specs.Names.{places_of};
ghost use Rattle.vis_truth.specs.Scenes.{scene_at, sum_parts, term_parts};

use crate::boxes::{face_of, find, ring_of};
use crate::names::Names;
use viz_base::{Edge, Face, Quad, Rendering, Ring, Sign, Summand, Term};
use viz_calc::Steady;

/// 0.
fn zero<S: Steady>(calc: &mut S) -> S::Num
    ensures { Lays S.run calc.old calc.new (S.at result) (λ e. pos 0) (λ e. AllSmall (pos 0 ∷ [])) }
{
    calc.lit(0)
}

/// A number as often as a summand has it.
fn multiple<S: Steady>(calc: &mut S, s: &Summand, n: &S::Num) -> S::Num
    ensures { Lays S.run calc.old calc.new (S.at result) (λ e. s.now.times *ℤ S.at n.now e)
        (λ e. AllSmall ((s.now.times *ℤ S.at n.now e) ∷ [])) }
{
    calc.scale_floor(n, s.times, 1)
}

/// One unit as often as a summand has it.
fn units<S: Steady>(calc: &mut S, s: &Summand) -> S::Num
    ensures { Lays S.run calc.old calc.new (S.at result) (λ e. s.now.times *ℤ pos 1)
        (λ e. AllSmall ((s.now.times *ℤ pos 1) ∷ [])) }
{
    calc.lit(i128::from(s.times))
}

/// An edge of the box that a name stands for, as often as a summand has it.
fn of_box<S: Steady>(
    calc: &mut S,
    r: &Rendering<S::Num>,
    names: &Names<'_>,
    s: &Summand,
    name: u32,
    ring: Ring,
    face: Face,
) -> S::Num
    ensures { Lays S.run calc.old calc.new (S.at result)
        (λ e. s.now.times *ℤ edge_value (scene_at S.at r.now e) (places_of names.now)
        (Edge.Name name ring face)) (λ e. AllSmall
        ((s.now.times *ℤ edge_value (scene_at S.at r.now e) (places_of names.now)
        (Edge.Name name ring face)) ∷ [])) }
{
    match find(r, names, name) {
        Some(b) => multiple(calc, s, face_of(ring_of(b, ring), face)),
        None => zero(calc),
    }
}

/// A summand of a term.
fn summand<S: Steady>(calc: &mut S, r: &Rendering<S::Num>, names: &Names<'_>, s: &Summand) -> S::Num
    ensures { Lays S.run calc.old calc.new (S.at result)
        (λ e. summand_value (scene_at S.at r.now e) (places_of names.now) s.now)
        (λ e. AllSmall
        (edge_value (scene_at S.at r.now e) (places_of names.now) s.now.edge
        ∷ summand_value (scene_at S.at r.now e) (places_of names.now) s.now ∷ [])) }
{
    match s.edge {
        Edge::One => units(calc, s),
        Edge::Name(name, ring, face) => of_box(calc, r, names, s, name, ring, face),
        Edge::ViewWidth => {
            let width = calc.width();
            multiple(calc, s, &width)
        }
        Edge::ViewHeight => {
            let height = calc.height();
            multiple(calc, s, &height)
        }
        Edge::ViewSize => {
            let size = calc.size();
            multiple(calc, s, &size)
        }
    }
}

/// The sum of summands.
fn total<S: Steady>(
    calc: &mut S,
    r: &Rendering<S::Num>,
    names: &Names<'_>,
    parts: &[Summand],
) -> S::Num
    ensures { Lays S.run calc.old calc.new (S.at result)
        (λ e. fold ◌+ℤ◌ (pos 0) (map (summand_value (scene_at S.at r.now e)
        (places_of names.now)) parts.now))
        (λ e. AllSmall (pos 0 ∷ sum_parts (scene_at S.at r.now e) (places_of names.now)
        (pos 0) parts.now)) }
{
    let mut sum = zero(calc);
    for s in parts {
        let value = summand(calc, r, names, s);
        sum = calc.add(&sum, &value);
    }
    sum
}

/// The value of a term.
pub fn term<S: Steady>(calc: &mut S, r: &Rendering<S::Num>, names: &Names<'_>, t: &Term) -> S::Num
    ensures { Lays S.run calc.old calc.new (S.at result)
        (λ e. term_value (scene_at S.at r.now e) (places_of names.now) t.now)
        (λ e. AllSmall (term_parts (scene_at S.at r.now e) (places_of names.now) t.now)) }
{
    total(calc, r, names, t.parts.as_slice())
}

/// Whether two numbers are equal.
fn equal<S: Steady>(calc: &mut S, a: &S::Num, b: &S::Num) -> bool
    ensures { Lays S.run calc.old calc.new (λ e. result) (λ e. int_eq (S.at a.now e) (S.at b.now e))
        (λ e. ⊤) }
{
    calc.le(a, b) && calc.le(b, a)
}

/// Whether a number is less than another.
fn less<S: Steady>(calc: &mut S, a: &S::Num, b: &S::Num) -> bool
    ensures { Lays S.run calc.old calc.new (λ e. result) (λ e. int_lt (S.at a.now e) (S.at b.now e))
        (λ e. ⊤) }
{
    !calc.le(b, a)
}

/// Whether a comparison is true of two numbers.
pub fn compare<S: Steady>(calc: &mut S, a: &S::Num, sign: Sign, b: &S::Num) -> bool
    ensures { Lays S.run calc.old calc.new (λ e. result)
        (λ e. compares sign (S.at a.now e) (S.at b.now e)) (λ e. ⊤) }
{
    match sign {
        Sign::Lt => less(calc, a, b),
        Sign::Le => calc.le(a, b),
        Sign::Eq => equal(calc, a, b),
        Sign::Ne => !equal(calc, a, b),
        Sign::Ge => calc.le(b, a),
        Sign::Gt => less(calc, b, a),
    }
}

/// Whether a comparison is true of the values of two terms.
pub fn comparison<S: Steady>(
    calc: &mut S,
    r: &Rendering<S::Num>,
    names: &Names<'_>,
    left: &Term,
    sign: Sign,
    right: &Term,
) -> bool
    ensures { Lays S.run calc.old calc.new (λ e. result)
        (λ e. compares sign (term_value (scene_at S.at r.now e) (places_of names.now) left.now)
        (term_value (scene_at S.at r.now e) (places_of names.now) right.now))
        (λ e. AllSmall (term_parts (scene_at S.at r.now e) (places_of names.now) left.now)
        × AllSmall (term_parts (scene_at S.at r.now e) (places_of names.now) right.now)) }
{
    let left = term(calc, r, names, left);
    let right = term(calc, r, names, right);
    compare(calc, &left, sign, &right)
}

/// Whether two spans overlap: each starts before the other ends.
fn spans_overlap<S: Steady>(
    calc: &mut S,
    a_start: &S::Num,
    a_end: &S::Num,
    b_start: &S::Num,
    b_end: &S::Num,
) -> bool
    ensures { Lays S.run calc.old calc.new (λ e. result)
        (λ e. (int_lt (S.at a_start.now e) (S.at b_end.now e) && int_lt (S.at b_start.now e)
        (S.at a_end.now e))) (λ e. ⊤) }
{
    less(calc, a_start, b_end) && less(calc, b_start, a_end)
}

/// Whether two rectangles overlap.
fn quads_overlap<S: Steady>(calc: &mut S, a: &Quad<S::Num>, b: &Quad<S::Num>) -> bool
    ensures { Lays S.run calc.old calc.new (λ e. result)
        (λ e. do_overlap (quad_at S.at a.now e) (quad_at S.at b.now e)) (λ e. ⊤) }
{
    spans_overlap(calc, &a.left, &a.right, &b.left, &b.right)
        && spans_overlap(calc, &a.top, &a.bottom, &b.top, &b.bottom)
}

/// Whether the border rectangles of the boxes that two names stand for overlap.
pub fn overlap<S: Steady>(
    calc: &mut S,
    r: &Rendering<S::Num>,
    names: &Names<'_>,
    a: u32,
    b: u32,
) -> bool
    ensures { Lays S.run calc.old calc.new (λ e. result)
        (λ e. boxes_overlap (named (scene_at S.at r.now e).boxes (places_of names.now) a)
        (named (scene_at S.at r.now e).boxes (places_of names.now) b)) (λ e. ⊤) }
{
    match (find(r, names, a), find(r, names, b)) {
        (Some(a), Some(b)) => quads_overlap(calc, &a.border, &b.border),
        _ => false,
    }
}
