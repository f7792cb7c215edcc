//! What a line adds to the rendering, in document order (CSS 2.1, 9.4.2).
ghost use Rattle.std.specs.Prelude.{◌≡◌, ℤ, ◌++◌, ◌∷◌, [], None, false, true, take, IsTrue, ⊤};
ghost use Rattle.viz_base.specs.declared.layouts.Entry.TheVariants as of_entry;
ghost use Rattle.std.specs.Option.{option_map_or};
ghost use Rattle.viz_calc.specs.World.{Reading};
ghost use Rattle.viz_calc.specs.State.{AllSmall};
ghost use Rattle.viz_calc.specs.Run.{Goes, Lays, LaysButMem};
ghost use Rattle.viz_calc.specs.Renderings.{spot_at};
ghost use Rattle.layout_semantics.specs.Fragments.{is_text_of as is_text_at, float_entries, spots_after};
ghost use Rattle.lay_line.specs.Contexts.{context_at};
ghost use Rattle.lay_line.specs.Items.{item_of};
ghost use Rattle.lay_line.specs.LineFits.{BoxFits, BoxesFit, OnLine, PlacesOnLine, SpotsOnLine, SetFits};
ghost use Rattle.lay_line.specs.Readings.{entry_at, entries_at, place_at, places_at, spots_at, set_line_at, before_at};
ghost use Rattle.lay_line.specs.steps.Entries.{piece_in, from_in, atomic_in, item_in, items_in, opened_in};
ghost use Rattle.lay_line.specs.steps.Lining.{entries_in};

use crate::containers::Container;
use crate::fragments::{
    SetLine, Span, atomic_entry, inline_fragment, is_text_of, text_fragment, text_right,
};
use crate::items::Item;
use crate::places::ItemPlace;
use viz_base::{Entry, List, Spot};
use viz_calc::Steady;

/// Adds an entry.
pub fn add_entry<S: Steady>(calc: &mut S, entries: &mut List<Entry<S::Num>>, entry: Entry<S::Num>)
    ensures { LaysButMem S.run calc.old calc.new (entries_at S.at entries.new)
        (λ e. entries_at S.at entries.old e ++ entry_at S.at entry e ∷ []) (λ e. ⊤) }
{
    if entries.push(entry).is_err() {
        calc.stop();
    }
}

/// A place on a line, between those before and after it, and where the floats stand that are left.
#[derive(Drop)]
pub struct Here<'p, 'a, N> {
    /// The one before it, if any.
    pub before: Option<&'p ItemPlace<'a, N>>,
    /// The place itself.
    pub place: &'p ItemPlace<'a, N>,
    /// Those after it, in order.
    pub after: &'p [ItemPlace<'a, N>],
    /// The floats that are left: the places of their boxes in the tree, and where they stand, in units of 1/64 px.
    pub spots: &'p [(u32, Spot<N>)],
}

/// Whether the place before is of the same text.
fn goes_on<N>(at: u32, before: Option<&ItemPlace<N>>) -> bool
    ensures { (read : N → Reading → ℤ) (e : Reading) → result
        ≡ option_map_or (is_text_at at) (before_at read before.entry e) false }
{
    match before {
        Some(place) => is_text_of(at, place),
        None => false,
    }
}

#[tactic(auto, unfolding(crate::specs::steps::Entries::piece_in))]
/// Adds a piece of a text at the first of its words and spaces.
fn add_text<S: Steady>(
    calc: &mut S,
    container: &Container<'_, S::Num>,
    line: &SetLine<'_, '_, S::Num>,
    at: u32,
    here: &Here<'_, '_, S::Num>,
    entries: &mut List<Entry<S::Num>>,
)
    ensures { LaysButMem S.run calc.old calc.new (entries_at S.at entries.new)
        (λ e. entries_at S.at entries.old e
        ++ piece_in (context_at S.at container.now e) (set_line_at S.at line.now e) at
        (before_at S.at here.now.before e) (place_at S.at here.now.place.now e)
        (places_at S.at here.now.after.now e))
        (λ e. BoxFits (context_at S.at container.now e) at
        × (OnLine (S.at line.now.baseline e ∷ S.at here.now.place.now.left e
        ∷ S.at here.now.place.now.right e ∷ [])
        × PlacesOnLine (places_at S.at here.now.after.now e))) }
{
    if goes_on(at, here.before) {
        return;
    }
    let right = text_right(at, &here.place.right, here.after);
    let entry = text_fragment(calc, container, line, at, &here.place.left, right);
    add_entry(calc, entries, entry);
}

/// A spot again.
fn copy_spot<S: Steady>(calc: &mut S, spot: &Spot<S::Num>) -> Spot<S::Num>
    ensures { Lays S.run calc.old calc.new (spot_at S.at result) (spot_at S.at spot.now)
        (λ e. AllSmall (S.at spot.now.x e ∷ S.at spot.now.y e ∷ [])) }
{
    let x = calc.copy(&spot.x);
    let y = calc.copy(&spot.y);
    Spot { x, y }
}

/// Adds a float, which goes to where it stands.
fn add_float<S: Steady>(
    calc: &mut S,
    at: u32,
    spot: &Spot<S::Num>,
    entries: &mut List<Entry<S::Num>>,
)
    ensures { LaysButMem S.run calc.old calc.new (entries_at S.at entries.new)
        (λ e. entries_at S.at entries.old e ++ of_entry.Goes at (spot_at S.at spot.now e) ∷ [])
        (λ e. AllSmall (S.at spot.now.x e ∷ S.at spot.now.y e ∷ [])) }
{
    let spot = copy_spot(calc, spot);
    add_entry(calc, entries, Entry::Goes(at, spot));
}

/// Adds the first of the floats that are left.
fn add_first<S: Steady>(
    calc: &mut S,
    spots: &[(u32, Spot<S::Num>)],
    entries: &mut List<Entry<S::Num>>,
)
    ensures { LaysButMem S.run calc.old calc.new (entries_at S.at entries.new)
        (λ e. entries_at S.at entries.old e ++ float_entries (take 1 (spots_at S.at spots.now e)))
        (λ e. SpotsOnLine (spots_at S.at spots.now e)) }
{
    if let Some((first, _)) = spots.split_first() {
        add_float(calc, first.0, &first.1, entries);
    }
}

/// Adds floats, each of which goes to where it stands.
pub fn add_floats<S: Steady>(
    calc: &mut S,
    spots: &[(u32, Spot<S::Num>)],
    entries: &mut List<Entry<S::Num>>,
)
    ensures { LaysButMem S.run calc.old calc.new (entries_at S.at entries.new)
        (λ e. entries_at S.at entries.old e ++ float_entries (spots_at S.at spots.now e))
        (λ e. SpotsOnLine (spots_at S.at spots.now e)) }
{
    for spot in spots {
        add_float(calc, spot.0, &spot.1, entries);
    }
}

/// Adds the fragment of an inline box that starts here.
fn add_start<S: Steady>(
    calc: &mut S,
    container: &Container<'_, S::Num>,
    line: &SetLine<'_, '_, S::Num>,
    at: u32,
    here: &Here<'_, '_, S::Num>,
    entries: &mut List<Entry<S::Num>>,
)
    ensures { LaysButMem S.run calc.old calc.new (entries_at S.at entries.new)
        (λ e. entries_at S.at entries.old e
        ++ from_in (context_at S.at container.now e) (set_line_at S.at line.now e) at true
        (S.at here.now.place.now.right e) (places_at S.at here.now.after.now e) ∷ [])
        (λ e. BoxFits (context_at S.at container.now e) at
        × (OnLine (S.at line.now.baseline e ∷ S.at here.now.place.now.right e
        ∷ S.at line.now.right e ∷ []) × PlacesOnLine (places_at S.at here.now.after.now e))) }
{
    let span = Span {
        starts: true,
        left: &here.place.right,
        after: here.after,
    };
    let entry = inline_fragment(calc, container, line, at, &span);
    add_entry(calc, entries, entry);
}

/// Adds an atomic box.
fn add_atomic<S: Steady>(
    calc: &mut S,
    container: &Container<'_, S::Num>,
    line: &SetLine<'_, '_, S::Num>,
    at: u32,
    left: &S::Num,
    entries: &mut List<Entry<S::Num>>,
)
    ensures { LaysButMem S.run calc.old calc.new (entries_at S.at entries.new)
        (λ e. entries_at S.at entries.old e
        ++ atomic_in (context_at S.at container.now e) (set_line_at S.at line.now e) at
        (S.at left.now e) ∷ []) (λ e. BoxFits (context_at S.at container.now e) at
        × OnLine (S.at line.now.baseline e ∷ S.at left.now e ∷ [])) }
{
    let entry = atomic_entry(calc, container, line, at, left);
    add_entry(calc, entries, entry);
}

#[tactic(auto, unfolding(crate::specs::steps::Entries::item_in))]
/// Adds what an item of the line adds.
fn add_item<S: Steady>(
    calc: &mut S,
    container: &Container<'_, S::Num>,
    line: &SetLine<'_, '_, S::Num>,
    here: &Here<'_, '_, S::Num>,
    entries: &mut List<Entry<S::Num>>,
)
    ensures { LaysButMem S.run calc.old calc.new (entries_at S.at entries.new)
        (λ e. entries_at S.at entries.old e
        ++ item_in (context_at S.at container.now e) (set_line_at S.at line.now e)
        (before_at S.at here.now.before e) (place_at S.at here.now.place.now e)
        (places_at S.at here.now.after.now e) (spots_at S.at here.now.spots.now e))
        (λ e. BoxesFit (context_at S.at container.now e)
        × (OnLine (S.at line.now.baseline e ∷ S.at line.now.right e ∷ [])
        × (OnLine (S.at here.now.place.now.left e ∷ S.at here.now.place.now.right e ∷ [])
        × (PlacesOnLine (places_at S.at here.now.after.now e)
        × SpotsOnLine (spots_at S.at here.now.spots.now e))))) }
{
    match &here.place.item {
        Item::Start(at) => add_start(calc, container, line, *at, here, entries),
        Item::Word(at, _) => add_text(calc, container, line, *at, here, entries),
        Item::Space(at) => add_text(calc, container, line, *at, here, entries),
        Item::Atomic(at) => add_atomic(calc, container, line, *at, &here.place.left, entries),
        Item::Float(_) => add_first(calc, here.spots, entries),
        Item::Finish(_) | Item::Forced(_) => {}
    }
}

/// The floats that are left behind an item.
fn spots_behind<'p, N>(item: &Item, spots: &'p [(u32, Spot<N>)]) -> &'p [(u32, Spot<N>)]
    ensures { (read : N → Reading → ℤ) (e : Reading) → spots_at read result.now e
        ≡ spots_after (item_of item.now) (spots_at read spots.now e) }
{
    match item {
        Item::Float(_) => match spots.split_first() {
            Some((_, rest)) => rest,
            None => spots,
        },
        _ => spots,
    }
}

/// Adds what the items of a line add, in their order.
fn add_items<'p, 'a: 'p, S: Steady>(
    calc: &mut S,
    container: &Container<'_, S::Num>,
    line: &SetLine<'p, 'a, S::Num>,
    entries: &mut List<Entry<S::Num>>,
)
    ensures { LaysButMem S.run calc.old calc.new (entries_at S.at entries.new)
        (λ e. entries_at S.at entries.old e
        ++ items_in (context_at S.at container.now e) (set_line_at S.at line.now e) None
        (places_at S.at line.now.places.now e) (spots_at S.at line.now.spots.now e))
        (λ e. BoxesFit (context_at S.at container.now e) × SetFits (set_line_at S.at line.now e)) }
{
    let mut before = None;
    let mut spots = line.spots;
    let mut count = 0;
    for place in line.places {
        count += 1;
        let (_, after) = line.places.split_at(count);
        let here = Here {
            before,
            place,
            after,
            spots,
        };
        add_item(calc, container, line, &here, entries);
        before = Some(place);
        spots = spots_behind(&place.item, spots);
    }
}

/// Adds the pieces of the inline boxes that are open at the line's start.
fn add_opened<'p, 'a: 'p, S: Steady>(
    calc: &mut S,
    container: &Container<'_, S::Num>,
    line: &SetLine<'p, 'a, S::Num>,
    opened: &[u32],
    entries: &mut List<Entry<S::Num>>,
)
    ensures { LaysButMem S.run calc.old calc.new (entries_at S.at entries.new)
        (λ e. entries_at S.at entries.old e
        ++ opened_in (context_at S.at container.now e) (set_line_at S.at line.now e) opened.now)
        (λ e. BoxesFit (context_at S.at container.now e) × SetFits (set_line_at S.at line.now e)) }
{
    for at in opened {
        let span = Span {
            starts: false,
            left: &line.left,
            after: line.places,
        };
        let entry = inline_fragment(calc, container, line, *at, &span);
        add_entry(calc, entries, entry);
    }
}

/// Adds what is on a line: first the pieces of the inline boxes that are open at its start, outermost first, and then
/// its content in document order.
pub fn add_line_entries<'p, 'a: 'p, S: Steady>(
    calc: &mut S,
    container: &Container<'_, S::Num>,
    line: &SetLine<'p, 'a, S::Num>,
    opened: &[u32],
    entries: &mut List<Entry<S::Num>>,
)
    ensures { LaysButMem S.run calc.old calc.new (entries_at S.at entries.new)
        (λ e. entries_at S.at entries.old e
        ++ entries_in (context_at S.at container.now e) (set_line_at S.at line.now e) opened.now)
        (λ e. BoxesFit (context_at S.at container.now e) × SetFits (set_line_at S.at line.now e)) }
{
    add_opened(calc, container, line, opened, entries);
    add_items(calc, container, line, entries);
}
