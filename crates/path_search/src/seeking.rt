//! The search for nodes: a page is laid out over a path, which is split by the row that is left open.
ghost use Rattle.std.specs.Prelude.{◌≡◌, ◌≤◌};

use crate::heights::{flattened, is_flat, rests_on_height};
use crate::rectangles::{Budget, budget_of, rectangle};
use crate::runs::{Outcome, ask_premises, outcome_of, truth_over};
use crate::slices::{ends_met, pools_under, slices_of};
use crate::tiling::{Cut, cut_of_flat, cut_of_tiles};
use cert_semantics::{axis_of, cut_of, variable_of};
use cert_text::{Cert, CertNode};
use lin_proof::{Derivation, Row, RowFault};
use lin_search::{Search, refute};
use path_calc::{
    Footing, Found, Known, LIMIT, Opening, Pool, Seeker, floor_of, value_of, variable_count,
};
use std::alloc::{AllocError, AllocFailed, Global};
use sym_calc::{Floor, Path};
use viz_base::{Axis, Boxed, Child, Job, Mem, Rect, World, lies_in, middle, part_of};
use viz_calc::{Halt, Plain};

/// What a search comes to. None of it is certain.
#[derive(Drop)]
pub enum Finding {
    /// The job may hold by this certificate.
    Proof(Cert),
    /// The formula may be false at this world.
    World(World),
    /// Neither was found.
    Nothing,
}

/// Why a part of the range has no node.
#[derive(Clone, Copy)]
pub enum Stop {
    /// Want of memory, and nothing else.
    Mem,
    /// The formula is false at this world.
    Untrue(World),
    /// The search gives up: the turns or the depth don't do, or it made a mistake.
    GaveUp,
}

impl From<Mem> for Stop {
    fn from(_: Mem) -> Self {
        Stop::Mem
    }
}

impl From<AllocError> for Stop {
    fn from(_: AllocError) -> Self {
        Stop::Mem
    }
}

impl<T: Drop> From<AllocFailed<T>> for Stop {
    fn from(_: AllocFailed<T>) -> Self {
        Stop::Mem
    }
}

impl From<RowFault> for Stop {
    fn from(fault: RowFault) -> Self {
        match fault {
            RowFault::Mem => Stop::Mem,
            RowFault::Coeff => Stop::GaveUp,
        }
    }
}

/// Where a search stands.
#[derive(Drop)]
pub struct Place<'a> {
    /// Where it allocates.
    pub alloc: Global,
    /// What is to be proved.
    pub job: &'a Job,
    /// What holds here.
    pub path: Path,
    /// The numbers of the first facts of the floors that the path names.
    named: Vec<u32>,
    /// The answers of the runs that led here.
    pub found: Vec<Found>,
    /// The nodes that were found and are part of no other one yet.
    pub nodes: Vec<CertNode>,
    /// How many leaves trees are to have.
    pub budget: Budget,
    /// Whether layouts answer alike at all heights, as far as is known: then one stands for all.
    pub is_flat: bool,
    /// How many paths may still be taken for what is kept: a split takes one, and so does a grid or a leaf.
    pub turns: u64,
    /// How many paths may still be taken by trees that are given up.
    pub spare: u64,
}

impl<'a> Place<'a> {
    /// The beginning of a search.
    fn new(alloc: Global, job: &'a Job, turns: u64) -> Result<Self, Mem> {
        let path = Path::new(alloc, job.form, job.range)?;
        Ok(Place {
            alloc,
            job,
            path,
            named: Vec::new(alloc),
            found: Vec::new(alloc),
            nodes: Vec::new(alloc),
            budget: budget_of(turns, job.range),
            is_flat: is_flat(alloc, job)?,
            // So many grids and leaves have one split less above them.
            turns: turns.saturating_mul(2).saturating_sub(1),
            spare: turns.saturating_mul(4),
        })
    }

    /// What of a rectangle has to be looked at: one height, where that stands for all.
    pub fn seen(&self, rect: Rect) -> Rect {
        if self.is_flat { flattened(rect) } else { rect }
    }
}

/// The worlds of a path that lie in a rectangle, and how many nodes may stand in one another there.
#[derive(Clone, Copy)]
pub struct Part {
    /// The rectangle.
    pub rect: Rect,
    /// How many nodes may stand in one another.
    pub depth: u32,
}

impl Part {
    /// The part below one more node.
    pub fn lower(self) -> Result<Part, Stop> {
        match self.depth.checked_sub(1) {
            Some(depth) => Ok(Part {
                rect: self.rect,
                depth,
            }),
            None => Err(Stop::GaveUp),
        }
    }
}

/// How many worlds a grid has at most.
pub const GRID: u64 = 64;

/// How many nodes stand at most in one another.
// A certificate's text takes 512 levels.
const DEPTH: u32 = 480;

/// How many of the nodes that may stand in one another are kept for halvings.
const HALVINGS: u32 = 60;

/// Searches for a certificate of a job, or for a world of its range at which its formula is false.
pub fn seek(alloc: Global, job: &Job, turns: u64) -> Result<Finding, Mem> {
    if turns == 0 {
        return Ok(Finding::Nothing);
    }
    let mut place = Place::new(alloc, job, turns)?;
    let sought = sought(&mut place);
    finding_of(job, sought, place.nodes.pop())
}

/// What a search comes to whose last node is this.
fn finding_of(job: &Job, sought: Result<(), Stop>, root: Option<CertNode>) -> Result<Finding, Mem> {
    match (sought, root) {
        (Ok(()), Some(root)) => Ok(Finding::Proof(Cert {
            form: 1,
            job: job.digest,
            root,
        })),
        (Err(Stop::Untrue(world)), _) => Ok(Finding::World(world)),
        (Err(Stop::Mem), _) => Err(Mem),
        (Ok(()), None) | (Err(Stop::GaveUp), _) => Ok(Finding::Nothing),
    }
}

/// Finds the node of the whole range, after a look at its corners.
fn sought(place: &mut Place<'_>) -> Result<(), Stop> {
    let range = place.job.range;
    first_pool(place, range)?;
    rectangle(
        place,
        Part {
            rect: range,
            depth: DEPTH,
        },
    )
}

/// Puts a node behind those that were found.
fn put(nodes: &mut Vec<CertNode>, node: CertNode) -> Result<(), Stop> {
    match nodes.push(node) {
        Ok(()) => Ok(()),
        Err(_) => Err(Stop::Mem),
    }
}

/// The corners of a rectangle, the middles of its edges, and its own, each where the formula is true.
pub fn first_pool(place: &Place<'_>, rect: Rect) -> Result<Pool, Stop> {
    // An end of the range is where a rule is most likely to break.
    let rect = place.seen(rect);
    let mut pool = Pool::new(place.alloc);
    for w in middle_and_ends(place.alloc, rect.wl, rect.wh)? {
        for s in middle_and_ends(place.alloc, rect.sl, rect.sh)? {
            meet_heights(place, &mut pool, rect, w, s)?;
        }
    }
    pool.slices = slices_of(place.alloc, rect)?;
    Ok(pool)
}

/// Adds the worlds of a width, a size and the ends and the middle of a rectangle's heights to the known ones, or stops
/// at one where the formula is false.
fn meet_heights(
    place: &Place<'_>,
    pool: &mut Pool,
    rect: Rect,
    w: u32,
    s: u32,
) -> Result<(), Stop> {
    for h in middle_and_ends(place.alloc, rect.hl, rect.hh)? {
        let known = Known::new(place.alloc, place.job.form, World { w, s, h })?;
        meet(place, pool, known)?;
    }
    Ok(())
}

/// The middle of a range and its ends, each once.
pub fn middle_and_ends(alloc: Global, least: u32, most: u32) -> Result<Vec<u32>, AllocError> {
    let mut found = Vec::new(alloc);
    for number in [middle(least, most), least, most] {
        if !found.contains(&number) {
            found.push(number)?;
        }
    }
    Ok(found)
}

/// Adds a world to the known ones, or stops at it where the formula is false.
fn meet(place: &Place<'_>, pool: &mut Pool, known: Known) -> Result<(), Stop> {
    if let Some(world) = known.world(place.job.form, place.job.range) {
        try_world(place, world)?;
    }
    pool.worlds.push(known)?;
    Ok(())
}

/// Stops at a world of the range at which the formula is false.
fn try_world(place: &Place<'_>, world: World) -> Result<(), Stop> {
    if lies_in(place.job.range, world) && !is_true_at(place, world)? {
        return Err(Stop::Untrue(world));
    }
    Ok(())
}

/// Whether the formula is true at a world.
fn is_true_at(place: &Place<'_>, world: World) -> Result<bool, Stop> {
    match truth_over(place.alloc, place.job, &mut Plain::new(world)) {
        Ok(yes) => Ok(yes),
        Err(Halt::Mem) => Err(Stop::Mem),
        Err(_) => Err(Stop::GaveUp),
    }
}

/// How many worlds a rectangle has.
pub fn count_of(rect: Rect) -> u64 {
    let widths = u64::from(rect.wh.saturating_sub(rect.wl)).saturating_add(1);
    let sizes = u64::from(rect.sh.saturating_sub(rect.sl)).saturating_add(1);
    let heights = u64::from(rect.hh.saturating_sub(rect.hl)).saturating_add(1);
    widths.saturating_mul(sizes).saturating_mul(heights)
}

/// Finds the node of a path, of which worlds are known, within a rectangle.
#[cycle(nodes)]
pub fn explore(place: &mut Place<'_>, pool: &mut Pool, part: Part) -> Result<(), Stop>
    ensures falls { place.new.turns ≤ place.old.turns }
{
    let Some(turns) = place.turns.checked_sub(1) else {
        return Err(Stop::GaveUp);
    };
    place.turns = turns;
    // Whether the formula is true at each world of a grid is what the checker sees.
    // So few worlds are sooner gone through than laid out together.
    if count_of(part.rect) <= GRID {
        return put(&mut place.nodes, CertNode::Grid);
    }
    match laid_out(place, pool)? {
        Outcome::True(answers) => put(&mut place.nodes, CertNode::Leaf(answers)),
        Outcome::False => Err(untrue(place, pool)),
        // Nothing is known of the part then; its halves are tried by themselves.
        Outcome::TooLarge => halve(place, pool, part),
        Outcome::Lost => Err(Stop::GaveUp),
        Outcome::Open(opening) => open(place, pool, part, opening),
    }
}

/// Lays out the page over all worlds of a path.
fn laid_out(place: &mut Place<'_>, pool: &mut Pool) -> Result<Outcome, Mem>
    ensures { place.new.turns ≡ place.old.turns }
{
    let Some(footing) = Footing::on(&place.path, place.named.as_slice()) else {
        return Ok(Outcome::Lost);
    };
    let variables = footing.variables as usize;
    let mut seeker = Seeker::new(footing, pool, &mut place.found)?;
    let answer = truth_over(place.alloc, place.job, &mut seeker);
    let outcome = outcome_of(&mut seeker, answer);
    drop(seeker);
    pool.forget(variables);
    outcome
}

/// The premise without quantifiers that is left open on a path on which nothing was found yet, if one is.
pub fn open_premise(place: &mut Place<'_>, pool: &mut Pool) -> Result<Option<Opening>, Mem>
    ensures { place.new.turns ≡ place.old.turns }
{
    let Some(footing) = Footing::on(&place.path, place.named.as_slice()) else {
        return Ok(None);
    };
    let mut seeker = Seeker::new(footing, pool, &mut place.found)?;
    let asked = ask_premises(place.alloc, place.job, &mut seeker);
    let opening = seeker.opened();
    drop(seeker);
    place.found.truncate(0);
    asked?;
    Ok(opening)
}

/// The formula is false at each of these worlds.
fn untrue(place: &Place<'_>, pool: &Pool) -> Stop {
    match pool.first_world(place.job.form, place.job.range) {
        Some(world) => Stop::Untrue(world),
        None => Stop::GaveUp,
    }
}

/// Adds the values of the floors of a path at a world.
pub fn add_floors(path: &Path, known: &mut Known) -> Result<(), Stop> {
    for number in 0..path.floors.len() {
        if let Some(floor) = path.floors.get(number) {
            match floor_of(&floor.row, floor.by, known.values.as_slice()) {
                Some(value) => known.values.push(value)?,
                None => return Err(Stop::GaveUp),
            }
        }
    }
    Ok(())
}

/// Whether the facts of a path hold at values of its variables.
pub fn meets_facts(path: &Path, values: &[i128]) -> Result<bool, Stop> {
    for fact in &path.facts {
        match value_of(fact, values) {
            Some(value) if value < 0 => return Ok(false),
            Some(_) => {}
            None => return Err(Stop::GaveUp),
        }
    }
    Ok(true)
}

/// Finds the node of a path on which a row is left open.
#[cycle(nodes)]
fn open(place: &mut Place<'_>, pool: &mut Pool, part: Part, opening: Opening) -> Result<(), Stop>
    ensures falls { place.new.turns ≤ place.old.turns }
{
    let Opening { floors, row, point } = opening;
    if place.is_flat && rests_on_height(&place.path, floors.as_slice(), &row)? {
        place.is_flat = false;
    }
    if let Some(known) = point {
        meet(place, pool, known)?;
    }
    // Floors of the row become defs above the split; where too many stand above, a plain half needs none.
    if has_room(part.depth, floors.as_slice()) {
        define(place, pool, part, floors, &row)
    } else {
        halve(place, pool, part)
    }
}

/// Whether a split may stand below the definitions of floors.
fn has_room(depth: u32, floors: &[Floor]) -> bool {
    (depth.saturating_sub(HALVINGS) as usize) > floors.len()
}

/// A row of the same signs: one with the coefficient 1 or -1 for a row of one axis alone, and else the row itself.
pub fn cut_once(alloc: Global, form: u8, row: &Row) -> Result<Row, Stop> {
    // A row of one axis cuts the rectangle only with the coefficient 1 or -1, and its grids are smaller then.
    let unit = match row.terms.as_slice() {
        [term] => match axis_of(form, term.0) {
            Some(axis) => unit_row(alloc, row.k, axis, term.1)?,
            None => None,
        },
        _ => None,
    };
    match unit {
        Some(unit) => Ok(unit),
        None => Ok(row.clone()?),
    }
}

fn unit_row(
    alloc: Global,
    k: i128,
    axis: Axis,
    coefficient: i128,
) -> Result<Option<Row>, AllocError> {
    let Some(size) = coefficient.checked_abs() else {
        return Ok(None);
    };
    if size <= 0 {
        return Ok(None);
    }
    let bound = k.div_euclid(size);
    let variable = variable_of(axis);
    let row = if coefficient > 0 {
        Row::of_term(alloc, bound, variable, 1)?
    } else {
        Row::of_term(alloc, bound, variable, -1)?
    };
    Ok(Some(row))
}

/// Finds the node of a path within a rectangle by the two parts into which this is cut.
#[cycle(nodes)]
fn halve(place: &mut Place<'_>, pool: &mut Pool, part: Part) -> Result<(), Stop>
    ensures falls { place.new.turns ≤ place.old.turns }
{
    let row = halving(place, part.rect)?;
    split(place, pool, part, &row)
}

/// That a world is in the first of the two parts into which a rectangle is cut.
pub fn halving(place: &Place<'_>, rect: Rect) -> Result<Row, AllocError> {
    let Cut { axis, last } = if place.is_flat {
        cut_of_flat(rect)
    } else {
        cut_of_tiles(rect)
    };
    Row::of_term(place.alloc, i128::from(last), variable_of(axis), -1)
}

/// Finds the node of a path that is split by a row after floors are named.
#[cycle(nodes)]
fn define(
    place: &mut Place<'_>,
    pool: &mut Pool,
    part: Part,
    floors: Vec<Floor>,
    row: &Row,
) -> Result<(), Stop>
    ensures falls { place.new.turns ≤ place.old.turns }
{
    below_floors(place, pool, part, floors.as_slice(), row)?;
    put_defined(place.alloc, &mut place.nodes, floors)
}

/// Finds the node below the definitions of floors, which is split by a row.
#[cycle(nodes)]
fn below_floors(
    place: &mut Place<'_>,
    pool: &mut Pool,
    part: Part,
    floors: &[Floor],
    row: &Row,
) -> Result<(), Stop>
    ensures falls { place.new.turns ≤ place.old.turns }
{
    let facts = place.path.facts.len();
    let named = place.path.floors.len();
    let mut below = part;
    for floor in floors {
        name(place, pool, floor)?;
        below.depth = below.depth.saturating_sub(1);
    }
    let row = cut_once(place.alloc, place.job.form, row)?;
    let found = split(place, pool, below, &row);
    leave(place, facts, named);
    found
}

/// Puts the last node below the definitions of floors.
fn put_defined(alloc: Global, nodes: &mut Vec<CertNode>, floors: Vec<Floor>) -> Result<(), Stop> {
    for floor in floors.into_iter().rev() {
        put_below(alloc, nodes, floor)?;
    }
    Ok(())
}

/// Puts the last node below the definition of a floor.
fn put_below(alloc: Global, nodes: &mut Vec<CertNode>, floor: Floor) -> Result<(), Stop> {
    match nodes.pop() {
        Some(node) => put(nodes, below_def(alloc, floor, node)?),
        None => Err(Stop::GaveUp),
    }
}

fn below_def(alloc: Global, floor: Floor, node: CertNode) -> Result<CertNode, Mem> {
    let Floor { row, by } = floor;
    let node = Boxed::new(alloc, node)?;
    let row = Boxed::new(alloc, row)?;
    Ok(CertNode::Def(row, Boxed::new(alloc, by)?, node))
}

/// Names a floor on the path.
fn name(place: &mut Place<'_>, pool: &mut Pool, floor: &Floor) -> Result<(), Stop>
    ensures { place.new.turns ≡ place.old.turns }
{
    if floor.by <= 0 || place.path.floors.place_of(floor).is_some() {
        return Err(Stop::GaveUp);
    }
    if !pool.name(&floor.row, floor.by)? {
        return Err(Stop::GaveUp);
    }
    let Ok(fact) = u32::try_from(place.path.facts.len()) else {
        return Err(Stop::GaveUp);
    };
    let Some(variable) = variable_count(&place.path) else {
        return Err(Stop::GaveUp);
    };
    place.named.push(fact)?;
    let row = floor.row.clone()?;
    place.path.define(Floor { row, by: floor.by }, variable)?;
    Ok(())
}

/// Goes back to where there were so many facts and floors.
pub fn leave(place: &mut Place<'_>, facts: usize, floors: usize)
    ensures { place.new.turns ≡ place.old.turns }
{
    place.path.leave(facts, floors);
    place.named.truncate(floors);
}

/// Finds the node of a path that is split by a row.
#[cycle(nodes)]
fn split(place: &mut Place<'_>, pool: &mut Pool, part: Part, row: &Row) -> Result<(), Stop>
    ensures falls { place.new.turns ≤ place.old.turns }
{
    let part = part.lower()?;
    let (mut first, mut second) = pools_under(place, pool, row)?;
    branch(place, &mut first, Child::First, part, row)?;
    branch(place, &mut second, Child::Second, part, row)?;
    put_split(place.alloc, &mut place.nodes, row)
}

/// Finds the node of one side of a split, with the path as it was before.
#[cycle(nodes)]
fn branch(
    place: &mut Place<'_>,
    pool: &mut Pool,
    child: Child,
    part: Part,
    row: &Row,
) -> Result<(), Stop>
    ensures falls { place.new.turns ≤ place.old.turns }
{
    let facts = place.path.facts.len();
    let named = place.path.floors.len();
    let known = place.found.len();
    enter(place, child, row)?;
    ends_met(place, pool)?;
    let found = side(place, pool, below(place.job.form, row, child, part));
    leave(place, facts, named);
    // Answers found on one side rest on its row; those from above the split hold on both.
    place.found.truncate(known);
    found
}

/// Goes to a child of a split.
pub fn enter(place: &mut Place<'_>, child: Child, row: &Row) -> Result<(), Stop>
    ensures { place.new.turns ≡ place.old.turns }
{
    match child {
        Child::First => place.path.enter_first(row)?,
        Child::Second => place.path.enter_second(row)?,
    }
    Ok(())
}

/// Makes one node, a split by a row, of the two that were found last.
pub fn put_split(alloc: Global, nodes: &mut Vec<CertNode>, row: &Row) -> Result<(), Stop> {
    let second = nodes.pop();
    match nodes.pop().zip(second) {
        Some((first, second)) => put(nodes, split_by(alloc, row, first, second)?),
        None => Err(Stop::GaveUp),
    }
}

/// The split by a row whose sides have these nodes.
fn split_by(alloc: Global, row: &Row, first: CertNode, second: CertNode) -> Result<CertNode, Mem> {
    let first = Boxed::new(alloc, first)?;
    let second = Boxed::new(alloc, second)?;
    let row = Boxed::new(alloc, row.clone()?)?;
    Ok(CertNode::Split(row, first, second))
}

/// The worlds of a part that lie under a child of a split; only a unit split cuts it.
pub fn below(form: u8, row: &Row, child: Child, part: Part) -> Option<Part> {
    let rect = match cut_of(form, row) {
        Some(cut) => part_of(cut, child, part.rect)?,
        None => part.rect,
    };
    Some(Part {
        rect,
        depth: part.depth,
    })
}

/// Finds the node of one side of a split.
#[cycle(nodes)]
fn side(place: &mut Place<'_>, pool: &mut Pool, part: Option<Part>) -> Result<(), Stop>
    ensures falls { place.new.turns ≤ place.old.turns }
{
    if let Some(why) = emptiness(place, pool)? {
        return put_void(place.alloc, &mut place.nodes, why);
    }
    match part {
        Some(part) => explore(place, pool, part),
        None => Err(Stop::GaveUp),
    }
}

/// Puts a node of a path without worlds.
fn put_void(alloc: Global, nodes: &mut Vec<CertNode>, why: Derivation) -> Result<(), Stop> {
    put(nodes, CertNode::Void(Boxed::new(alloc, why)?))
}

/// Why a path has no worlds. None where one is known, or is found, and known from then on.
fn emptiness(place: &Place<'_>, pool: &mut Pool) -> Result<Option<Derivation>, Stop> {
    // A known world shows that the part is not empty, and saves the search.
    if !pool.worlds.is_empty() {
        return Ok(None);
    }
    let Some(variables) = variable_count(&place.path) else {
        return Err(Stop::GaveUp);
    };
    match refute(place.alloc, place.path.facts.as_slice(), variables, LIMIT)? {
        Search::Found(why) => Ok(Some(why)),
        Search::Point(values) => {
            let values = values.into_vec();
            meet(place, pool, Known { values })?;
            Ok(None)
        }
        Search::GaveUp => Err(Stop::GaveUp),
    }
}
