//! How far the flow has come, and what it lays out (CSS 2.1, 8.3.1, 9.4.1, 9.5), in units of 1/64 px.
use lay_float::Floats;
use lay_float::trial::Trial;
use lay_margin::Run;
use viz_base::{BoxTree, Extent, List, Placed, Waiting};

/// A box ahead that is cleared, with its border edge (CSS 2.1, 9.5.2).
#[derive(Drop)]
pub struct Cleared<N> {
    /// Its place in the tree.
    pub at: u32,
    /// Its border edge.
    pub edge: N,
}

/// Where the next child of a box stands.
#[derive(Drop)]
pub enum Standing<N> {
    /// So far only margins that adjoin the box's own top margin have come: at its content top, but for a cleared box.
    AtTop { y: N, cleared: Option<Cleared<N>> },
    /// A run of adjoining margins has come since a border edge; one that is stuck does not adjoin the box's bottom
    /// margin.
    Below { edge: N, run: Run<N>, stuck: bool },
}

/// How far the flow of a block formatting context has come (CSS 2.1, 9.4.1).
#[derive(Drop)]
pub struct Context<N> {
    /// Where the next child of the box that is open stands.
    pub standing: Standing<N>,
    /// Its floats so far.
    pub floats: Floats<N>,
    /// The greatest of the outer tops of its earlier blocks and of the tops of its earlier lines.
    pub least: Option<N>,
    /// The baseline of its last line.
    pub baseline: Option<N>,
}

/// A box that is laid out in coordinates whose origin is the corner of its outer box.
#[derive(Drop)]
pub struct Independent<N> {
    /// The size of its outer box.
    pub size: Extent<N>,
    /// The baseline of its last line.
    pub baseline: Option<N>,
    /// It and what is in it.
    pub boxes: Vec<Placed<N>>,
}

/// What stays the same while the flow goes on.
#[derive(Drop)]
pub struct Page<'a, N> {
    pub tree: &'a BoxTree,
    /// The floats and atomic boxes that are laid out, by the number of their box.
    pub apart: &'a [Option<Independent<N>>],
}

/// The border edge at which a run of margins ends.
#[derive(Drop)]
pub enum Base<N> {
    /// The run begins at this edge.
    Hangs(N),
    /// At this edge, whatever the run is.
    Stands(N),
}

/// Where the margins that adjoin the top of a box end.
#[derive(Drop)]
pub enum End<N> {
    /// The box's own bottom margin adjoins.
    GoesOn,
    /// At the content, the border or the padding of a box.
    Solid,
    /// At a box that is cleared.
    Ends(Cleared<N>),
}

/// Floats that were tried where a run of margins might end.
#[derive(Drop)]
pub struct Tries<N> {
    /// Where it would end.
    pub y: N,
    /// How many of the floats that wait were tried: the first ones.
    pub count: usize,
    /// Where they would stand.
    pub trial: Trial<N>,
}

/// What the way forward from a box has found.
#[derive(Drop)]
pub struct Going<N> {
    /// The run of margins so far.
    pub run: Run<N>,
    /// The floats that wait for its end.
    pub waiting: List<Waiting<N>>,
    /// The last floats that were tried, if they are kept.
    pub tries: Option<Tries<N>>,
}

/// A box in flow that is reached.
#[derive(Drop)]
pub struct Reached<N> {
    /// Its border top.
    pub top: N,
    /// Whether it is itself the box that is cleared.
    pub clears: bool,
    /// The cleared box of its own lead.
    pub cleared: Option<Cleared<N>>,
}

/// A box in flow that is laid out.
#[derive(Drop)]
pub struct Laid<N> {
    /// Whether it collapses through.
    pub through: bool,
    /// Its border bottom.
    pub bottom: N,
    /// The margins that end it.
    pub margins: Run<N>,
}

/// A box in flow that is reached, and the run before it with its lead joined.
#[derive(Drop)]
pub struct Met<N> {
    /// Where it stands.
    pub reached: Reached<N>,
    /// The run; at the top of its container no margins.
    pub own: Run<N>,
}
