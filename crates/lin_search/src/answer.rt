use lin_proof::Derivation;
use viz_base::List;

/// What a search for a contradiction among facts comes to.
#[derive(Drop)]
pub enum Search {
    /// No values of the variables meet all facts, as this derivation shows.
    Found(Derivation),
    /// Values of the variables, by their numbers, that meet all facts.
    Point(List<i128>),
    /// Neither was found within the limit.
    GaveUp,
}
