use lin_proof::Derivation;
use viz_base::List;

/// What a search proposes. Nothing is promised of it.
#[derive(Drop)]
pub enum Proposal {
    /// That no values of the variables meet all facts, by this derivation.
    Found(Derivation),
    /// That these values of the variables, by their numbers, meet all facts.
    Point(List<i128>),
    /// Nothing: the limit was reached before.
    GaveUp,
}
