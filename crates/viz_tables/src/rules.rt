use viz_base::{Text, Text8};

/// A rule of a list.
#[derive(Drop)]
pub struct Rule {
    /// Small letters, digits and `-`.
    pub name: Text8,
    pub formula: Text,
}
