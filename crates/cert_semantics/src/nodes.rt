//! Which nodes a certificate has, and which of them decides a world.

ghost use Rattle.cert_semantics.specs.Laws.{IsPreorder, OneEnd, OneLaidOut};

/// A node comes before its children, and a first child with all below it before the second.
pub fn nodes_are_in_preorder()
    ensures { IsPreorder }
{}

/// Each world lies on the path of exactly one void, grid or leaf.
pub fn one_end_each()
    ensures { OneEnd }
{}

/// Where all nodes are well shaped and the derivations refute what they are to, each world of the range lies on the
/// path of exactly one grid or leaf.
pub fn one_grid_or_leaf_each()
    ensures { OneLaidOut }
{}
