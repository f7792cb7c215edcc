//! What well shaped nodes are good for.

ghost use Rattle.cert_semantics.specs.Laws.{FirstFaultOrNone, OneFirstFault, RectangleIsUnits, ShapedDefsAreFit, ShapedIsSound};

/// A def is well shaped exactly where its row has variables, all of them declared on the path, its number is above 1,
/// each number of its row is from 0 to that number less 1, and no def of the path is the same.
pub fn well_shaped_defs()
    ensures { ShapedDefsAreFit }
{}

/// Below well shaped nodes each row names declared variables alone, and each floor is by a number above 0.
pub fn steps_below_shaped_nodes_are_sound()
    ensures { ShapedIsSound }
{}

/// A certificate has exactly one first badly shaped node, or all its nodes are well shaped.
pub fn one_first_fault()
    ensures some { FirstFaultOrNone }
    ensures one { OneFirstFault }
{}

/// The rectangle of a path has exactly the worlds of the range at which its unit splits are taken as it says.
pub fn a_rectangle_is_cut_by_unit_splits()
    ensures { RectangleIsUnits }
{}
