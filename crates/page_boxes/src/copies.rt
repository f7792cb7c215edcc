//! Copies of fonts and of the parents of nodes.
ghost use Rattle.std.specs.Prelude.{◌≡◌, IfOk};
ghost use Rattle.layout_semantics.specs.BoxTrees.{tree_parents};

use std::alloc::{AllocError, Global};
use viz_base::{Font, List, Node};

fn copy_font(alloc: Global, font: &Font) -> Result<Font, AllocError>
    ensures { IfOk result (λ copy. copy ≡ font.now) }
{
    Ok(Font {
        name: font.name.clone()?,
        upem: font.upem,
        ascent: font.ascent,
        descent: font.descent,
        other: font.other,
        advances: List::from_slice(alloc, font.advances.as_slice())?,
    })
}

/// A copy of fonts.
pub fn copy_fonts(alloc: Global, fonts: &[Font]) -> Result<List<Font>, AllocError>
    ensures { IfOk result (λ copies. copies ≡ fonts.now) }
{
    let mut copies = List::new(alloc);
    for font in fonts {
        copies.push(copy_font(alloc, font)?)?;
    }
    Ok(copies)
}

/// The parent of each node.
pub fn parents_of(alloc: Global, nodes: &[Node]) -> Result<List<Option<u32>>, AllocError>
    ensures { IfOk result (λ parents. parents ≡ tree_parents nodes.now) }
{
    let mut parents = List::new(alloc);
    for node in nodes {
        parents.push(node.parent)?;
    }
    Ok(parents)
}
