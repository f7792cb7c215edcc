//! A block container of lines (CSS 2.1, 9.4.2).
ghost use Rattle.std.specs.Prelude.{◌≡◌, slice_index_or, None};
ghost use Rattle.std.specs.Option.{option_copied};

use viz_base::{Band, BoxTree, Inner};

/// A block container with the edges of its content, in units of 1/64 px.
#[derive(Drop)]
pub struct Container<'a, N> {
    pub tree: &'a BoxTree,
    /// Its place in the tree.
    pub at: u32,
    /// The outer sizes of the floats and atomic boxes in its lines, each at the place of its box.
    pub inner: &'a [Option<Inner<N>>],
    /// Between the left and the right edge of its content.
    pub cb: &'a Band<N>,
}

/// The outer size of a float or an atomic box.
pub fn inner_of<'a, N>(container: &Container<'a, N>, at: u32) -> Option<&'a Inner<N>>
    ensures { option_copied result ≡ slice_index_or container.now.inner.now at None }
{
    match container.inner.get(at as usize) {
        Some(Some(inner)) => Some(inner),
        _ => None,
    }
}
