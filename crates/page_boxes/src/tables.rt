//! Tables with an entry for each node.
ghost use Rattle.std.specs.Prelude.{◌≡◌};
ghost use Rattle.page_boxes.specs.steps.Tables.{held, put};

/// The entry of a node, and `none` where there is none.
pub fn held<S: Copy>(table: &[S], node: Option<u32>, none: S) -> S
    ensures { result ≡ held table.now node none }
{
    match node {
        Some(node) => table.get(node as usize).copied().unwrap_or(none),
        None => none,
    }
}

/// Puts an entry for a node, where the table has one.
pub fn put<S: Copy>(table: &mut [S], node: Option<u32>, entry: S)
    ensures { table.new ≡ put table.old node entry }
{
    if let Some(node) = node {
        let at = node as usize;
        if at < table.len() {
            table[at] = entry;
        }
    }
}
