//! Lines of the widths of which the same is said.
ghost use Rattle.std.specs.Prelude.{◌≡◌, ◌≢◌, ◌≤◌, ◌<◌, ◌+◌, ◌^◌, ℕ, length, slice_get, IfOk};
ghost use Rattle.viz_tables.specs.Joins.{IsSaid};
ghost use Rattle.viz_tables.specs.Words.{AreLines};

use crate::words::{Line, Word};
use std::alloc::Global;
use viz_base::{List, Mem};

/// The first place behind one where another word stands, or their count.
fn other_from(words: &[Word], from: usize) -> usize
    requires { from < length words.now }
    ensures least { from < result }
    ensures most { result ≤ length words.now }
    ensures same { (at : ℕ) → from ≤ at → at < result
        → slice_get words.now at ≡ slice_get words.now from }
    ensures other { result < length words.now
        → slice_get words.now result ≢ slice_get words.now from }
{
    let mut at = from + 1;
    while at < words.len() && words[at] == words[from] {
        at += 1;
    }
    at
}

/// The lines of what is said of widths, the first being this one.
pub(crate) fn joined(alloc: Global, words: &[Word], wl: u32) -> Result<List<Line>, Mem>
    requires { wl + length words.now < 2 ^ 31 }
    ensures { IfOk result (AreLines (IsSaid words.now wl) wl (wl + length words.now)) }
{
    let mut lines = List::new(alloc);
    let mut from = 0;
    while from < words.len() {
        let behind = other_from(words, from);
        lines.push(Line {
            wl: wl + from as u32,
            wh: wl + behind as u32 - 1,
            word: words[from],
        })?;
        from = behind;
    }
    Ok(lines)
}
