ghost use Rattle.std.specs.Prelude.{◌≡◌, ◌≤◌, ℕ, List, IsErrOf, IsTrue, Some, option_map};
ghost use Rattle.viz_outside.specs.declared.shelf.ShelfFault.TheVariants.{Failed};
ghost use Rattle.viz_outside.specs.MemoryShelf.{bytes_at, file_of, answer_at, answer_of, Answers, IsLoad, after_load, is_sure};

use crate::calls::lists_call;
use crate::shelf::counted;
use crate::{Loaded, Shelf, ShelfFault};
use std::marker::Model;
use viz_base::{List, Text, Text8};

/// Files in memory. Calls of chosen numbers, counted from 0, fail.
#[derive(Drop)]
pub struct MemShelf {
    files: List<(Text, Text8)>,
    fails: List<u32>,
    calls: u64,
    faults: u64,
}

impl Model for MemShelf {
    ghost use Rattle.viz_outside.specs.MemoryShelf.{ShelfState};

    ghost Value = { ShelfState };

    ghost view = { λ s. record { files = s.files; fails = s.fails; calls = s.calls; faults = s.faults } };
}

impl MemShelf {
    /// A shelf of these files, the first of a name before later ones. Call number n fails where n is in `fails`.
    pub fn new(files: List<(Text, Text8)>, fails: List<u32>) -> MemShelf
        ensures { result ≡ record { files = files; fails = fails; calls = 0; faults = 0 } }
    {
        MemShelf {
            files,
            fails,
            calls: 0,
            faults: 0,
        }
    }
}

// The bytes of the first file of the name.
fn find<'a>(files: &'a [(Text, Text8)], name: &str) -> Option<&'a [u8]>
    ensures { option_map (λ bytes. bytes.now) result ≡ bytes_at files.now name.now }
{
    for (own, bytes) in files {
        if own.as_str() == name {
            return Some(bytes.as_slice());
        }
    }
    None
}

// A copy of what the file of the name gives.
fn copy(files: &List<(Text, Text8)>, name: &str, cap: usize) -> Result<Loaded, ShelfFault>
    ensures { Answers result (file_of files.now name.now cap) }
{
    match find(files.as_slice(), name) {
        None => Err(ShelfFault::Failed),
        Some(bytes) if bytes.len() <= cap => Ok(Loaded::Whole(List::from_slice(
            files.allocator(),
            bytes,
        )?)),
        Some(_) => Ok(Loaded::Longer),
    }
}

// What the call of this number answers.
fn call(
    files: &List<(Text, Text8)>,
    fails: &[u32],
    number: u64,
    name: &str,
    cap: usize,
) -> Result<Loaded, ShelfFault>
    ensures { Answers result (answer_at files.now fails.now number name.now cap) }
{
    if lists_call(fails, number) {
        return Err(ShelfFault::Failed);
    }
    copy(files, name, cap)
}

impl Shelf for MemShelf {
    ghost files = { λ s. Some (bytes_at s.files) };

    ghost faults = { λ s. s.faults };

    ghost sure = { is_sure };

    ghost loads = { IsLoad };

    fn load(&mut self, name: &str, cap: usize) -> Result<Loaded, ShelfFault>
        ensures answer { Answers result (answer_of self.old name.now cap) }
        ensures after { self.new ≡ after_load self.old name.now cap }
        ensures counts { self.old.faults ≤ self.new.faults }
        ensures sure_loads { IsTrue (is_sure self.old name.now) → ¬ IsErrOf result Failed }
        ensures sure_counts { IsTrue (is_sure self.old name.now)
            → self.new.faults ≡ self.old.faults }
        ensures stays_sure { (other : List ℕ) → IsTrue (is_sure self.old other)
            → IsTrue (is_sure self.new other) }
    {
        let number = self.calls;
        let answer = call(&self.files, self.fails.as_slice(), number, name, cap);
        self.calls = number.saturating_add(1);
        self.faults = counted(self.faults, &answer);
        answer
    }
}
