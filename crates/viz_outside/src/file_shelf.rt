ghost use Rattle.std.specs.Prelude.{◌≡◌, ◌≢◌, ◌≤◌, IfErr, IfOk, IfSome, Err, None, false, length};
ghost use Rattle.std.specs.IoError.{error_kind};
ghost use Rattle.viz_outside.specs.declared.shelf.ShelfFault.TheVariants.{Mem, Failed};
ghost use Rattle.viz_outside.specs.Shelf.{bytes_of, counted, loaded_of};

use crate::shelf::counted;
use crate::{Loaded, Shelf, ShelfFault};
use std::alloc::Global;
use std::fs;
use std::io::{self, ErrorKind, Read};
use std::marker::Model;
use std::rt::Files;
use viz_base::List;

/// The files of the system, by their paths. What they hold is told by no contract, and none is sure to load.
/// Contracts see the count of its faults.
#[derive(Drop)]
pub struct FileShelf<R> {
    rt: R,
    faults: u64,
}

impl<R> Model for FileShelf<R> {
    ghost use Rattle.std.specs.Prelude.{ℕ};

    ghost Value = { ℕ };

    ghost view = { λ s. s.faults };
}

impl<R> FileShelf<R> {
    /// The files that the runtime sees, with no fault so far.
    pub fn new(rt: R) -> Self
        ensures { result ≡ 0 }
    {
        FileShelf { rt, faults: 0 }
    }
}

// Want of memory is no fault of the files, and nothing else is want of memory.
fn fault_of(error: &io::Error) -> ShelfFault
    ensures memory { error_kind error.now ≡ ErrorKind.OutOfMemory → result ≡ Mem }
    ensures failed { error_kind error.now ≢ ErrorKind.OutOfMemory → result ≡ Failed }
{
    match error.kind() {
        ErrorKind::OutOfMemory => ShelfFault::Mem,
        _ => ShelfFault::Failed,
    }
}

// What is left of a reader's bytes, where they are at most `cap`. One byte more shows that there are more.
pub(crate) fn read_within<F: Read + Drop>(
    alloc: Global,
    file: F,
    cap: usize,
) -> Result<Loaded, ShelfFault>
    ensures capped { IfOk result (λ loaded. length (bytes_of loaded) ≤ cap) }
    ensures told { IfOk result (λ loaded. IfSome (F.remaining file)
        (λ held. loaded ≡ loaded_of cap held)) }
{
    let mut bytes = Vec::new(alloc);
    let mut front = file.take((cap as u64).saturating_add(1));
    match front.read_to_end(&mut bytes) {
        Ok(_) => Ok(within(bytes, cap)),
        Err(error) => Err(fault_of(&error)),
    }
}

// The bytes, where they are at most `cap`.
fn within(bytes: Vec<u8>, cap: usize) -> Loaded
    ensures { result ≡ loaded_of cap bytes.items }
{
    if bytes.len() <= cap {
        Loaded::Whole(List::from(bytes))
    } else {
        Loaded::Longer
    }
}

// The bytes of a reader that was to be opened, where they are at most `cap`. The fault is that of the opening.
fn read_opened<F: Read + Drop>(
    alloc: Global,
    opened: io::Result<F>,
    cap: usize,
) -> Result<Loaded, ShelfFault>
    ensures capped { IfOk result (λ loaded. length (bytes_of loaded) ≤ cap) }
    ensures told { IfOk opened (λ file. IfOk result (λ loaded.
        IfSome (F.remaining file) (λ held. loaded ≡ loaded_of cap held))) }
    ensures memory { IfErr opened (λ error. error_kind error ≡ ErrorKind.OutOfMemory
        → result ≡ Err Mem) }
    ensures failed { IfErr opened (λ error. error_kind error ≢ ErrorKind.OutOfMemory
        → result ≡ Err Failed) }
{
    match opened {
        Ok(file) => read_within(alloc, file, cap),
        Err(error) => Err(fault_of(&error)),
    }
}

fn read_file<R: Files + AllocGlobal>(rt: &R, name: &str, cap: usize) -> Result<Loaded, ShelfFault>
    ensures { IfOk result (λ loaded. length (bytes_of loaded) ≤ cap) }
{
    read_opened(rt.alloc(), fs::open(rt, name), cap)
}

impl<R: Files + AllocGlobal> Shelf for FileShelf<R> {
    ghost files = { λ _. None };

    ghost faults = { λ s. s };

    ghost sure = { λ _ _. false };

    // Of what was asked for and given only the fault is counted.
    ghost loads = { λ s _ _ answer left. left ≡ counted s answer };

    fn load(&mut self, name: &str, cap: usize) -> Result<Loaded, ShelfFault> {
        let answer = read_file(&self.rt, name, cap);
        self.faults = counted(self.faults, &answer);
        answer
    }
}
