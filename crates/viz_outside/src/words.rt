ghost use Rattle.std.specs.Prelude.{◌≡◌, ◌↔◌, [], IfErr, IfOk, IsOk, drop};
ghost use Rattle.std.specs.IoError.{error_kind};
ghost use Rattle.std.specs.Vec.Iter.{into_iter_items};

use std::alloc::{AllocError, Global};
use std::env::Args;
use std::io::{self, ErrorKind};
use viz_base::Mem;

/// The words after the program's name, of what the system gives as its arguments.
pub fn words_of(alloc: Global, args: io::Result<Args>) -> Result<Vec<String>, Mem>
    // They are all the arguments but the first.
    ensures words { IfOk args (λ all. IfOk result
        (λ words. words.items ≡ drop 1 (into_iter_items all))) }
    // Where an argument is no text there are none, and any other fault is want of memory.
    ensures none { IfErr args (λ _. IfOk result (λ words. words.items ≡ [])) }
    ensures no_text { IfErr args (λ error. IsOk result
        ↔ (error_kind error ≡ ErrorKind.InvalidData)) }
{
    match args {
        Ok(all) => Ok(behind_first(alloc, all)?),
        Err(error) => no_words(alloc, &error),
    }
}

// All items but the first.
fn behind_first(alloc: Global, mut all: Args) -> Result<Vec<String>, AllocError>
    ensures { IfOk result (λ words. words.items ≡ drop 1 (into_iter_items all)) }
{
    let _ = all.next();
    let mut words = Vec::new(alloc);
    for word in all {
        words.push(word)?;
    }
    Ok(words)
}

// No words, where an argument is no text.
fn no_words(alloc: Global, error: &io::Error) -> Result<Vec<String>, Mem>
    ensures none { IfOk result (λ words. words.items ≡ []) }
    ensures no_text { IsOk result ↔ (error_kind error.now ≡ ErrorKind.InvalidData) }
{
    match error.kind() {
        ErrorKind::InvalidData => Ok(Vec::new(alloc)),
        _ => Err(Mem),
    }
}
