//! The buckets of words: of the tags, classes and ids that selectors ask for and elements have.
ghost use Rattle.std.specs.Prelude.{◌≡◌, ◌<◌, ◌++◌, ◌∷◌, ℕ, List as Seq, OnOk, IfOk};
ghost use Rattle.std.specs.List.{Contains};
ghost use Rattle.css_semantics.specs.TokensLetters.{is_space};
ghost use Rattle.css_cascade.specs.steps.Buckets.{attribute_buckets, bucket_behind, bucket_of, buckets_from, class_buckets, element_buckets, id_buckets};

use css_token::same_name;
use std::alloc::Global;
use viz_base::{Attr, Element, Mem};

// Enough that the words of a large sheet spread, and few enough that a page's table of them is small.
/// The number of buckets, a prime.
pub const BUCKETS: usize = 8191;

fn is_space(byte: u8) -> bool
    ensures { result ≡ is_space byte }
{
    matches!(byte, b' ' | b'\t' | b'\n' | b'\r' | 0xc)
}

/// The bucket behind one more byte of a word, in any ASCII case.
fn bucket_behind(at: usize, byte: u8) -> usize
    requires { at < 8191 }
    ensures is { result ≡ bucket_behind at byte }
    ensures within { result < 8191 }
{
    // Without case, since names of tags are compared so; of ids and classes it only makes more words share.
    (at * 131 + byte.to_ascii_lowercase() as usize) % BUCKETS
}

/// The bucket of a word.
pub fn bucket_of(word: &str) -> usize
    ensures is { result ≡ bucket_of word.now }
    ensures within { result < 8191 }
{
    let mut at = 0;
    for byte in word.as_bytes() {
        at = bucket_behind(at, *byte);
    }
    at
}

/// The bucket behind one more byte of a text, after adding that of a piece which ends before it.
fn pass_byte(buckets: &mut Vec<usize>, at: usize, byte: u8) -> Result<usize, Mem>
    requires { at < 8191 }
    ensures within { IfOk result (λ next. next < 8191) }
    ensures added { IfOk result (λ next. (rest : Seq ℕ)
        → buckets.new.items ++ buckets_from next rest
        ≡ buckets.old.items ++ buckets_from at (byte ∷ rest)) }
{
    if is_space(byte) {
        buckets.push(at)?;
        Ok(0)
    } else {
        Ok(bucket_behind(at, byte))
    }
}

/// Adds the buckets of the pieces of a text between white space.
fn add_pieces(buckets: &mut Vec<usize>, text: &str) -> Result<(), Mem>
    ensures { OnOk result (buckets.new.items ≡ buckets.old.items ++ buckets_from 0 text.now) }
{
    let mut at = 0;
    for byte in text.as_bytes() {
        at = pass_byte(buckets, at, *byte)?;
    }
    // The last piece has no white space behind it; an empty one costs a bucket that is tried in vain.
    buckets.push(at)?;
    Ok(())
}

/// Adds the buckets of an attribute's words, if it is `class`.
fn add_classes(buckets: &mut Vec<usize>, attr: &Attr) -> Result<(), Mem>
    ensures { OnOk result (buckets.new.items ≡ buckets.old.items ++ class_buckets attr.now) }
{
    if same_name("class", attr.name.as_str()) {
        add_pieces(buckets, attr.value.as_str())?;
    }
    Ok(())
}

/// Adds the bucket of an attribute's value, if it is `id`.
fn add_id(buckets: &mut Vec<usize>, attr: &Attr) -> Result<(), Mem>
    ensures { OnOk result (buckets.new.items ≡ buckets.old.items ++ id_buckets attr.now) }
{
    if same_name("id", attr.name.as_str()) {
        buckets.push(bucket_of(attr.value.as_str()))?;
    }
    Ok(())
}

/// Adds the buckets of an attribute's words.
fn add_words(buckets: &mut Vec<usize>, attr: &Attr) -> Result<(), Mem>
    ensures { OnOk result (buckets.new.items ≡ buckets.old.items ++ attribute_buckets attr.now) }
{
    add_classes(buckets, attr)?;
    add_id(buckets, attr)?;
    Ok(())
}

/// The buckets of an element's tag, classes and ids, in no order.
pub fn words_of(alloc: Global, element: &Element) -> Result<Vec<usize>, Mem>
    ensures { IfOk result (λ buckets. buckets.items ≡ element_buckets element.now) }
{
    let mut buckets = Vec::new(alloc);
    buckets.push(bucket_of(element.tag.as_str()))?;
    for attr in element.attrs.as_slice() {
        add_words(&mut buckets, attr)?;
    }
    Ok(buckets)
}

/// The buckets in which those selectors stand that may match an element and ask for its tag, a class or an id, each
/// once.
pub fn element_buckets(alloc: Global, element: &Element) -> Result<Vec<usize>, Mem>
    ensures { IfOk result (λ buckets. (at : ℕ) → Contains (element_buckets element.now) at
        → Contains buckets.items at) }
{
    let mut buckets = words_of(alloc, element)?;
    buckets.sort()?;
    // Two words of an element may share a bucket; its selectors are then tried once.
    buckets.dedup();
    Ok(buckets)
}
