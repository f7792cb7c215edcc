//! A formula over the page with its generated content.
ghost use Rattle.std.specs.Prelude.{◌≡◌, ◌==◌, ◌<◌, ℕ, None, Some, if◌then◌else◌, length, take, IfOk, OnOk};
ghost use Rattle.std.specs.Option.{option_or};
ghost use Rattle.page_build.specs.Renumbering.{is_number, number_in, renumbered, renumbered_nodes, renumbered_set};
ghost use Rattle.page_build.specs.Seen.{AreNumbers, number_at};

use std::alloc::Global;
use viz_base::{Boxed, Formula, List, Mem, Set, Sign, Term};

/// Makes room for the number of a node.
fn make_room(numbers: &mut Vec<Option<u32>>, node: u32) -> Result<(), Mem>
    ensures room { OnOk result (node < length numbers.new.items) }
    ensures same { OnOk result ((n : ℕ)
        → number_at numbers.new.items n ≡ number_at numbers.old.items n) }
{
    while numbers.len() <= node as usize {
        numbers.push(None)?;
    }
    Ok(())
}

/// Notes the number of a node, unless it has one; none of a generated one.
fn note(numbers: &mut Vec<Option<u32>>, node: Option<u32>, number: u32) -> Result<(), Mem>
    ensures { OnOk result ((n : ℕ) → number_at numbers.new.items n
        ≡ option_or (number_at numbers.old.items n)
        (if is_number n node then Some number else None)) }
{
    if let Some(node) = node {
        make_room(numbers, node)?;
        let noted = numbers[node as usize];
        numbers[node as usize] = noted.or(Some(number));
    }
    Ok(())
}

/// A place as the number of a node. Of `2^32` and more it may not fit, which counts as want of memory.
fn number(at: usize) -> Result<u32, Mem>
    ensures { IfOk result (λ n. n ≡ at) }
{
    u32::try_from(at).map_err(|_| Mem)
}

/// The numbers in the grown page of the nodes of the page as it is written.
fn numbers_in(alloc: Global, from: &[Option<u32>]) -> Result<Vec<Option<u32>>, Mem>
    ensures { IfOk result (λ numbers. AreNumbers from.now numbers.items) }
{
    let mut numbers = Vec::new(alloc);
    for at in 0..from.len() {
        let node = from[at];
        note(&mut numbers, node, number(at)?)?;
    }
    Ok(numbers)
}

/// The number of a node in the grown page.
fn number_at(numbers: &[Option<u32>], node: u32) -> Option<u32>
    ensures { result ≡ number_at numbers.now node }
{
    numbers.get(node as usize).copied().unwrap_or(None)
}

/// The nodes by their numbers in the grown page.
fn renumbered_nodes(alloc: Global, numbers: &[Option<u32>], nodes: &[u32]) -> Result<List<u32>, Mem>
    ensures { IfOk result (λ named. named ≡ renumbered_nodes (number_at numbers.now) nodes.now) }
{
    let mut named = List::new(alloc);
    for node in nodes {
        if let Some(number) = number_at(numbers, *node) {
            named.push(number)?;
        }
    }
    Ok(named)
}

/// The set over the grown page.
fn renumbered_set(alloc: Global, numbers: &[Option<u32>], set: &Set) -> Result<Set, Mem>
    ensures { IfOk result (λ s. s ≡ renumbered_set (number_at numbers.now) set.now) }
{
    match set {
        Set::Nodes(nodes) => {
            let named = renumbered_nodes(alloc, numbers, nodes.as_slice())?;
            Ok(Set::Nodes(named))
        }
        Set::Of(kind) => Ok(Set::Of(*kind)),
        Set::Every => Ok(Set::Every),
    }
}

/// A term of its own.
fn copied(alloc: Global, term: &Term) -> Result<Term, Mem>
    ensures { IfOk result (λ t. t ≡ term.now) }
{
    let parts = List::from_slice(alloc, term.parts.as_slice())?;
    Ok(Term { parts })
}

/// A comparison of its own.
fn compared(alloc: Global, left: &Term, sign: Sign, right: &Term) -> Result<Formula, Mem>
    ensures { IfOk result (λ f. f ≡ Formula.Cmp left.now sign right.now) }
{
    let left = copied(alloc, left)?;
    let right = copied(alloc, right)?;
    Ok(Formula::Cmp(left, sign, right))
}

/// Two formulas, each in a box of its own.
fn boxed(
    alloc: Global,
    left: Formula,
    right: Formula,
) -> Result<(Boxed<Formula>, Boxed<Formula>), Mem>
    ensures { IfOk result (λ both. both ≡ (left, right)) }
{
    match Boxed::new(alloc, left) {
        Ok(left) => Ok((left, Boxed::new(alloc, right)?)),
        Err(_) => Err(Mem),
    }
}

/// A formula over the grown page.
fn over(alloc: Global, numbers: &[Option<u32>], formula: &Formula) -> Result<Formula, Mem>
    ensures { IfOk result (λ f. f ≡ renumbered (number_at numbers.now) formula.now) }
{
    match formula {
        Formula::Const(value) => Ok(Formula::Const(*value)),
        Formula::Forall(set, body) => {
            let set = renumbered_set(alloc, numbers, set)?;
            let body = over(alloc, numbers, body.get())?;
            Ok(Formula::Forall(set, Boxed::new(alloc, body)?))
        }
        Formula::Exists(set, body) => {
            let set = renumbered_set(alloc, numbers, set)?;
            let body = over(alloc, numbers, body.get())?;
            Ok(Formula::Exists(set, Boxed::new(alloc, body)?))
        }
        Formula::Implies(a, b) => {
            let a = over(alloc, numbers, a.get())?;
            let (a, b) = boxed(alloc, a, over(alloc, numbers, b.get())?)?;
            Ok(Formula::Implies(a, b))
        }
        Formula::Or(a, b) => {
            let a = over(alloc, numbers, a.get())?;
            let (a, b) = boxed(alloc, a, over(alloc, numbers, b.get())?)?;
            Ok(Formula::Or(a, b))
        }
        Formula::And(a, b) => {
            let a = over(alloc, numbers, a.get())?;
            let (a, b) = boxed(alloc, a, over(alloc, numbers, b.get())?)?;
            Ok(Formula::And(a, b))
        }
        Formula::Not(a) => {
            let a = over(alloc, numbers, a.get())?;
            Ok(Formula::Not(Boxed::new(alloc, a)?))
        }
        Formula::Cmp(left, sign, right) => compared(alloc, left, *sign, right),
        Formula::Overlap(a, b) => Ok(Formula::Overlap(*a, *b)),
        Formula::Same(a, b) => Ok(Formula::Same(*a, *b)),
    }
}

/// A formula over the page with its generated content, `from` telling the number of each of its nodes on the page as it
/// is written.
pub(crate) fn renumbered(
    alloc: Global,
    from: &[Option<u32>],
    formula: &Formula,
) -> Result<Formula, Mem>
    ensures { IfOk result (λ f. f ≡ renumbered (number_in from.now) formula.now) }
{
    let numbers = numbers_in(alloc, from)?;
    over(alloc, &numbers, formula)
}
