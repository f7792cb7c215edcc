use crate::selectors::matched_nodes;
use serde_json::Value;
use test_scribe::{Fault, Scribe, job_of};
use vis_read::{FormulaFault, read_formula};
use viz_base::{Boxed, Edge, Face, Formula, Kind, List, Page, Ring, Set, Sign, Summand, Term};

/// The kind of a box whose name stands at a place of an array.
pub fn kind_at(scribe: &mut Scribe, value: &Value, place: usize) -> Kind {
    match scribe.text_at(value, place) {
        "Block" => Kind::Block,
        "Anon" => Kind::Anon,
        "Float" => Kind::Float,
        "Atomic" => Kind::Atomic,
        "Replaced" => Kind::Replaced,
        "Inline" => Kind::Inline,
        "Chars" => Kind::Chars,
        "Line" => Kind::Line,
        "Break" => Kind::Break,
        _ => {
            scribe.fail(Fault::NoCase);
            Kind::Block
        }
    }
}

/// The sign of a comparison.
fn sign_of(scribe: &mut Scribe, step: &Value) -> Sign {
    match scribe.text_at(step, 2) {
        "Lt" => Sign::Lt,
        "Le" => Sign::Le,
        "Eq" => Sign::Eq,
        "Ne" => Sign::Ne,
        "Ge" => Sign::Ge,
        "Gt" => Sign::Gt,
        _ => {
            scribe.fail(Fault::NoCase);
            Sign::Lt
        }
    }
}

/// The ring of an edge.
fn ring_of(scribe: &mut Scribe, edge: &Value) -> Ring {
    match scribe.text_at(edge, 2) {
        "Margin" => Ring::Margin,
        "Border" => Ring::Border,
        "Padding" => Ring::Padding,
        "Content" => Ring::Content,
        _ => {
            scribe.fail(Fault::NoCase);
            Ring::Margin
        }
    }
}

/// The face of an edge.
fn face_of(scribe: &mut Scribe, edge: &Value) -> Face {
    match scribe.text_at(edge, 3) {
        "Left" => Face::Left,
        "Top" => Face::Top,
        "Right" => Face::Right,
        "Bottom" => Face::Bottom,
        _ => {
            scribe.fail(Fault::NoCase);
            Face::Left
        }
    }
}

/// An edge of a box that a name stands for.
fn named_edge(scribe: &mut Scribe, value: &Value) -> Edge {
    let name = scribe.number_at(value, 1);
    Edge::Name(name, ring_of(scribe, value), face_of(scribe, value))
}

/// The edge of a part of a sum.
fn edge_of(scribe: &mut Scribe, part: &Value) -> Edge {
    let value = scribe.at(part, 1);
    match scribe.text_at(value, 0) {
        "One" => Edge::One,
        "ViewWidth" => Edge::ViewWidth,
        "ViewHeight" => Edge::ViewHeight,
        "ViewSize" => Edge::ViewSize,
        "Name" => named_edge(scribe, value),
        _ => {
            scribe.fail(Fault::NoCase);
            Edge::One
        }
    }
}

/// The sum at a place of a step: for each part how often, and of what edge.
fn term_at(scribe: &mut Scribe, step: &Value, place: usize) -> Term {
    let mut parts = List::new(scribe.alloc());
    for part in scribe.list_at(step, place) {
        let times = scribe.integer_at(part, 0);
        let edge = edge_of(scribe, part);
        scribe.put(&mut parts, Summand { times, edge });
    }
    Term { parts }
}

/// The nodes of these numbers.
fn numbered(scribe: &mut Scribe, numbers: &[Value]) -> List<u32> {
    let mut found = List::new(scribe.alloc());
    for number in numbers {
        let number = scribe.natural(number);
        scribe.put(&mut found, number);
    }
    found
}

/// The nodes that a selector at a place of an array matches, or those of the numbers there.
fn nodes_at(scribe: &mut Scribe, page: &Page, array: &Value, place: usize) -> List<u32> {
    let value = scribe.at(array, place);
    match value.as_array() {
        Some(numbers) => numbered(scribe, numbers.as_slice()),
        None => matched_nodes(scribe, page, value),
    }
}

/// The set of a quantifier; one of a selector has the nodes of the page that it matches.
fn set(scribe: &mut Scribe, page: &Page, step: &Value) -> Set {
    let value = scribe.at(step, 1);
    match scribe.text_at(value, 0) {
        "Of" => Set::Of(kind_at(scribe, value, 1)),
        "Every" => Set::Every,
        "Nodes" => Set::Nodes(nodes_at(scribe, page, value, 1)),
        _ => {
            scribe.fail(Fault::NoCase);
            Set::Every
        }
    }
}

/// The latest formula, boxed.
fn popped(scribe: &mut Scribe, stack: &mut Vec<Formula>) -> Option<Boxed<Formula>> {
    let top = stack.pop()?;
    let inner = Boxed::new(scribe.alloc(), top);
    scribe.kept(inner)
}

fn constant(scribe: &mut Scribe, step: &Value) -> Option<Formula> {
    Some(Formula::Const(scribe.at(step, 1).as_bool()?))
}

fn comparison(scribe: &mut Scribe, step: &Value) -> Formula {
    let sign = sign_of(scribe, step);
    Formula::Cmp(term_at(scribe, step, 1), sign, term_at(scribe, step, 3))
}

fn denied(scribe: &mut Scribe, stack: &mut Vec<Formula>) -> Option<Formula> {
    let inner = popped(scribe, stack)?;
    Some(Formula::Not(inner))
}

/// What a step of a quantifier makes of a formula.
fn quantified(
    scribe: &mut Scribe,
    page: &Page,
    name: &str,
    step: &Value,
    stack: &mut Vec<Formula>,
) -> Option<Formula> {
    let inner = popped(scribe, stack)?;
    let set = set(scribe, page, step);
    if name == "Forall" {
        Some(Formula::Forall(set, inner))
    } else {
        Some(Formula::Exists(set, inner))
    }
}

/// What a step of this name makes of two formulas, the earlier one first.
fn joined(scribe: &mut Scribe, name: &str, stack: &mut Vec<Formula>) -> Option<Formula> {
    let second = popped(scribe, stack);
    let (first, second) = popped(scribe, stack).zip(second)?;
    match name {
        "Implies" => Some(Formula::Implies(first, second)),
        "Or" => Some(Formula::Or(first, second)),
        _ => Some(Formula::And(first, second)),
    }
}

/// What a step makes of the two boxes that it names.
fn paired(scribe: &mut Scribe, name: &str, step: &Value) -> Formula {
    let first = scribe.number_at(step, 1);
    let second = scribe.number_at(step, 2);
    if name == "Same" {
        Formula::Same(first, second)
    } else {
        Formula::Overlap(first, second)
    }
}

/// What a step of this name makes of the formulas that the earlier steps made, or nothing of one that is no step.
fn made_of_parts(
    scribe: &mut Scribe,
    page: &Page,
    name: &str,
    step: &Value,
    stack: &mut Vec<Formula>,
) -> Option<Formula> {
    match name {
        "Not" => denied(scribe, stack),
        "Forall" | "Exists" => quantified(scribe, page, name, step, stack),
        "Implies" | "Or" | "And" => joined(scribe, name, stack),
        _ => None,
    }
}

/// What a step makes.
fn made(
    scribe: &mut Scribe,
    page: &Page,
    step: &Value,
    stack: &mut Vec<Formula>,
) -> Option<Formula> {
    let name = scribe.text_at(step, 0);
    match name {
        "Const" => constant(scribe, step),
        "Overlap" | "Same" => Some(paired(scribe, name, step)),
        "Cmp" => Some(comparison(scribe, step)),
        _ => made_of_parts(scribe, page, name, step, stack),
    }
}

/// Makes what a step makes, behind what the earlier steps made.
fn make(scribe: &mut Scribe, page: &Page, step: &Value, stack: &mut Vec<Formula>) {
    match made(scribe, page, step, stack) {
        Some(formula) => scribe.push(stack, formula),
        None => scribe.fail(Fault::NoCase),
    }
}

/// The formula that steps make, a part before what it is a part of.
pub fn formula(scribe: &mut Scribe, page: &Page, steps: &[Value]) -> Option<Formula> {
    let mut stack = Vec::new(scribe.alloc());
    for step in steps {
        make(scribe, page, step, &mut stack);
    }
    let last = stack.pop();
    if last.is_none() {
        scribe.fail(Fault::NoCase);
    }
    last
}

/// Why a text spells no formula, and where.
fn refusal(scribe: &mut Scribe, fault: &FormulaFault) {
    match fault {
        FormulaFault::Bad(at) => scribe.refused("Bad", &[*at]),
        FormulaFault::Unbound(at) => scribe.refused("Unbound", &[*at]),
        FormulaFault::TooDeep(at) => scribe.refused("TooDeep", &[*at]),
        FormulaFault::Mem => scribe.fail(Fault::Mem),
    }
}

/// Whether what is read is the formula that the steps of a case make.
fn compare(scribe: &mut Scribe, page: &Page, read: &Formula, case: &Value) {
    let steps = scribe.list_at(case, 3);
    if let Some(made) = formula(scribe, page, steps) {
        scribe.truth(*read == made);
    }
}

/// What is read of the text of a case on its page.
fn tell(scribe: &mut Scribe, page: &Page, case: &Value) {
    let text = scribe.text_at(case, 2);
    match read_formula(scribe.alloc(), text, page) {
        Ok(read) => compare(scribe, page, &read, case),
        Err(fault) => refusal(scribe, &fault),
    }
}

/// Whether the text of a case spells the formula that its steps make, of its page, or why it spells none.
pub fn answer(scribe: &mut Scribe, case: &Value) {
    if let Some(job) = job_of(scribe, case) {
        tell(scribe, &job.page, case);
    }
}
