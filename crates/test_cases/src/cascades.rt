ghost use Rattle.std.specs.Prelude.{◌≡◌, length};

use crate::queries::met;
use crate::values::setting;
use css_cascade::{CascadeFault, cascade, cascade_pseudo, default_sheet};
use css_syntax::read_sheet;
use serde_json::Value;
use test_scribe::{Fault, Scribe, job_of};
use viz_base::{Cascaded, List, Page, Prop, Pseudo, RawJob, Setting, Sheet, Source, Text};

/// What wins at a node: node, property, value.
pub fn tell_node(scribe: &mut Scribe, node: usize, settings: &[Setting]) {
    for one in settings {
        scribe.open();
        scribe.number(node);
        setting(scribe, one);
        scribe.close();
    }
}

/// What wins.
fn tell(scribe: &mut Scribe, cascaded: &Cascaded) {
    scribe.open();
    for (node, settings) in cascaded.winners.as_slice().iter().enumerate() {
        tell_node(scribe, node, settings.as_slice());
    }
    scribe.close();
}

/// Where a value stands.
fn source(scribe: &mut Scribe, source: Source) {
    match source {
        Source::Default { at, len } => scribe.words("Default", &[at, len]),
        Source::Author { sheet, at, len } => scribe.words("Author", &[sheet, at, len]),
        Source::Style { node, at, len } => scribe.words("Style", &[node, at, len]),
    }
}

/// A value that is refused: node, property, and where it stands.
fn refused_value(scribe: &mut Scribe, node: u32, prop: Prop, place: Source) {
    scribe.raw("\"");
    scribe.words("Value", &[node]);
    scribe.raw(" ");
    scribe.debug(&prop);
    scribe.raw(" ");
    source(scribe, place);
    scribe.raw("\"");
}

/// What refuses a page.
fn refusal(scribe: &mut Scribe, fault: &CascadeFault) {
    match fault {
        CascadeFault::Selector(sheet, at) => scribe.refused("Selector", &[*sheet, *at]),
        CascadeFault::Value(node, prop, place) => refused_value(scribe, *node, *prop, *place),
        CascadeFault::Mem => scribe.fail(Fault::Mem),
    }
}

/// The sheets of these texts.
pub fn sheets(scribe: &mut Scribe, texts: &[Text]) -> List<Sheet> {
    let mut sheets = List::new(scribe.alloc());
    for text in texts {
        let sheet = read_sheet(scribe.alloc(), text.as_str());
        if let Some(sheet) = scribe.kept(sheet) {
            scribe.put(&mut sheets, sheet);
        }
    }
    sheets
}

/// What wins at the nodes of a page, or at a pseudo-element of each.
fn cascaded(
    scribe: &Scribe,
    page: &Page,
    texts: &[Text],
    sheets: &[Sheet],
    which: Option<Pseudo>,
) -> Result<Cascaded, CascadeFault>
    requires { length texts.now ≡ length sheets.now }
{
    match which {
        Some(which) => cascade_pseudo(scribe.alloc(), page, texts, sheets, which),
        None => cascade(scribe.alloc(), page, texts, sheets),
    }
}

/// What wins at the nodes of a page with these sheets, the default one first, or at a pseudo-element of each; nothing
/// where that refuses the page, which is told.
pub fn winners(
    scribe: &mut Scribe,
    page: &Page,
    texts: &[Text],
    sheets: &[Sheet],
    which: Option<Pseudo>,
) -> Option<Cascaded> {
    if sheets.len() != texts.len() {
        scribe.fail(Fault::NoCase);
        return None;
    }
    match cascaded(scribe, page, texts, sheets, which) {
        Ok(cascaded) => Some(cascaded),
        Err(fault) => {
            refusal(scribe, &fault);
            None
        }
    }
}

/// Puts a text at the end of those of the sheets.
fn put_text(scribe: &mut Scribe, texts: &mut List<Text>, text: &str) {
    let text = Text::from_text(scribe.alloc(), text);
    if let Some(text) = scribe.kept(text) {
        scribe.put(texts, text);
    }
}

/// The texts of the sheets, the default one first.
pub fn texts(scribe: &mut Scribe, authors: &[Value]) -> List<Text> {
    let mut texts = List::new(scribe.alloc());
    put_text(scribe, &mut texts, default_sheet());
    for author in authors {
        let author = scribe.text(author);
        put_text(scribe, &mut texts, author);
    }
    texts
}

/// What wins on the page of a job with these sheets of an author, by the rules that are met where its range begins.
fn tell_page(scribe: &mut Scribe, job: &RawJob, authors: &[Value], which: Option<Pseudo>) {
    let texts = texts(scribe, authors);
    let sheets = sheets(scribe, texts.as_slice());
    let Some(met) = met(scribe, sheets.as_slice(), &job.range) else {
        return;
    };
    if let Some(cascaded) = winners(scribe, &job.page, texts.as_slice(), met.as_slice(), which) {
        tell(scribe, &cascaded);
    }
}

/// What wins on the page of a case with its sheets of an author.
fn tell_case(scribe: &mut Scribe, case: &Value, which: Option<Pseudo>) {
    if let Some(job) = job_of(scribe, case) {
        let authors = scribe.list_at(case, 2);
        tell_page(scribe, &job, authors, which);
    }
}

/// What wins at each node of the page of a case.
pub fn answer(scribe: &mut Scribe, case: &Value) {
    tell_case(scribe, case, None);
}

/// What wins at a pseudo-element of each node of the page of a case.
pub fn answer_pseudo(scribe: &mut Scribe, case: &Value) {
    match scribe.text_at(case, 3) {
        "Before" => tell_case(scribe, case, Some(Pseudo::Before)),
        "After" => tell_case(scribe, case, Some(Pseudo::After)),
        _ => scribe.fail(Fault::NoCase),
    }
}
