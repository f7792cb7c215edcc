ghost use Rattle.std.specs.Prelude.{◌≡◌, ◌∷◌, ◌++◌, List as Seq, IfOk};
ghost use Rattle.css_semantics.specs.declared.parts.Part.{Part};
ghost use Rattle.css_semantics.specs.Values.{families, family_from};
ghost use Rattle.css_value.specs.Families.{names_after, names_from, with_front};

use css_semantics::Part;
use std::alloc::Global;
use viz_base::{List, Mem, Text};

/// What stands before the next part of a list of names.
#[derive(Drop)]
enum Before {
    /// The beginning, or a comma.
    Comma,
    /// A name that is whole: a string.
    Name,
    /// A name that more identifiers may go on with.
    Words(Text),
}

/// The names of font families that the parts are (CSS 2.1, 15.3): strings, and identifiers joined by a space, with
/// commas between them; none where they are no such list.
#[tactic(auto, using(crate::proofs::FamilyLemmas::with_front_nil, crate::proofs::FamilyLemmas::with_front_push))]
pub fn families(alloc: Global, parts: &[Part]) -> Result<Option<List<Text>>, Mem>
    ensures { IfOk result (λ names. names ≡ families parts.now) }
{
    let mut names = List::new(alloc);
    let mut before = Before::Comma;
    for part in parts {
        match next(alloc, &mut names, before, part)? {
            Some(after) => before = after,
            None => return Ok(None),
        }
    }
    match before {
        Before::Comma => Ok(None),
        Before::Name => Ok(Some(names)),
        Before::Words(name) => {
            names.push(name)?;
            Ok(Some(names))
        }
    }
}

/// What a part is that stands at the beginning or behind a comma.
#[tactic(auto, using(crate::proofs::FamilyLemmas::with_front_push))]
fn after_comma(alloc: Global, names: &mut List<Text>, part: &Part) -> Result<Option<Before>, Mem>
    ensures { IfOk result (λ after. (ps : Seq Part)
        → with_front names.old (families (part.now ∷ ps)) ≡ names_after names.new after ps) }
{
    match part {
        Part::Quoted(name) => {
            names.push(Text::from_text(alloc, name.as_str())?)?;
            Ok(Some(Before::Name))
        }
        Part::Word(word) => Ok(Some(Before::Words(Text::from_text(alloc, word.as_str())?))),
        _ => Ok(None),
    }
}

/// The name and one more of its identifiers.
fn joined(name: Text, word: &str) -> Result<Text, Mem>
    ensures { IfOk result (λ whole. whole ≡ name ++ 32 ∷ word.now) }
{
    let mut name = name;
    name.push(' ')?;
    name.push_str(word)?;
    Ok(name)
}

/// What a part is that stands behind identifiers of a name.
#[tactic(auto, using(crate::proofs::FamilyLemmas::with_front_push))]
fn after_words(names: &mut List<Text>, name: Text, part: &Part) -> Result<Option<Before>, Mem>
    ensures { IfOk result (λ after. (ps : Seq Part)
        → with_front names.old (family_from name (part.now ∷ ps))
        ≡ names_after names.new after ps) }
{
    match part {
        Part::Comma => {
            names.push(name)?;
            Ok(Some(Before::Comma))
        }
        Part::Word(word) => Ok(Some(Before::Words(joined(name, word.as_str())?))),
        _ => Ok(None),
    }
}

/// Goes past a part, if it may stand there.
fn next(
    alloc: Global,
    names: &mut List<Text>,
    before: Before,
    part: &Part,
) -> Result<Option<Before>, Mem>
    ensures { IfOk result (λ after. (ps : Seq Part)
        → with_front names.old (names_from before (part.now ∷ ps))
        ≡ names_after names.new after ps) }
{
    match before {
        Before::Comma => after_comma(alloc, names, part),
        Before::Name => match part {
            Part::Comma => Ok(Some(Before::Comma)),
            _ => Ok(None),
        },
        Before::Words(name) => after_words(names, name, part),
    }
}
