//! What the facts of a path say.

ghost use Rattle.cert_semantics.specs.Laws.{AnswersAreRight, EntailedHolds, FactsHold, FactsSayAll, ReasonedIsEntailed, RefutedIsEmpty};

/// At each world of the range on a path whose lemmas are entailed all its facts are at least 0, and whole numbers that
/// make them so are what the variables are along the path at such a world; each row of the path names declared
/// variables alone.
pub fn facts_say_what_a_path_says()
    ensures hold { FactsHold }
    ensures all { FactsSayAll }
{}

/// The row of a lemma is at least 0 at each world of the range on its path, where the lemmas above it are entailed.
pub fn a_lemma_holds_on_its_path()
    ensures { EntailedHolds }
{}

/// Below nodes that have their reasons each lemma is entailed.
pub fn lemmas_above_are_entailed()
    ensures { ReasonedIsEntailed }
{}

/// No world of the range is on a path whose facts a derivation refutes.
pub fn a_refuted_part_is_empty()
    ensures { RefutedIsEmpty }
{}

/// An answer whose denial is refuted is right at each world of the range on the path.
pub fn an_answer_is_right_where_its_denial_is_refuted()
    ensures { AnswersAreRight }
{}
