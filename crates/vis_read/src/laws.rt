ghost use Rattle.vis_read.specs.Laws.{EveryOutcome, NamesAreBound, OneAnswer, OneFormula, OneTokens};

/// Law: tokens are at most one formula.
pub fn one_formula()
    ensures { OneFormula }
{}

/// Law: the tokens of a text that ends at a place are a formula, or bad at a place, or the first of them that may not
/// stand where it stands is an unbound name or is nested too deep.
pub fn every_outcome()
    ensures { EveryOutcome }
{}

/// Law: where each token may stand where it stands, the formula's names are bound.
pub fn names_are_bound()
    ensures { NamesAreBound }
{}

/// Law: of a page, a text has at most one list of tokens, and is at most one formula or refused in one way.
pub fn one_answer()
    ensures tokens { OneTokens }
    ensures answer { OneAnswer }
{}
