ghost use Rattle.lin_proof.specs.Law.{EntailmentLaw, Law};

/// No values of the variables meet facts that a derivation refutes.
pub fn refutation_is_sound()
    ensures { Law }
{}

/// All values of the variables that meet the facts meet a row that a derivation entails by them.
pub fn entailment_is_sound()
    ensures { EntailmentLaw }
{}
