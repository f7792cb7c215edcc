ghost use Rattle.page_media.specs.Laws.{ChosenAreMet, EachPartHasAWorld, EachWorldHasOnePart, FeaturesAreAll, GuardedIsIf, SameSignsAreEqual};

/// Law: the features of a page's sheets are all that they ask for where these are at most 16, and there are none
/// exactly where they are more.
pub fn features_are_all()
    ensures { FeaturesAreAll }
{}

/// Law: with the signs of a world, the rules that are chosen are those that are met at the world.
pub fn chosen_are_met()
    ensures { ChosenAreMet }
{}

/// Law: a world of a range has exactly one of the sign lists of its parts, and each of these is that of some world.
pub fn each_world_has_one_part()
    ensures one { EachWorldHasOnePart }
    ensures some { EachPartHasAWorld }
    ensures same { SameSignsAreEqual }
{}

/// Law: at each world a guarded formula is as true as the formula where the world has the signs, and true elsewhere.
pub fn guarded_is_if()
    ensures { GuardedIsIf }
{}
