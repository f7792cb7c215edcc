//! What a symbolic calc keeps, and which paths it may be made over.

ghost use Rattle.std.specs.Prelude.{◌≡◌, IsTrue};
ghost use Rattle.viz_base.specs.declared.worlds.World.{World};
ghost use Rattle.viz_calc.specs.State.{IsOpenWorld};
ghost use Rattle.sym_calc.specs.Calc.{state_of};
ghost use Rattle.sym_calc.specs.Laws.{KeptAreThoseOfThePath, OpenAreOnThePath, RightIsRefuted, SoundIsKnown, WrongIsFault};

use crate::sym::Sym;

/// Each world that a symbolic calc keeps is open, whatever was asked of it.
pub fn sym_keeps_its_worlds(sym: &Sym<'_>)
    ensures { (w : World) → IsTrue ((state_of sym.now).kept.worlds w)
        → IsOpenWorld (state_of sym.now) w }
{}

/// The worlds that are kept over the facts and floors of a certificate's path are those of the range on it, and so are
/// the worlds of all readings that are open over them.
pub fn kept_worlds_are_those_of_the_path()
    ensures kept { KeptAreThoseOfThePath }
    ensures opens { OpenAreOnThePath }
{}

/// A symbolic calc may be made over each path whose rows name declared variables, its floors being by numbers above 0.
pub fn sound_paths_are_known()
    ensures { SoundIsKnown }
{}

/// Answers that a symbolic calc found right over a path's facts and floors are as a leaf of a certificate on that path
/// is to show, and one that it found wrong at a line is wrong there below floors.
pub fn answers_are_refuted_below_their_path()
    ensures refuted { RightIsRefuted }
    ensures wrong { WrongIsFault }
{}
