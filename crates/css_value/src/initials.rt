ghost use Rattle.std.specs.Prelude.{◌≡◌};
ghost use Rattle.css_semantics.specs.Properties.{row};
ghost use Rattle.css_value.specs.Initials.{initial_value};

use css_semantics::{AT_FIRST, AT_INLINE, AT_MEDIUM_SIZE, AT_MEDIUM_WIDTH};
use viz_base::Prop;

/// The value of a property that nothing sets, where it doesn't inherit or at the root (CSS 2.1, 6.1.1).
#[derive(Clone, Copy, Debug, PartialEq, Eq)]
pub enum Initial {
    /// The keyword at this place, from 0, among those that the property takes.
    Word(u8),
    /// A length of zero.
    Zero,
    /// No name of a font family.
    NoFamilies,
}

/// The initial value of a property (CSS 2.1, 6.1.1).
pub fn initial_of(prop: Prop) -> Initial
    ensures { initial_value result ≡ (row prop).initial }
{
    match prop {
        Prop::Display => Initial::Word(AT_INLINE),
        Prop::FontSize => Initial::Word(AT_MEDIUM_SIZE),
        Prop::FontFamily => Initial::NoFamilies,
        Prop::BorderTopWidth
        | Prop::BorderRightWidth
        | Prop::BorderBottomWidth
        | Prop::BorderLeftWidth => Initial::Word(AT_MEDIUM_WIDTH),
        Prop::MinWidth
        | Prop::MinHeight
        | Prop::MarginTop
        | Prop::MarginRight
        | Prop::MarginBottom
        | Prop::MarginLeft
        | Prop::PaddingTop
        | Prop::PaddingRight
        | Prop::PaddingBottom
        | Prop::PaddingLeft
        | Prop::TextIndent => Initial::Zero,
        _ => Initial::Word(AT_FIRST),
    }
}

/// Whether a property inherits (CSS 2.1, 6.2).
pub fn inherits(prop: Prop) -> bool
    ensures { result ≡ (row prop).inherits }
{
    matches!(
        prop,
        Prop::Direction
            | Prop::FontSize
            | Prop::FontFamily
            | Prop::LineHeight
            | Prop::TextAlign
            | Prop::WhiteSpace
            | Prop::TextIndent
            | Prop::LetterSpacing
            | Prop::WordSpacing
            | Prop::TextTransform
            | Prop::ListStylePosition
    )
}
