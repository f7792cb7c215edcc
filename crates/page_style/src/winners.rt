ghost use Rattle.std.specs.Prelude.{◌≡◌};
ghost use Rattle.std.specs.Option.{option_copied};
ghost use Rattle.css_semantics.specs.CascadeOrder.{is_prop};
ghost use Rattle.css_semantics.specs.ComputedValues.{specified, winner};
ghost use Rattle.css_semantics.specs.Properties.{row};
ghost use Rattle.page_style.specs.Specified.{value_of};

use viz_base::{Prop, Setting, Value};

/// The specified value of a property at a node (CSS 2.1, 6.1.1).
#[derive(Clone, Copy)]
pub enum Specified<'a> {
    /// The initial value.
    Initial,
    /// `inherit`.
    Inherit,
    /// Another.
    Value(&'a Value),
}

/// Whether two properties are the same.
fn is_prop(p: Prop, q: Prop) -> bool
    ensures { result ≡ is_prop p q }
{
    p == q
}

/// What wins for a property.
fn winner<'a>(winners: &'a [Setting], prop: Prop) -> Option<&'a Value>
    ensures { option_copied result ≡ winner prop winners.now }
{
    for setting in winners {
        if is_prop(setting.prop, prop) {
            return Some(&setting.value);
        }
    }
    None
}

/// The specified value of a property, which inherits or doesn't.
pub fn specified_value<'a>(winners: &'a [Setting], prop: Prop, inherits: bool) -> Specified<'a>
    requires { inherits ≡ (row prop).inherits }
    ensures { value_of prop result ≡ specified prop winners.now }
{
    match winner(winners, prop) {
        Some(Value::Inherit) => Specified::Inherit,
        Some(value) => Specified::Value(value),
        None => {
            if inherits {
                Specified::Inherit
            } else {
                Specified::Initial
            }
        }
    }
}
