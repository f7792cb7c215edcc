use css_value::{Initial, inherits, initial_of, keyword_at, properties, property_name};
use viz_base::Prop;

#[test]
fn columns(rt: HostRuntime) {
    assert!(rt; properties().len() == 40);
    assert!(rt; property_name(Prop::Content) == "content");
    assert!(rt; keyword_at(Prop::Display, 3) == Some("inline-block"));
    assert!(rt; keyword_at(Prop::Display, 5).is_none());
    assert!(rt; initial_of(Prop::BorderLeftWidth) == Initial::Word(1));
    assert!(rt; initial_of(Prop::TextIndent) == Initial::Zero);
    assert!(rt; inherits(Prop::TextIndent));
    assert!(rt; !inherits(Prop::VerticalAlign));
}
