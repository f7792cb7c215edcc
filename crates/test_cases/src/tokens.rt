use css_semantics::Token;
use css_token::{tokens, unescape};
use serde_json::Value;
use test_scribe::Scribe;

/// A token: kind, first byte, end, and what it stands for.
fn tell(scribe: &mut Scribe, token: &Token<'_>) {
    let end = token.at.saturating_add(token.text.len());
    scribe.open();
    scribe.name(&token.kind);
    scribe.numbers(&[token.at, end]);
    let unescaped = unescape(scribe.alloc(), token);
    if let Some(text) = scribe.kept(unescaped) {
        scribe.quoted(text.as_str());
    }
    scribe.close();
}

fn tell_all(scribe: &mut Scribe, tokens: &[Token<'_>]) {
    scribe.open();
    for token in tokens {
        tell(scribe, token);
    }
    scribe.close();
}

/// The tokens of a text.
pub fn answer(scribe: &mut Scribe, case: &Value) {
    let text = scribe.text_at(case, 1);
    let tokens = tokens(scribe.alloc(), text);
    if let Some(tokens) = scribe.kept(tokens) {
        tell_all(scribe, tokens.as_slice());
    }
}
