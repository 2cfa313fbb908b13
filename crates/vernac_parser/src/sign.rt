//! What a token is to the grammar.

ghost use Rattle.std.specs.Prelude.{◌≡◌};
ghost use Rattle.vernac_parser.specs.Signs as spec;

use coq_syntax::{Token, TokenKind};

/// What a token is to the grammar: its kind and, of reserved words and symbols, which.
#[derive(Clone, Copy, PartialEq, Eq)]
pub enum Sign {
    Identifier,
    Wildcard,
    Number,
    Forall,
    Fun,
    Let,
    In,
    PropSort,
    SetSort,
    TypeSort,
    /// `:=`
    Assign,
    /// `=>`
    Yields,
    /// `->`
    Arrow,
    /// `/\`
    And,
    /// `\/`
    Or,
    /// `(`
    Open,
    /// `)`
    Close,
    /// `{`
    OpenBrace,
    /// `}`
    CloseBrace,
    /// `,`
    Comma,
    /// `:`
    Colon,
    /// `=`
    Equal,
    /// `~`
    Not,
    /// `|`
    Bar,
    /// `@`
    At,
    /// A token that no rule takes, or the end of the list.
    Other,
}

#[tactic(auto, unfolding(crate::specs::Signs::reserved_sign))]
fn reserved_sign(word: &str) -> Sign
    ensures { result ≡ spec.reserved_sign word.now }
{
    match word {
        "forall" => Sign::Forall,
        "fun" => Sign::Fun,
        "let" => Sign::Let,
        "in" => Sign::In,
        "Prop" => Sign::PropSort,
        "Set" => Sign::SetSort,
        "Type" => Sign::TypeSort,
        _ => Sign::Other,
    }
}

#[tactic(auto, unfolding(crate::specs::Signs::symbol_sign))]
fn symbol_sign(symbol: &str) -> Sign
    ensures { result ≡ spec.symbol_sign symbol.now }
{
    match symbol {
        "(" => Sign::Open,
        ")" => Sign::Close,
        "->" => Sign::Arrow,
        ":" => Sign::Colon,
        "," => Sign::Comma,
        ":=" => Sign::Assign,
        "=>" => Sign::Yields,
        "=" => Sign::Equal,
        "/\\" => Sign::And,
        "\\/" => Sign::Or,
        "~" => Sign::Not,
        "|" => Sign::Bar,
        "@" => Sign::At,
        "{" => Sign::OpenBrace,
        "}" => Sign::CloseBrace,
        _ => Sign::Other,
    }
}

fn wildcard_sign(text: &str) -> Sign
    ensures { result ≡ spec.sign_by TokenKind.Wildcard text.now }
{
    if text == "_" {
        Sign::Wildcard
    } else {
        Sign::Other
    }
}

pub fn sign_of(token: &Token) -> Sign
    ensures { result ≡ spec.sign_of token.now }
{
    match token.kind {
        TokenKind::Identifier => Sign::Identifier,
        TokenKind::Wildcard => wildcard_sign(token.text.as_str()),
        TokenKind::Reserved => reserved_sign(token.text.as_str()),
        TokenKind::Number => Sign::Number,
        TokenKind::Symbol => symbol_sign(token.text.as_str()),
        TokenKind::Quoted | TokenKind::Other => Sign::Other,
    }
}

/// The sign of the first of these tokens, or of the end.
pub fn sign_at(tokens: &[Token]) -> Sign
    ensures { result ≡ spec.sign_at tokens.now }
{
    match tokens {
        [first, ..] => sign_of(first),
        [] => Sign::Other,
    }
}

pub fn is_sign(a: Sign, b: Sign) -> bool
    ensures { result ≡ spec.is_sign a b }
{
    a == b
}

pub fn begins_atom(sign: Sign) -> bool
    ensures { result ≡ spec.begins_atom sign }
{
    matches!(
        sign,
        Sign::Identifier
            | Sign::Number
            | Sign::PropSort
            | Sign::SetSort
            | Sign::TypeSort
            | Sign::Open
    )
}

pub fn begins_open(sign: Sign) -> bool
    ensures { result ≡ spec.begins_open sign }
{
    matches!(sign, Sign::Forall | Sign::Fun | Sign::Let)
}

pub fn begins_term(sign: Sign) -> bool
    ensures { result ≡ spec.begins_term sign }
{
    matches!(sign, Sign::Not) || begins_open(sign) || begins_atom(sign)
}
