//! Classes of characters.
ghost use Rattle.std.specs.Prelude.{◌≡◌};
ghost use Rattle.sentence_split.specs.Items.{is_blank, begins, opens, closes};
ghost use Rattle.coq_syntax.specs.Characters.{starts_word, continues_word, is_digit, is_mark, is_pair, begins_pair, is_wildcard, is_reserved};

pub fn is_blank(character: char) -> bool
    ensures { result ≡ is_blank character }
{
    character == ' ' || character == '\t' || character == '\r' || character == '\n'
}

pub fn starts_word(character: char) -> bool
    ensures { result ≡ starts_word character }
{
    unicode_ident::is_xid_start(character) || character == '_'
}

pub fn continues_word(character: char) -> bool
    ensures { result ≡ continues_word character }
{
    unicode_ident::is_xid_continue(character) || character == '\''
}

pub fn is_digit(character: char) -> bool
    ensures { result ≡ is_digit character }
{
    character >= '0' && character <= '9'
}

/// Whether this is a symbol of one character.
pub fn is_mark(character: char) -> bool
    ensures { result ≡ is_mark character }
{
    matches!(
        character,
        '(' | ')' | '[' | ']' | '{' | '}' | ',' | ':' | '=' | '~' | '|' | '@' | '.'
    )
}

/// Whether the two are a symbol.
fn is_pair(first: char, second: char) -> bool
    ensures { result ≡ is_pair first second }
{
    matches!(
        (first, second),
        (':', '=') | ('=', '>') | ('-', '>') | ('<', '-') | ('/', '\\') | ('\\', '/')
    )
}

pub fn begins_pair(first: char, rest: &[char]) -> bool
    ensures { result ≡ begins_pair first rest.now }
{
    match rest {
        [] => false,
        [second, ..] => is_pair(first, *second),
    }
}

fn begins(character: char, text: &[char]) -> bool
    ensures { result ≡ begins character text.now }
{
    match text {
        [] => false,
        [first, ..] => *first == character,
    }
}

/// Whether a comment mark `(*` begins at this character.
pub fn opens(character: char, rest: &[char]) -> bool
    ensures { result ≡ opens character rest.now }
{
    character == '(' && begins('*', rest)
}

/// Whether a comment mark `*)` begins at this character.
pub fn closes(character: char, rest: &[char]) -> bool
    ensures { result ≡ closes character rest.now }
{
    character == '*' && begins(')', rest)
}

pub fn is_wildcard(word: &str) -> bool
    ensures { result ≡ is_wildcard word.now }
{
    word == "_"
}

/// Whether a word is no identifier but a part of the grammar.
pub fn is_reserved(word: &str) -> bool
    ensures { result ≡ is_reserved word.now }
{
    word == "forall"
        || word == "fun"
        || word == "let"
        || word == "in"
        || word == "as"
        || word == "Prop"
        || word == "Set"
        || word == "Type"
        || word == "match"
        || word == "with"
        || word == "end"
        || word == "return"
        || word == "fix"
}
