//! Classes of bytes.
ghost use Rattle.std.specs.Prelude.{◌≡◌};
ghost use Rattle.sentence_split.specs.Items.{is_blank, begins, opens, closes};
ghost use Rattle.sentence_split.specs.Split.{is_bullet, is_ended};

/// A space, tab, carriage return or line feed.
pub fn is_blank(byte: u8) -> bool
    ensures { result ≡ is_blank byte }
{
    byte == b' ' || byte == b'\t' || byte == b'\r' || byte == b'\n'
}

pub fn is_bullet(byte: u8) -> bool
    ensures { result ≡ is_bullet byte }
{
    byte == b'-' || byte == b'+' || byte == b'*'
}

fn begins(byte: u8, text: &[u8]) -> bool
    ensures { result ≡ begins byte text.now }
{
    match text {
        [] => false,
        [first, ..] => *first == byte,
    }
}

/// Whether a comment mark `(*` begins at this byte.
pub fn opens(byte: u8, rest: &[u8]) -> bool
    ensures { result ≡ opens byte rest.now }
{
    byte == b'(' && begins(b'*', rest)
}

/// Whether a comment mark `*)` begins at this byte.
pub fn closes(byte: u8, rest: &[u8]) -> bool
    ensures { result ≡ closes byte rest.now }
{
    byte == b'*' && begins(b')', rest)
}

/// Whether a blank or the end follows.
pub fn is_ended(rest: &[u8]) -> bool
    ensures { result ≡ is_ended rest.now }
{
    match rest {
        [] => true,
        [first, ..] => is_blank(*first),
    }
}
