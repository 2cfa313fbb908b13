//! The forms of a command line.
ghost use Rattle.std.specs.Prelude.{◌≡◌, ◌*◌, ◌≤◌, true, map, drop, length, string_bytes, MatchOption, None, Some, IfOk, IfSome};
ghost use Rattle.fleche_main.specs.Words.{is_file, are_all_files, are_files, is_flag, names_of, behind_pairs};
ghost use Rattle.fleche_main.specs.Words.{session_named, is_digit, digit_value, number_of_digits, number_of, within, number_named};

use base_core::{NoMem, Text, TextList};
use std::alloc::Global;

/// How many files one run checks.
pub const FILE_LIMIT: usize = 1000;

/// Whether a word names a file: it is not empty and doesn't begin with `-`.
fn is_file(word: &str) -> bool
    ensures { result ≡ is_file word.now }
{
    match word.as_bytes() {
        [] => false,
        [first, ..] => *first != b'-',
    }
}

fn are_all_files(words: &[String]) -> bool
    ensures { result ≡ are_all_files (map string_bytes words.now) }
{
    let mut rest = words;
    while let [word, behind @ ..] = rest {
        if !is_file(word.as_str()) {
            return false;
        }
        rest = behind;
    }
    true
}

/// Whether words name at least one file, and at most `FILE_LIMIT`.
pub fn are_files(words: &[String]) -> bool
    ensures { result ≡ are_files (map string_bytes words.now) }
{
    !words.is_empty() && words.len() <= FILE_LIMIT && are_all_files(words)
}

/// Whether a word is `--observe`.
pub fn is_flag(word: &str) -> bool
    ensures { result ≡ is_flag word.now }
{
    word == "--observe"
}

/// What stands behind the pairs `--observe NAME` at the front.
pub fn behind_pairs(words: &[String]) -> &[String]
    ensures { map string_bytes result.now ≡ behind_pairs (map string_bytes words.now) }
{
    let mut rest = words;
    while let [flag, _name, behind @ ..] = rest {
        if !is_flag(flag.as_str()) {
            break;
        }
        rest = behind;
    }
    rest
}

/// The names in the pairs `--observe NAME` at the front.
pub fn names_of(alloc: Global, words: &[String]) -> Result<TextList, NoMem>
    ensures { IfOk result (λ names. names ≡ names_of (map string_bytes words.now)) }
{
    let mut names = TextList::new(alloc);
    let mut rest = words;
    while let [flag, name, behind @ ..] = rest {
        if !is_flag(flag.as_str()) {
            return Ok(names);
        }
        names.push(Text::copy(alloc, name.as_str())?)?;
        rest = behind;
    }
    Ok(names)
}

/// Whether the words ask for a session, by `serve` or `serve --paced`, and for a paced one.
pub fn session_named(words: &[String]) -> Option<bool>
    ensures { result ≡ session_named (map string_bytes words.now) }
{
    match words {
        [command] if command.as_str() == "serve" => Some(false),
        [command, flag] if command.as_str() == "serve" && flag.as_str() == "--paced" => Some(true),
        _ => None,
    }
}

fn digit_value(sign: u8) -> u32
    requires { is_digit sign ≡ true }
    ensures value { result ≡ digit_value sign }
    ensures small { result ≤ 9 }
{
    u32::from(sign - b'0')
}

/// The number of four digits.
fn number_of_digits(a: u8, b: u8, c: u8, d: u8) -> Option<u32>
    ensures { result ≡ number_of_digits a b c d }
{
    if is_digit(a) && is_digit(b) && is_digit(c) && is_digit(d) {
        Some(1000 * digit_value(a) + 100 * digit_value(b) + 10 * digit_value(c) + digit_value(d))
    } else {
        None
    }
}

fn is_digit(sign: u8) -> bool
    ensures { result ≡ is_digit sign }
{
    b'0' <= sign && sign <= b'9'
}

/// The number of a word of one to four digits.
fn number_of(word: &str) -> Option<u32>
    ensures { result ≡ number_of word.now }
{
    match word.as_bytes() {
        [d] => number_of_digits(b'0', b'0', b'0', *d),
        [c, d] => number_of_digits(b'0', b'0', *c, *d),
        [b, c, d] => number_of_digits(b'0', *b, *c, *d),
        [a, b, c, d] => number_of_digits(*a, *b, *c, *d),
        _ => None,
    }
}

fn within(limit: u32, number: Option<u32>) -> Option<u32>
    ensures value { result ≡ within limit number }
    ensures small { IfSome result (λ n. n ≤ limit) }
{
    match number {
        Some(n) if 0 < n && n <= limit => Some(n),
        _ => None,
    }
}

/// How large a document the words ask to make, by `gen N`.
pub fn number_named(limit: u32, words: &[String]) -> Option<u32>
    ensures value { result ≡ number_named limit (map string_bytes words.now) }
    ensures small { IfSome result (λ n. n ≤ limit) }
{
    match words {
        [command, word] if command.as_str() == "gen" => within(limit, number_of(word.as_str())),
        _ => None,
    }
}
