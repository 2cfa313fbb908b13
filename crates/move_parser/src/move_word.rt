//! The words that proof moves begin with.

ghost use Rattle.std.specs.Prelude.{◌≡◌};
ghost use Rattle.move_parser.specs.MoveWords as spec;

/// The word of a proof move.
#[derive(Clone, Copy, Debug, PartialEq, Eq)]
pub enum MoveWord {
    Exact,
    Apply,
    Rewrite,
    /// The word of a move without a term.
    Plain(PlainWord),
}

/// The word of a proof move without a term.
#[derive(Clone, Copy, Debug, PartialEq, Eq)]
pub enum PlainWord {
    Intro,
    Intros,
    Assumption,
    Split,
    Left,
    Right,
    Reflexivity,
    Admit,
    Simpl,
    Unfold,
    Destruct,
    Induction,
}

#[tactic(auto, unfolding(crate::specs::MoveWords::plain_word_of_text))]
fn plain_word_of_text(text: &str) -> Option<PlainWord>
    ensures { result ≡ spec.plain_word_of_text text.now }
{
    match text {
        "intro" => Some(PlainWord::Intro),
        "intros" => Some(PlainWord::Intros),
        "assumption" => Some(PlainWord::Assumption),
        "split" => Some(PlainWord::Split),
        "left" => Some(PlainWord::Left),
        "right" => Some(PlainWord::Right),
        "reflexivity" => Some(PlainWord::Reflexivity),
        "admit" => Some(PlainWord::Admit),
        "simpl" => Some(PlainWord::Simpl),
        "unfold" => Some(PlainWord::Unfold),
        "destruct" => Some(PlainWord::Destruct),
        "induction" => Some(PlainWord::Induction),
        _ => None,
    }
}

#[tactic(auto, unfolding(crate::specs::MoveWords::word_of_text))]
pub fn word_of_text(text: &str) -> Option<MoveWord>
    ensures { result ≡ spec.word_of_text text.now }
{
    match text {
        "exact" => Some(MoveWord::Exact),
        "apply" => Some(MoveWord::Apply),
        "rewrite" => Some(MoveWord::Rewrite),
        _ => match plain_word_of_text(text) {
            Some(word) => Some(MoveWord::Plain(word)),
            None => None,
        },
    }
}
