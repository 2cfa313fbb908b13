//! Laws of the grammar and of the rules, for the proofs above this crate.

ghost use Rattle.std.specs.Prelude.{ℕ, Err};
ghost use Rattle.base_core.specs.declared.refusals.Refusal.{Refusal};
ghost use Rattle.base_core.specs.declared.refusals.Stop.TheVariants.{Refused};
ghost use Rattle.coq_syntax.specs.Tokens.{Tokens};
ghost use Rattle.coq_syntax.specs.Answers.{IsPlaceIn};
ghost use Rattle.vernac_parser.specs.Answers.{IsParsed};
ghost use Rattle.coq_syntax.specs.Meets.{OneTree, OneAnswer};
ghost use Rattle.coq_syntax.specs.MeetsWhole.{OneCommand, OneCommandAnswer};
ghost use Rattle.vernac_parser.specs.Lawful.{AnswersMeet, CommandAnswersMeet};

/// A token list has at most one tree.
pub fn one_tree()
    ensures { OneTree }
{}

/// By the rules a token list gets the one tree at its front, or the leftmost refusal.
pub fn law_of_answers()
    ensures { AnswersMeet }
{}

/// A token list has at most one command.
pub fn one_command()
    ensures { OneCommand }
{}

/// By the rules a token list is the one command, or gets the leftmost refusal.
pub fn law_of_commands()
    ensures { CommandAnswersMeet }
{}

/// What is said of the answer to a term's tokens leaves no choice.
pub fn one_answer()
    ensures { OneAnswer }
{}

/// What is said of the answer to a command's tokens leaves no choice.
pub fn one_command_answer()
    ensures { OneCommandAnswer }
{}

/// A refusal of a term's tokens stands at one of them, or at the period.
pub fn law_of_term_places()
    ensures { (l : Tokens) (at : ℕ) (r : Refusal) → IsParsed l at (Err (Refused r)) → IsPlaceIn l r.place }
{}
