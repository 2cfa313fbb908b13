//! Laws of the definitions that the other clauses cite, for the proofs above this crate.

ghost use Rattle.std.specs.Prelude.{◌≡◌, ℕ, List, None, Err, true, false};
ghost use Rattle.coq_syntax.specs.Tokens.{Tokens};
ghost use Rattle.coq_syntax.specs.Examples.{ArrowsGroupRight, NotIsLooserThanEqual, OrIsLooserThanAnd, NumeralsEndAt200, LevelsBeginAt1, RulesNest200Deep, OnlyTheFirstBarIsFree, TermsOfACommandNestAlone, PatternsHaveCases, RewritesMayGoBack, FaultsOfAMoveAreItsTerms};
ghost use Rattle.std.specs.Str.{IsUtf8};
ghost use Rattle.base_core.specs.Fit.{EndsInPeriod};
ghost use Rattle.coq_syntax.specs.CommandTrees.{Command};
ghost use Rattle.coq_syntax.specs.MoveTrees.{Move};
ghost use Rattle.coq_syntax.specs.Trees.{Term};
ghost use Rattle.base_core.specs.declared.refusals.Refusal.{Refusal};
ghost use Rattle.base_core.specs.declared.refusals.Stop.TheVariants.{Refused};
ghost use Rattle.coq_syntax.specs.Answers.{IsPlaceIn, IsCommandParsed, IsMoveParsed};
ghost use Rattle.coq_syntax.specs.Meets.{fault_of_term};
ghost use Rattle.coq_syntax.specs.Levels.{HasLevels, CommandHasLevels, MoveHasLevels};
ghost use Rattle.coq_syntax.specs.Commands.{command_tokens, command_fault};
ghost use Rattle.coq_syntax.specs.Moves.{move_tokens, move_fault};
ghost use Rattle.coq_syntax.specs.CommandWords.{is_command};
ghost use Rattle.coq_syntax.specs.Pieces.{IsTokenList};
ghost use Rattle.coq_syntax.specs.SentenceTokens.{sentence_tokens};

/// A sentence has at most one token list.
pub fn law_of_tokens()
    ensures { (sentence : List ℕ) (a b : Tokens) → IsTokenList sentence a → IsTokenList sentence b → a ≡ b }
{}

/// The function of a sentence's bytes gives its token list.
pub fn law_of_sentence_tokens()
    ensures { (s : List ℕ) → IsUtf8 s → EndsInPeriod s → IsTokenList s (sentence_tokens s) }
{}

/// A command begins with the word of one, and a proof move does not.
pub fn law_of_commands_and_moves()
    ensures commands { (c : Command) → is_command (command_tokens c) ≡ true }
    ensures moves { (m : Move) → is_command (move_tokens m) ≡ false }
{}

/// Each level in a tree without a fault is one: a parser gives no other.
pub fn law_of_levels()
    ensures terms { (t : Term) → fault_of_term t ≡ None → HasLevels t }
    ensures commands { (c : Command) → command_fault c ≡ None → CommandHasLevels c }
    ensures moves { (m : Move) → move_fault m ≡ None → MoveHasLevels m }
{}

/// A refusal of a command's or a move's tokens stands at one of them, or at the period.
pub fn law_of_places()
    ensures commands { (l : Tokens) (r : Refusal) → IsCommandParsed l (Err (Refused r)) → IsPlaceIn l r.place }
    ensures moves { (l : Tokens) (r : Refusal) → IsMoveParsed l (Err (Refused r)) → IsPlaceIn l r.place }
{}

/// Worked examples of the grammars of terms, commands and moves, and of what is refused of them.
pub fn law_of_examples()
    ensures arrows { ArrowsGroupRight }
    ensures not_equal { NotIsLooserThanEqual }
    ensures or_and { OrIsLooserThanAnd }
    ensures numerals { NumeralsEndAt200 }
    ensures levels { LevelsBeginAt1 }
    ensures nesting { RulesNest200Deep }
    ensures bars { OnlyTheFirstBarIsFree }
    ensures alone { TermsOfACommandNestAlone }
    ensures patterns { PatternsHaveCases }
    ensures backward { RewritesMayGoBack }
    ensures move_faults { FaultsOfAMoveAreItsTerms }
{}
