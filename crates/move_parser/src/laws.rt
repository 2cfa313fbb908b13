//! Laws of the grammar of moves, for the proofs above this crate.

ghost use Rattle.coq_syntax.specs.MeetsWhole.{OneMove, OneMoveAnswer};
ghost use Rattle.move_parser.specs.Lawful.{MoveAnswersMeet};

/// A token list has at most one move.
pub fn one_move()
    ensures { OneMove }
{}

/// What is said of the answer to a move's tokens leaves no choice.
pub fn one_move_answer()
    ensures { OneMoveAnswer }
{}

/// By the rules a token list is the one move, or gets the leftmost refusal.
pub fn law_of_moves()
    ensures { MoveAnswersMeet }
{}
