//! The refusals of the checked language: each by its number, and the one table of their texts.
//!
//! 10 to 15 are of reading, 20 to 25 of judgements, 30 to 34 of inductive types, 40 to 43 of names and arguments,
//! 50 to 59 of proofs under way, 60 to 62 of budgets, 70 to 89 of proof moves; 90 and 91 are warnings, and 100 is
//! the information that `Check` gives, whose text is a term with its type.
ghost use Rattle.std.specs.Prelude.{◌≡◌};
ghost use Rattle.base_core.specs.Codes.{text_of};

pub const UNEXPECTED_TOKEN: u16 = 10;

pub const NESTED_TOO_DEEP: u16 = 11;

pub const NUMERAL_TOO_GREAT: u16 = 12;

pub const NO_LEVEL: u16 = 13;

pub const UNFINISHED: u16 = 14;

pub const NOT_BUILT: u16 = 15;

pub const UNBOUND: u16 = 20;

pub const NOT_A_FUNCTION: u16 = 21;

pub const TYPE_MISMATCH: u16 = 22;

pub const NOT_A_TYPE: u16 = 23;

pub const UNIVERSE_TOO_LARGE: u16 = 24;

pub const NAME_TAKEN: u16 = 25;

pub const NOT_AN_ARITY: u16 = 30;

pub const WRONG_RESULT: u16 = 31;

pub const NOT_POSITIVE: u16 = 32;

pub const ARGUMENT_UNIVERSE: u16 = 33;

pub const DUPLICATE_NAME: u16 = 34;

pub const UNKNOWN_NAME: u16 = 40;

pub const NO_SUCH_ARGUMENT: u16 = 41;

pub const ARGUMENT_TWICE: u16 = 42;

pub const ARGUMENT_MISSING: u16 = 43;

pub const WRONG_BULLET: u16 = 50;

pub const GOAL_UNSOLVED: u16 = 51;

pub const NO_BRACE: u16 = 52;

pub const ADMITTED_GOALS: u16 = 53;

pub const NO_PROOF: u16 = 54;

pub const PROOF_OPEN: u16 = 55;

pub const NO_GOAL: u16 = 56;

pub const GOALS_REMAIN: u16 = 57;

pub const PROOF_NOT_ENDED: u16 = 58;

pub const NO_GOAL_FOR_BULLET: u16 = 59;

pub const STEP_BUDGET: u16 = 60;

pub const DEPTH_BUDGET: u16 = 61;

pub const SIZE_BUDGET: u16 = 62;

pub const NO_PRODUCT: u16 = 70;

pub const NAME_USED: u16 = 71;

pub const NO_ASSUMPTION: u16 = 72;

pub const NOT_ONE_CONSTRUCTOR: u16 = 73;

pub const NOT_TWO_CONSTRUCTORS: u16 = 74;

pub const NOT_DETERMINED: u16 = 75;

pub const NO_MATCH: u16 = 76;

pub const NOT_AN_EQUALITY: u16 = 77;

pub const NOT_CONVERTIBLE: u16 = 78;

pub const INDICES_NOT_VARIABLES: u16 = 79;

pub const NOT_PERMITTED: u16 = 80;

pub const GOAL_DEPENDS: u16 = 81;

pub const PATTERN_MISFIT: u16 = 82;

pub const NO_HYPOTHESIS: u16 = 83;

pub const NOT_INDUCTIVE: u16 = 84;

pub const NO_SUBTERM: u16 = 85;

pub const VARIABLE_HEAD: u16 = 86;

pub const NOT_AN_EQUATION: u16 = 87;

pub const NOT_TRANSPARENT: u16 = 88;

pub const NAME_NOT_IN_GOAL: u16 = 89;

pub const GOAL_ADMITTED: u16 = 90;

pub const THEOREM_ADMITTED: u16 = 91;

pub const TERM_AND_TYPE: u16 = 100;

/// The text of a refusal or a warning by its number.
pub fn refusal_text(code: u16) -> &'static str
    ensures { result.now ≡ text_of code }
{
    match code {
        UNEXPECTED_TOKEN => "unexpected token",
        NESTED_TOO_DEEP => "nesting over 200",
        NUMERAL_TOO_GREAT => "numeral over 200",
        NO_LEVEL => "universe level out of range",
        UNFINISHED => "unfinished sentence",
        NOT_BUILT => "not built yet",
        UNBOUND => "unbound",
        NOT_A_FUNCTION => "not a function",
        TYPE_MISMATCH => "type mismatch",
        NOT_A_TYPE => "not a type",
        UNIVERSE_TOO_LARGE => "universe too large",
        NAME_TAKEN => "name taken",
        NOT_AN_ARITY => "not an arity",
        WRONG_RESULT => "wrong result of a constructor",
        NOT_POSITIVE => "not strictly positive",
        ARGUMENT_UNIVERSE => "argument's universe too large",
        DUPLICATE_NAME => "duplicate name",
        UNKNOWN_NAME => "unknown name",
        NO_SUCH_ARGUMENT => "no argument of that name",
        ARGUMENT_TWICE => "argument given twice",
        ARGUMENT_MISSING => "argument missing",
        WRONG_BULLET => "wrong bullet",
        GOAL_UNSOLVED => "goal unsolved, admitted",
        NO_BRACE => "no brace to close",
        ADMITTED_GOALS => "admitted goals remain, theorem admitted",
        NO_PROOF => "no proof is open",
        PROOF_OPEN => "a proof is open",
        NO_GOAL => "no focused goal",
        GOALS_REMAIN => "goals remain, theorem admitted",
        PROOF_NOT_ENDED => "proof not ended",
        NO_GOAL_FOR_BULLET => "no goal left for this bullet",
        STEP_BUDGET => "step budget",
        DEPTH_BUDGET => "depth budget",
        SIZE_BUDGET => "size budget",
        NO_PRODUCT => "no product",
        NAME_USED => "name is used",
        NO_ASSUMPTION => "no such assumption",
        NOT_ONE_CONSTRUCTOR => "no type with one constructor",
        NOT_TWO_CONSTRUCTORS => "no type with two constructors",
        NOT_DETERMINED => "argument not determined",
        NO_MATCH => "does not match the goal",
        NOT_AN_EQUALITY => "not an equality",
        NOT_CONVERTIBLE => "sides not convertible",
        INDICES_NOT_VARIABLES => "indices are not distinct variables",
        NOT_PERMITTED => "elimination not permitted",
        GOAL_DEPENDS => "goal depends on the proof",
        PATTERN_MISFIT => "pattern does not fit",
        NO_HYPOTHESIS => "no such hypothesis",
        NOT_INDUCTIVE => "not an inductive type",
        NO_SUBTERM => "no subterm matches",
        VARIABLE_HEAD => "left side has a variable head",
        NOT_AN_EQUATION => "not an equation",
        NOT_TRANSPARENT => "not a transparent definition",
        NAME_NOT_IN_GOAL => "name not in the goal",
        GOAL_ADMITTED => "goal admitted",
        THEOREM_ADMITTED => "theorem admitted",
        _ => "refused",
    }
}
