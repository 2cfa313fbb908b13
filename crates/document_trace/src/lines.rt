//! The lines of a trace.
use base_core::{Kind, Text};
use prover_iface::{GoalView, GoalsView, HypView, ItemKind, OutlineItem, RelDiag};
use std::alloc::AllocError;

fn kind_word(kind: Kind) -> &'static str {
    match kind {
        Kind::Plain => "Plain",
        Kind::Bullet => "Bullet",
        Kind::BraceOpen => "BraceOpen",
        Kind::BraceClose => "BraceClose",
        Kind::Unfinished => "Unfinished",
    }
}

fn item_word(kind: ItemKind) -> &'static str {
    match kind {
        ItemKind::Axiom => "Axiom",
        ItemKind::Definition => "Definition",
        ItemKind::Inductive => "Inductive",
        ItemKind::Theorem => "Theorem",
        ItemKind::Admitted => "Admitted",
    }
}

/// `[COST KIND] SENTENCE`
pub fn add_sentence(
    lines: &mut String,
    kind: Kind,
    cost: u32,
    sentence: &str,
) -> Result<(), AllocError> {
    let kind = kind_word(kind);
    write!(lines, "[{cost} {kind}] {sentence}\n")
}

/// `SEVERITY CODE FROM..TO TEXT`, with offsets from the sentence's start.
pub fn add_diag(lines: &mut String, diag: &RelDiag) -> Result<(), AllocError> {
    let (severity, code, from, to) = (diag.severity, diag.code, diag.from, diag.to);
    let text = diag.text.as_str();
    write!(lines, "    {severity} {code} {from}..{to} {text}\n")
}

/// `NAME : TYPE; `, with a value `NAME := VALUE : TYPE; `
fn add_hypothesis(lines: &mut String, hyp: &HypView) -> Result<(), AllocError> {
    let (name, ty) = (hyp.name.as_str(), hyp.ty.as_str());
    match &hyp.value {
        Some(value) => {
            let value = value.as_str();
            write!(lines, "{name} := {value} : {ty}; ")
        }
        None => write!(lines, "{name} : {ty}; "),
    }
}

/// `HYPOTHESES |- TYPE`
fn add_goal(lines: &mut String, goal: &GoalView) -> Result<(), AllocError> {
    for hyp in goal.hyps.as_slice() {
        add_hypothesis(lines, hyp)?;
    }
    let ty = goal.ty.as_str();
    write!(lines, "|- {ty}\n")
}

/// The goals behind one word.
fn add_goals_as(lines: &mut String, word: &str, goals: &[GoalView]) -> Result<(), AllocError> {
    for goal in goals {
        write!(lines, "    {word} ")?;
        add_goal(lines, goal)?;
    }
    Ok(())
}

/// The goals that wait at a level.
fn add_level(lines: &mut String, level: usize, goals: &[GoalView]) -> Result<(), AllocError> {
    if goals.is_empty() {
        return write!(lines, "    level {level} empty\n");
    }
    for goal in goals {
        write!(lines, "    level {level} ")?;
        add_goal(lines, goal)?;
    }
    Ok(())
}

/// The goals in focus, those that wait at each level, the innermost first, and those that are given up.
pub fn add_goals(lines: &mut String, view: &GoalsView) -> Result<(), AllocError> {
    add_goals_as(lines, "goal", view.goals.as_slice())?;
    let stack = view.stack.as_slice();
    for level in 0..stack.len() {
        add_level(lines, level, stack[level].as_slice())?;
    }
    add_goals_as(lines, "given up", view.given_up.as_slice())
}

/// The sentence that began a proof which the document leaves open.
pub fn add_left_open(lines: &mut String, opened: Option<u32>) -> Result<(), AllocError> {
    match opened {
        Some(number) => write!(lines, "    58 at sentence {number}\n"),
        None => Ok(()),
    }
}

/// Names with a comma between them.
fn add_names(lines: &mut String, names: &[Text]) -> Result<(), AllocError> {
    let mut comma = "";
    for name in names {
        let name = name.as_str();
        write!(lines, "{comma}\"{name}\"")?;
        comma = ", ";
    }
    Ok(())
}

/// `KIND NAME : STATEMENT [AXIOMS] FIRST-LAST`
pub fn add_item(lines: &mut String, item: &OutlineItem) -> Result<(), AllocError> {
    let kind = item_word(item.kind);
    let (name, statement) = (item.name.as_str(), item.statement.as_str());
    write!(lines, "    {kind} {name} : {statement} [")?;
    add_names(lines, item.axioms.as_slice())?;
    let (first, last) = (item.first, item.last);
    write!(lines, "] {first}-{last}\n")
}
