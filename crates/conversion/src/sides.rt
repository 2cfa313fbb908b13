//! Two sides of conversion: what kind of term each is, and which rule is for both.
ghost use Rattle.std.specs.Prelude.{◌≡◌, IfOk};
ghost use Rattle.cic_rules.specs.Convert.{sorts_fit};
ghost use Rattle.term_spine.specs.Spines.{tree_of_spine};
ghost use Rattle.conversion.specs.Sides.{form_in, rule_for, rule_in, one_head, heads_agree};

use base_core::{NoMem, Text};
use cic_rules::Mode;
use core_term::{Node, Sort, Term, sort_le};
use term_spine::Spine;

/// A product or a function: a name with its type, and what stands under it.
#[derive(Drop)]
pub(crate) struct Binder {
    pub name: Text,
    pub domain: Term,
    pub body: Term,
}

/// What kind of term a side is, reduced.
#[derive(Drop)]
pub(crate) enum Form {
    OfSort(Sort),
    Product(Binder),
    Function(Binder),
    /// What eta may apply.
    Neutral,
}

/// The rule for two sides whose heads were reached.
#[derive(Drop)]
pub(crate) enum Rule {
    /// The answer is known.
    Decided(bool),
    /// What is bound is the same, and what stands under it is compared in this mode.
    Binders(Mode, Binder, Binder),
    /// Eta: a function on the left, and another side that is none.
    EtaLeft(Binder),
    /// Eta: a function on the right, and another side that is none.
    EtaRight(Binder),
    /// The heads of both tell.
    Heads,
}

/// Both sides, as heads with arguments.
#[derive(Drop)]
pub(crate) struct Sides {
    pub left: Spine,
    pub right: Spine,
}

/// How a turn of conversion ends.
#[derive(Drop)]
pub(crate) enum Turned {
    Final(bool),
    GoOn(Sides),
}

fn bound(name: &Text, domain: &Term, body: &Term) -> Result<Binder, NoMem>
    ensures { IfOk result (λ b. b ≡ record { name = name.now; domain = domain.now; body = body.now }) }
{
    let name = name.share()?;
    let domain = domain.share()?;
    let body = body.share()?;
    Ok(Binder { name, domain, body })
}

/// What kind of term a side is.
#[tactic(auto, using(crate::proofs::SideLaws::applied_neutral, crate::proofs::SideLaws::not_applied))]
fn form_of(side: &Spine) -> Result<Form, NoMem>
    ensures { IfOk result (λ form. form ≡ form_in (tree_of_spine side.now)) }
{
    if side.args.len() > 0 {
        return Ok(Form::Neutral);
    }
    match side.head.node() {
        Node::Sorted(sort) => Ok(Form::OfSort(*sort)),
        Node::Prod {
            name,
            domain,
            codomain,
        } => {
            let product = bound(name, domain, codomain)?;
            Ok(Form::Product(product))
        }
        Node::Lam { name, domain, body } => {
            let function = bound(name, domain, body)?;
            Ok(Form::Function(function))
        }
        Node::Var(_) => Ok(Form::Neutral),
        Node::Constant(_) => Ok(Form::Neutral),
        Node::LetIn { .. } => Ok(Form::Neutral),
        Node::App { .. } => Ok(Form::Neutral),
    }
}

/// Whether two sorts fit in a mode.
fn sorts_fit(mode: Mode, s: Sort, r: Sort) -> bool
    ensures { result ≡ sorts_fit mode s r }
{
    match mode {
        Mode::Same => s == r,
        Mode::Below => sort_le(s, r),
    }
}

/// The rule for two kinds of terms.
fn rule_for(mode: Mode, left: Form, right: Form) -> Rule
    ensures { result ≡ rule_for mode left right }
{
    match left {
        Form::OfSort(s) => match right {
            Form::OfSort(r) => Rule::Decided(sorts_fit(mode, s, r)),
            Form::Product(_) => Rule::Heads,
            Form::Function(_) => Rule::Heads,
            Form::Neutral => Rule::Heads,
        },
        Form::Product(b) => match right {
            Form::OfSort(_) => Rule::Heads,
            Form::Product(c) => Rule::Binders(mode, b, c),
            Form::Function(_) => Rule::Heads,
            Form::Neutral => Rule::Heads,
        },
        Form::Function(b) => match right {
            Form::OfSort(_) => Rule::Heads,
            Form::Product(_) => Rule::Heads,
            Form::Function(c) => Rule::Binders(Mode::Same, b, c),
            Form::Neutral => Rule::EtaLeft(b),
        },
        Form::Neutral => match right {
            Form::OfSort(_) => Rule::Heads,
            Form::Product(_) => Rule::Heads,
            Form::Function(c) => Rule::EtaRight(c),
            Form::Neutral => Rule::Heads,
        },
    }
}

/// The rule for two sides.
pub(crate) fn rule_of(mode: Mode, left: &Spine, right: &Spine) -> Result<Rule, NoMem>
    ensures { IfOk result (λ rule. rule ≡ rule_in mode (tree_of_spine left.now) (tree_of_spine right.now)) }
{
    let form = form_of(left)?;
    let other = form_of(right)?;
    Ok(rule_for(mode, form, other))
}

/// Whether both sides apply one variable or one global to equally many arguments.
pub(crate) fn heads_agree(left: &Spine, right: &Spine) -> bool
    ensures { result ≡ heads_agree left.now right.now }
{
    if !is_one_head(&left.head, &right.head) {
        return false;
    }
    left.args.len() == right.args.len()
}

fn is_one_head(g: &Term, h: &Term) -> bool
    ensures { result ≡ one_head g.now h.now }
{
    match g.node() {
        Node::Var(i) => match h.node() {
            Node::Var(j) => i == j,
            _ => false,
        },
        Node::Constant(c) => match h.node() {
            Node::Constant(d) => c == d,
            _ => false,
        },
        _ => false,
    }
}

/// The spine once more, in two steps.
pub(crate) fn share_spine(spine: &Spine) -> Result<Spine, NoMem>
    ensures { IfOk result (λ s. s ≡ spine.now) }
{
    let head = spine.head.share()?;
    let args = spine.args.share()?;
    Ok(Spine { head, args })
}
