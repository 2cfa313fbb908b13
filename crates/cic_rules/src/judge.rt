//! The judgements as traits: what each call of the kernel answers.
ghost use Rattle.std.specs.Prelude.{length, IfOk};
ghost use Rattle.cic_rules.specs.Fuel.{left, IsSpentOf};
ghost use Rattle.cic_rules.specs.Scopes.{AreNames, UsesOnly};
ghost use Rattle.cic_rules.specs.Judges.{MayJudge, IsTermIn, Meets, MeetsAnswer, IsNeverRefused, whnf_with, conv_with, infer_with, declare_with};

use crate::context::Context;
use crate::decls::Decl;
use crate::env::GlobalEnv;
use crate::fuel::Fuel;
use base_core::{Limit, NoMem, NumberList, Stop};
use core_term::{Sort, Term};
use std::alloc::Global;

/// How two types are compared.
#[derive(Clone, Copy, Debug, PartialEq, Eq)]
pub enum Mode {
    /// They are the same.
    Same,
    /// Each term of the first is one of the second, by the order of sorts.
    Below,
}

/// What conversion answers.
#[derive(Clone, Copy, Debug, PartialEq, Eq)]
pub enum Answer {
    Yes,
    No,
    /// A limit ended it.
    Out(Limit),
}

/// The type of a term, and the places of the globals that were used to find it, ascending.
#[derive(Drop)]
pub struct Inferred {
    pub ty: Term,
    pub used: NumberList,
}

/// The sort of a type, and the places of the globals that were used to find it, ascending.
#[derive(Drop)]
pub struct InferredSort {
    pub sort: Sort,
    pub used: NumberList,
}

/// The two sides of a function's type, and the places of the globals that were used to find it,
/// ascending.
#[derive(Drop)]
pub struct Arrow {
    pub domain: Term,
    pub codomain: Term,
    pub used: NumberList,
}

/// The judgements on terms. Each takes units from the fuel, also where it ends with a refusal or a
/// limit.
pub trait Judge {
    /// The term by weak head reduction: its head is reduced until no rule applies. It stays in
    /// scope.
    fn whnf(
        &self,
        alloc: Global,
        env: &GlobalEnv,
        ctx: &Context,
        t: &Term,
        fuel: &mut Fuel,
    ) -> Result<Term, Stop>
        requires judged { MayJudge env.now ctx.now }
        requires term { IsTermIn env.now ctx.now t.now }
        ensures answer { Meets result (left fuel.new) (whnf_with env.now ctx.now t.now fuel.old) }
        ensures never_refused { IsNeverRefused result }
        ensures scoped { IfOk result (λ u. IsTermIn env.now ctx.now u) }
        ensures kept { IsSpentOf fuel.old fuel.new };

    /// Whether two terms are the same by the rules of reduction, or the first is below the second.
    fn conv(
        &self,
        alloc: Global,
        env: &GlobalEnv,
        ctx: &Context,
        t: &Term,
        u: &Term,
        mode: Mode,
        fuel: &mut Fuel,
    ) -> Result<Answer, NoMem>
        requires judged { MayJudge env.now ctx.now }
        requires first { IsTermIn env.now ctx.now t.now }
        requires second { IsTermIn env.now ctx.now u.now }
        ensures answer { MeetsAnswer result (left fuel.new) (conv_with env.now ctx.now mode t.now u.now fuel.old) }
        ensures kept { IsSpentOf fuel.old fuel.new };

    /// The type of a term. Refused with 20 where a variable or a global is unbound, 21 where what
    /// is applied is no function, 22 where a type is not the one that is wanted, 23 where what
    /// should be a type is none, and 24 where a sort would be above the last level. A term that
    /// has a type is in scope, as its type is; the names used ascend, stand in the environment, and
    /// have each global of the term.
    fn infer(
        &self,
        alloc: Global,
        env: &GlobalEnv,
        ctx: &Context,
        t: &Term,
        fuel: &mut Fuel,
    ) -> Result<Inferred, Stop>
        requires judged { MayJudge env.now ctx.now }
        ensures answer { Meets result (left fuel.new) (infer_with env.now ctx.now t.now fuel.old) }
        ensures term { IfOk result (λ i. IsTermIn env.now ctx.now t.now) }
        ensures scoped { IfOk result (λ i. IsTermIn env.now ctx.now i.ty) }
        ensures names { IfOk result (λ i. AreNames (length env.now) i.used) }
        ensures uses { IfOk result (λ i. UsesOnly i.used t.now) }
        ensures kept { IsSpentOf fuel.old fuel.new };
}

/// A judge that declares globals.
pub trait Declares: Judge {
    /// The environment with what is declared. Refused with 25 where a name is taken, with 30 to 34
    /// where an inductive type breaks a rule, and with the refusals of `infer`; out of size where
    /// the environment is full.
    fn declare(
        &self,
        alloc: Global,
        env: &GlobalEnv,
        decl: &Decl,
        fuel: &mut Fuel,
    ) -> Result<GlobalEnv, Stop>
        ensures answer { Meets result (left fuel.new) (declare_with env.now decl.now fuel.old) }
        ensures kept { IsSpentOf fuel.old fuel.new };
}
