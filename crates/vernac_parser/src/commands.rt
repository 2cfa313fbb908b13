//! The rules of commands.

ghost use Rattle.std.specs.Prelude.{◌≡◌};
ghost use Rattle.coq_syntax.specs.Forms.{constructor_of, constructors_of};
ghost use Rattle.vernac_parser.specs.ParseCommand as spec;
ghost use Rattle.vernac_parser.specs.Views.{with_limit};
ghost use Rattle.vernac_parser.specs.Reads.{Reads, ReadsAs};
ghost use Rattle.vernac_parser.specs.Nests.{Nests};

use crate::cursor::{Halt, Tokens};
use crate::grammar::Grammar;
use crate::rule::Rule;
use crate::sign::Sign;
use coq_syntax::{
    AssumptionWord, Command, CommandForm, CommandWord, Constructor, StatementWord, SurfaceTerm,
    TokenPlace,
};
use std::alloc::Global;

fn begins_constructor(sign: Sign) -> bool
    ensures { result ≡ spec.begins_constructor sign }
{
    matches!(sign, Sign::Bar | Sign::Identifier)
}

/// The word of a command, whichever.
fn keyword(tokens: &mut Tokens<'_>) -> Result<TokenPlace, Halt>
    ensures { Reads (spec.keyword tokens.old) result tokens.new }
{
    tokens.take(Sign::Identifier)
}

impl<F: Fn(Global, &mut Tokens<'_>, usize, Rule) -> Result<SurfaceTerm, Halt>> Grammar<F> {
    #[tactic(auto, unfolding(crate::specs::ParseCommand::assume))]
    fn assume(&self, tokens: &mut Tokens<'_>, word: AssumptionWord) -> Result<Command, Halt>
        requires { Nests self.now.limit (F.pre self.now.nested) (F.post self.now.nested) }
        ensures { Reads (with_limit self.now.limit spec.assume word tokens.old) result tokens.new }
    {
        let keyword = keyword(tokens)?;
        let name = tokens.identifier(self.alloc)?;
        let colon = tokens.take(Sign::Colon)?;
        let ty = self.inner(tokens, Rule::Whole)?;
        Ok(Command::new(CommandForm::Assume {
            word,
            keyword,
            name,
            colon,
            ty,
        }))
    }

    #[tactic(auto, unfolding(crate::specs::ParseCommand::define))]
    fn define(&self, tokens: &mut Tokens<'_>) -> Result<Command, Halt>
        requires { Nests self.now.limit (F.pre self.now.nested) (F.post self.now.nested) }
        ensures { Reads (with_limit self.now.limit spec.define tokens.old) result tokens.new }
    {
        let keyword = keyword(tokens)?;
        let name = tokens.identifier(self.alloc)?;
        let groups = self.groups(tokens)?;
        let annotation = self.annotation(tokens)?;
        let assign = tokens.take(Sign::Assign)?;
        let body = self.inner(tokens, Rule::Whole)?;
        Ok(Command::new(CommandForm::Define {
            keyword,
            name,
            groups,
            annotation,
            assign,
            body,
        }))
    }

    #[tactic(auto, unfolding(crate::specs::ParseCommand::state))]
    fn state(&self, tokens: &mut Tokens<'_>, word: StatementWord) -> Result<Command, Halt>
        requires { Nests self.now.limit (F.pre self.now.nested) (F.post self.now.nested) }
        ensures { Reads (with_limit self.now.limit spec.state word tokens.old) result tokens.new }
    {
        let keyword = keyword(tokens)?;
        let name = tokens.identifier(self.alloc)?;
        let groups = self.groups(tokens)?;
        let colon = tokens.take(Sign::Colon)?;
        let ty = self.inner(tokens, Rule::Whole)?;
        Ok(Command::new(CommandForm::State {
            word,
            keyword,
            name,
            groups,
            colon,
            ty,
        }))
    }

    #[tactic(auto, unfolding(crate::specs::ParseCommand::constructor))]
    fn constructor(
        &self,
        tokens: &mut Tokens<'_>,
        bar: Option<TokenPlace>,
    ) -> Result<Constructor, Halt>
        requires { Nests self.now.limit (F.pre self.now.nested) (F.post self.now.nested) }
        ensures { ReadsAs constructor_of (with_limit self.now.limit spec.constructor bar tokens.old) result tokens.new }
    {
        let name = tokens.identifier(self.alloc)?;
        let groups = self.groups(tokens)?;
        let annotation = self.annotation(tokens)?;
        Ok(Constructor {
            bar,
            name,
            groups,
            annotation,
        })
    }

    #[tactic(auto, unfolding(crate::specs::ParseCommand::barred))]
    fn barred(&self, tokens: &mut Tokens<'_>) -> Result<Constructor, Halt>
        requires { Nests self.now.limit (F.pre self.now.nested) (F.post self.now.nested) }
        ensures { ReadsAs constructor_of (with_limit self.now.limit spec.barred tokens.old) result tokens.new }
    {
        let bar = tokens.take(Sign::Bar)?;
        self.constructor(tokens, Some(bar))
    }

    #[tactic(auto, unfolding(crate::specs::ParseCommand::first_constructor))]
    fn first_constructor(&self, tokens: &mut Tokens<'_>) -> Result<Constructor, Halt>
        requires { Nests self.now.limit (F.pre self.now.nested) (F.post self.now.nested) }
        ensures { ReadsAs constructor_of (with_limit self.now.limit spec.first_constructor tokens.old) result tokens.new }
    {
        if tokens.sees(Sign::Bar) {
            self.barred(tokens)
        } else {
            self.constructor(tokens, None)
        }
    }

    #[tactic(auto, unfolding(crate::specs::ParseCommand::constructors))]
    fn constructors(&self, tokens: &mut Tokens<'_>) -> Result<Vec<Constructor>, Halt>
        requires { Nests self.now.limit (F.pre self.now.nested) (F.post self.now.nested) }
        ensures { ReadsAs
            (λ v. constructors_of v.items) (with_limit self.now.limit spec.constructors tokens.old) result tokens.new }
    {
        let mut constructors = Vec::new(self.alloc);
        if !begins_constructor(tokens.sign()) {
            return Ok(constructors);
        }
        constructors.push(self.first_constructor(tokens)?)?;
        while tokens.sees(Sign::Bar) {
            constructors.push(self.barred(tokens)?)?;
        }
        Ok(constructors)
    }

    #[tactic(auto, unfolding(crate::specs::ParseCommand::inductive))]
    fn inductive(&self, tokens: &mut Tokens<'_>) -> Result<Command, Halt>
        requires { Nests self.now.limit (F.pre self.now.nested) (F.post self.now.nested) }
        ensures { Reads (with_limit self.now.limit spec.inductive tokens.old) result tokens.new }
    {
        let keyword = keyword(tokens)?;
        let name = tokens.identifier(self.alloc)?;
        let groups = self.groups(tokens)?;
        let colon = tokens.take(Sign::Colon)?;
        let arity = self.inner(tokens, Rule::Whole)?;
        let assign = tokens.take(Sign::Assign)?;
        let constructors = self.constructors(tokens)?;
        Ok(Command::new(CommandForm::Inductive {
            keyword,
            name,
            groups,
            colon,
            arity,
            assign,
            constructors,
        }))
    }

    #[tactic(auto, unfolding(crate::specs::ParseCommand::check))]
    fn check(&self, tokens: &mut Tokens<'_>) -> Result<Command, Halt>
        requires { Nests self.now.limit (F.pre self.now.nested) (F.post self.now.nested) }
        ensures { Reads (with_limit self.now.limit spec.check tokens.old) result tokens.new }
    {
        let keyword = keyword(tokens)?;
        let term = self.inner(tokens, Rule::Whole)?;
        Ok(Command::new(CommandForm::Check { keyword, term }))
    }

    fn by_word(&self, tokens: &mut Tokens<'_>, word: Option<CommandWord>) -> Result<Command, Halt>
        requires { Nests self.now.limit (F.pre self.now.nested) (F.post self.now.nested) }
        ensures { Reads (with_limit self.now.limit spec.by_word word tokens.old) result tokens.new }
    {
        match word {
            None => Err(tokens.refuse()),
            Some(CommandWord::Axiom) => self.assume(tokens, AssumptionWord::Axiom),
            Some(CommandWord::Parameter) => self.assume(tokens, AssumptionWord::Parameter),
            Some(CommandWord::Definition) => self.define(tokens),
            Some(CommandWord::Theorem) => self.state(tokens, StatementWord::Theorem),
            Some(CommandWord::Lemma) => self.state(tokens, StatementWord::Lemma),
            Some(CommandWord::Inductive) => self.inductive(tokens),
            Some(CommandWord::Check) => self.check(tokens),
            Some(CommandWord::Proof) => Ok(Command::new(CommandForm::Proof(keyword(tokens)?))),
            Some(CommandWord::Qed) => Ok(Command::new(CommandForm::Qed(keyword(tokens)?))),
            Some(CommandWord::Defined) => Ok(Command::new(CommandForm::Defined(keyword(tokens)?))),
            Some(CommandWord::Admitted) => Ok(Command::new(CommandForm::Admitted(keyword(
                tokens,
            )?))),
            Some(CommandWord::Abort) => Ok(Command::new(CommandForm::Aborted(keyword(tokens)?))),
        }
    }

    #[tactic(auto, unfolding(crate::specs::ParseCommand::row))]
    fn row(&self, tokens: &mut Tokens<'_>) -> Result<Command, Halt>
        requires { Nests self.now.limit (F.pre self.now.nested) (F.post self.now.nested) }
        ensures { Reads (with_limit self.now.limit spec.row tokens.old) result tokens.new }
    {
        let word = tokens.command_word();
        self.by_word(tokens, word)
    }

    /// A command, and then the end.
    #[tactic(auto, unfolding(crate::specs::ParseCommand::command))]
    pub fn command(&self, tokens: &mut Tokens<'_>) -> Result<Command, Halt>
        requires { Nests self.now.limit (F.pre self.now.nested) (F.post self.now.nested) }
        ensures { Reads (with_limit self.now.limit spec.command tokens.old) result tokens.new }
    {
        let command = self.row(tokens)?;
        tokens.end()?;
        Ok(command)
    }
}
