//! Names and patterns.

ghost use Rattle.std.specs.Prelude.{IfOk};
ghost use Rattle.coq_syntax.specs.Forms.{cases_of, pattern_of};
ghost use Rattle.move_parser.specs.Parts.{IsPart, IsOptionalOf, AreIdentifiersOf, IsIdentifierOf, IsPatternOf, IsSubjectOf, no_fault, AreNames, AreCases};

use crate::cursor::{Cursor, Halt};
use crate::mark::Mark;
use base_core::NoMem;
use coq_syntax::{BoundName, Pattern, PatternCase, Word};
use std::alloc::Global;

impl<'a> Cursor<'a> {
    /// A name or none, and then the end.
    pub fn last_optional(&mut self, alloc: Global) -> Result<Option<Word>, Halt<'a>>
        ensures { IsPart IsOptionalOf no_fault (λ x. x) self.old result }
    {
        match self.word(alloc)? {
            Some(word) => {
                self.end()?;
                Ok(Some(word))
            }
            None => {
                self.end()?;
                Ok(None)
            }
        }
    }

    /// A name, and then the end.
    pub fn last_identifier(&mut self, alloc: Global) -> Result<Word, Halt<'a>>
        ensures { IsPart IsIdentifierOf no_fault (λ x. x) self.old result }
    {
        let word = self.identifier(alloc)?;
        self.end()?;
        Ok(word)
    }

    /// Names to the end.
    pub fn last_identifiers(&mut self, alloc: Global) -> Result<Vec<Word>, Halt<'a>>
        ensures { IsPart AreIdentifiersOf no_fault (λ v. v.items) self.old result }
    {
        let mut words = Vec::new(alloc);
        while let Some(word) = self.word(alloc)? {
            words.push(word)?;
        }
        self.end()?;
        Ok(words)
    }

    /// Names, as many as stand next.
    fn names(&mut self, alloc: Global) -> Result<Vec<BoundName>, NoMem>
        ensures { IfOk result (λ v. AreNames self.old v.items self.new) }
    {
        let mut names = Vec::new(alloc);
        while let Some(name) = self.name(alloc)? {
            names.push(name)?;
        }
        Ok(names)
    }

    /// Bars with names behind them, as many as stand next.
    fn cases(&mut self, alloc: Global) -> Result<Vec<PatternCase>, NoMem>
        ensures { IfOk result (λ v. AreCases self.old (cases_of v.items) self.new) }
    {
        let mut cases = Vec::new(alloc);
        while let Some(bar) = self.mark(Mark::Bar) {
            let names = self.names(alloc)?;
            cases.push(PatternCase { bar, names })?;
        }
        Ok(cases)
    }

    /// A pattern or none, and then the end.
    fn pattern(&mut self, alloc: Global) -> Result<Option<Pattern>, Halt<'a>>
        ensures { IsPart IsPatternOf no_fault pattern_of self.old result }
    {
        if self.is_at_end() {
            return Ok(None);
        }
        let keyword = self.take(Mark::As)?;
        let opening = self.take(Mark::OpenBracket)?;
        let first = self.names(alloc)?;
        let others = self.cases(alloc)?;
        let closing = self.take(Mark::CloseBracket)?;
        self.end()?;
        Ok(Some(Pattern {
            keyword,
            opening,
            first,
            others,
            closing,
        }))
    }

    /// What is taken apart, and a pattern or none.
    pub fn subject(&mut self, alloc: Global) -> Result<(Word, Option<Pattern>), Halt<'a>>
        ensures { IsPart IsSubjectOf no_fault (λ s. (s.0, pattern_of s.1)) self.old result }
    {
        let word = self.identifier(alloc)?;
        let pattern = self.pattern(alloc)?;
        Ok((word, pattern))
    }
}
