//! The tree of a word that is known to be an expression, built from left to right with no
//! recursion. An atom of an expression is a basis element such as s[2,1], whose list of numbers is
//! in brackets.
ghost use Rattle.std.specs.Prelude.{◌≡◌, ◌++◌, IfOk, IsSome, None, Some};
ghost use Rattle.std.specs.Prelude.{option_map, option_to_list, true};
ghost use Rattle.expression_laws.specs.LeftToRight.{join_factor, join_term, join, awaited};
ghost use Rattle.expression_laws.specs.LeftToRight.{digit, slash, opens_list, comma, closes_list};
ghost use Rattle.expression_laws.specs.LeftToRight.{opens, closes, star, plus_sign, minus_sign};
ghost use Rattle.expression_laws.specs.LeftToRight.{letter_of, no_term, no_factor};
ghost use Rattle.expression_laws.specs.LeftToRight.{start, step, factor_found};
ghost use Rattle.expression_reading.specs.Symbols.{symbol_in};
ghost use Rattle.expression_reading.specs.Trees.{basis_of};
ghost use Rattle.expression_reading.specs.Building.{builds, built_of, terms_in, factors_in};
ghost use Rattle.expression_reading.specs.Building.{part_in, state_of, AreEntries, IsSound};
ghost use Rattle.expression_reading.specs.Building.{CanRead, IsBuildable};
ghost use Rattle.sym_model.specs.Phrase.{Phrase, SpellsPhrase, tree};

use crate::Expr;
use crate::scan::extended;
use crate::symbol::{Symbol, symbol_of};
use calc_base::{Basis, NoMemory};
use partitions::Partition;
use std::alloc::Global;
use std::mem;

/// The text before a term: nothing, a minus at the front, or an expression and its operator.
#[derive(Drop)]
pub(crate) enum LeadingTerms {
    NoTerm,
    Negating,
    Adding(Box<Expr>),
    Subtracting(Box<Expr>),
}

impl LeadingTerms {
    /// The expression made of this text and the term after it.
    fn joined(self, alloc: Global, term: Expr) -> Result<Expr, NoMemory>
        ensures { IfOk result (λ e. built_of e ≡ join_term builds (terms_in self) (built_of term)) }
    {
        match self {
            LeadingTerms::NoTerm => Ok(term),
            LeadingTerms::Negating => Ok(Expr::Negation {
                inner: Box::new(alloc, term)?,
            }),
            LeadingTerms::Adding(left) => Ok(Expr::Sum {
                left,
                right: Box::new(alloc, term)?,
            }),
            LeadingTerms::Subtracting(left) => Ok(Expr::Difference {
                left,
                right: Box::new(alloc, term)?,
            }),
        }
    }
}

/// The text before a factor: nothing, or a term and a star.
#[derive(Drop)]
pub(crate) enum LeadingFactors {
    NoFactor,
    Multiplying(Box<Expr>),
}

impl LeadingFactors {
    /// The term made of this text and the factor after it.
    fn joined(self, alloc: Global, factor: Expr) -> Result<Expr, NoMemory>
        ensures { IfOk result (λ e. built_of e
            ≡ join_factor builds (factors_in self) (built_of factor)) }
    {
        match self {
            LeadingFactors::NoFactor => Ok(factor),
            LeadingFactors::Multiplying(left) => Ok(Expr::Product {
                left,
                right: Box::new(alloc, factor)?,
            }),
        }
    }
}

/// The part of a factor that has been read. Within the list of an atom, it has the numbers that are
/// followed by a comma and, if it has begun, the number after them.
#[derive(Drop)]
pub(crate) enum Part {
    Awaited,
    Number(u128),
    Slash(u128),
    Denominator(u128, u128),
    Letter(Basis),
    List(Basis, Vec<u16>, Option<u128>),
    Closed(Expr),
}

impl Part {
    /// The factor, which must have been read to its end.
    fn into_factor(self) -> Expr
        requires sound { IsSound (part_in self) }
        requires whole { IsSome (factor_found builds (part_in self)) }
        ensures { factor_found builds (part_in self) ≡ Some (built_of result) }
    {
        match self {
            Part::Number(value) => Expr::Number { num: value as i128 },
            Part::Denominator(num, den) => Expr::Fraction {
                num: num as i128,
                den: den as i128,
            },
            Part::Closed(factor) => factor,
            _ => unreachable!(),
        }
    }
}

/// The text before a factor, back to the last open parenthesis.
#[derive(Drop)]
pub(crate) struct Frame {
    pub(crate) terms: LeadingTerms,
    pub(crate) factors: LeadingFactors,
}

impl Frame {
    /// The frame without any text.
    fn empty() -> Frame
        ensures terms { terms_in result.terms ≡ no_term }
        ensures factors { factors_in result.factors ≡ no_factor }
    {
        Frame {
            terms: LeadingTerms::NoTerm,
            factors: LeadingFactors::NoFactor,
        }
    }

    /// The expression made of this text and the factor after it.
    fn joined(self, alloc: Global, factor: Expr) -> Result<Expr, NoMemory>
        ensures { IfOk result (λ e. built_of e
            ≡ join builds (terms_in self.terms) (factors_in self.factors) (built_of factor)) }
    {
        let Frame { terms, factors } = self;
        terms.joined(alloc, factors.joined(alloc, factor)?)
    }
}

/// Appends the number that has been read, if there is one, to the numbers of a list.
#[tactic(auto, using(crate::proofs::BuildFacts::last_at_most))]
fn end_entry(numbers: &mut Vec<u16>, entry: &mut Option<u128>) -> Result<(), NoMemory>
    requires { AreEntries (numbers.old.items ++ option_to_list entry.old) }
    ensures numbers { IfOk result (λ _. numbers.new.items
        ≡ numbers.old.items ++ option_to_list entry.old) }
    ensures entry { entry.new ≡ None }
{
    match entry.take() {
        None => Ok(()),
        Some(value) => {
            numbers.push(value as u16)?;
            Ok(())
        }
    }
}

/// An atom as an expression.
fn atom(alloc: Global, basis: Basis, numbers: &[u16]) -> Result<Expr, NoMemory>
    requires { AreEntries numbers.now }
    ensures { IfOk result (λ e. built_of e ≡ builds.label_of (basis_of basis) numbers.now) }
{
    let label = Partition::from_valid_numbers(alloc, numbers)?;
    Ok(Expr::Atom { basis, label })
}

/// The expression built so far: the part of a factor, the text before it back to the last open
/// parenthesis, and the text before each open parenthesis.
#[derive(Drop)]
pub(crate) struct Builder {
    pub(crate) part: Part,
    pub(crate) frame: Frame,
    pub(crate) opened: Vec<Frame>,
}

impl Builder {
    /// The state before the first byte.
    fn start(alloc: Global) -> Builder
        ensures { state_of result ≡ start }
    {
        Builder {
            part: Part::Awaited,
            frame: Frame::empty(),
            opened: Vec::new(alloc),
        }
    }

    /// Reads a digit.
    fn read_digit(&mut self, byte: u8)
        requires { CanRead self.old (digit byte) }
        ensures { state_of self.new ≡ step builds (state_of self.old) (digit byte) }
    {
        let first = u128::from(byte - b'0');
        match &mut self.part {
            Part::Awaited => self.part = Part::Number(first),
            Part::Slash(num) => self.part = Part::Denominator(*num, first),
            Part::Number(value) => *value = extended(*value, byte),
            Part::Denominator(_, den) => *den = extended(*den, byte),
            Part::List(_, _, Some(value)) => *value = extended(*value, byte),
            Part::List(_, _, entry) => *entry = Some(first),
            Part::Letter(_) | Part::Closed(_) => unreachable!(),
        }
    }

    /// Reads the slash after a numerator.
    fn read_slash(&mut self)
        requires { CanRead self.old slash }
        ensures { state_of self.new ≡ step builds (state_of self.old) slash }
    {
        match self.part {
            Part::Number(num) => self.part = Part::Slash(num),
            _ => unreachable!(),
        }
    }

    /// Reads the letter of an atom.
    fn read_letter(&mut self, basis: Basis)
        requires { CanRead self.old (letter_of (basis_of basis)) }
        ensures { state_of self.new ≡ step builds (state_of self.old) (letter_of (basis_of basis)) }
    {
        self.part = Part::Letter(basis);
    }

    /// Reads the bracket before the list of an atom.
    fn read_open_list(&mut self, alloc: Global)
        requires { CanRead self.old opens_list }
        ensures { state_of self.new ≡ step builds (state_of self.old) opens_list }
    {
        match self.part {
            Part::Letter(basis) => self.part = Part::List(basis, Vec::new(alloc), None),
            _ => unreachable!(),
        }
    }

    /// Reads the comma after a number of a list.
    fn read_comma(&mut self) -> Result<(), NoMemory>
        requires { CanRead self.old comma }
        ensures { IfOk result (λ _. state_of self.new ≡ step builds (state_of self.old) comma) }
    {
        match &mut self.part {
            Part::List(_, numbers, entry) => end_entry(numbers, entry),
            _ => unreachable!(),
        }
    }

    /// Reads the bracket after the list of an atom.
    fn read_close_list(&mut self, alloc: Global) -> Result<(), NoMemory>
        requires { CanRead self.old closes_list }
        ensures { IfOk result (λ _. state_of self.new
            ≡ step builds (state_of self.old) closes_list) }
    {
        match &mut self.part {
            Part::List(basis, numbers, entry) => {
                end_entry(numbers, entry)?;
                let factor = atom(alloc, *basis, numbers)?;
                self.part = Part::Closed(factor);
                Ok(())
            }
            _ => unreachable!(),
        }
    }

    /// Reads a parenthesis that opens.
    #[tactic(auto, using(crate::proofs::BuildFacts::opened_snoc))]
    fn read_open(&mut self) -> Result<(), NoMemory>
        requires { CanRead self.old opens }
        ensures { IfOk result (λ _. state_of self.new ≡ step builds (state_of self.old) opens) }
    {
        let before = mem::replace(&mut self.frame, Frame::empty());
        self.opened.push(before)?;
        Ok(())
    }

    /// Takes out the factor that has been read and the text before it, back to the last open
    /// parenthesis, as one expression.
    fn take_expression(&mut self, alloc: Global) -> Result<Expr, NoMemory>
        requires sound { IsSound (part_in self.old.part) }
        requires whole { IsSome (factor_found builds (part_in self.old.part)) }
        ensures value { IfOk result (λ e.
            option_map (join builds (terms_in self.old.frame.terms)
            (factors_in self.old.frame.factors)) (factor_found builds (part_in self.old.part))
            ≡ Some (built_of e)) }
        ensures part { part_in self.new.part ≡ awaited }
        ensures factors { factors_in self.new.frame.factors ≡ no_factor }
        ensures opened { self.new.opened ≡ self.old.opened }
    {
        let factor = mem::replace(&mut self.part, Part::Awaited).into_factor();
        mem::replace(&mut self.frame, Frame::empty()).joined(alloc, factor)
    }

    /// Reads a parenthesis that closes.
    #[tactic(auto, using(crate::proofs::BuildFacts::opened_snoc))]
    fn read_close(&mut self, alloc: Global) -> Result<(), NoMemory>
        requires { CanRead self.old closes }
        ensures { IfOk result (λ _. state_of self.new ≡ step builds (state_of self.old) closes) }
    {
        let inner = self.take_expression(alloc)?;
        match self.opened.pop() {
            None => unreachable!(),
            Some(outer) => {
                self.part = Part::Closed(inner);
                self.frame = outer;
                Ok(())
            }
        }
    }

    /// Reads a star.
    fn read_star(&mut self, alloc: Global) -> Result<(), NoMemory>
        requires { CanRead self.old star }
        ensures { IfOk result (λ _. state_of self.new ≡ step builds (state_of self.old) star) }
    {
        let factor = mem::replace(&mut self.part, Part::Awaited).into_factor();
        let before = mem::replace(&mut self.frame.factors, LeadingFactors::NoFactor);
        let left = before.joined(alloc, factor)?;
        self.frame.factors = LeadingFactors::Multiplying(Box::new(alloc, left)?);
        Ok(())
    }

    /// Reads a plus.
    fn read_plus(&mut self, alloc: Global) -> Result<(), NoMemory>
        requires { CanRead self.old plus_sign }
        ensures { IfOk result (λ _. state_of self.new ≡ step builds (state_of self.old) plus_sign) }
    {
        let left = self.take_expression(alloc)?;
        self.frame.terms = LeadingTerms::Adding(Box::new(alloc, left)?);
        Ok(())
    }

    /// Reads a minus, which follows a factor or is the first symbol of an expression.
    fn read_minus(&mut self, alloc: Global) -> Result<(), NoMemory>
        requires { CanRead self.old minus_sign }
        ensures { IfOk result (λ _. state_of self.new
            ≡ step builds (state_of self.old) minus_sign) }
    {
        if let Part::Awaited = &self.part {
            self.frame.terms = LeadingTerms::Negating;
            return Ok(());
        }
        let left = self.take_expression(alloc)?;
        self.frame.terms = LeadingTerms::Subtracting(Box::new(alloc, left)?);
        Ok(())
    }

    /// Reads the next symbol of a word that is an expression, provided that a number that ends
    /// before it has no error. If memory runs out, the builder must not be used again.
    fn read(&mut self, alloc: Global, symbol: Symbol) -> Result<(), NoMemory>
        requires { CanRead self.old (symbol_in symbol) }
        ensures { IfOk result (λ _. state_of self.new
            ≡ step builds (state_of self.old) (symbol_in symbol)) }
    {
        match symbol {
            Symbol::Digit(byte) => self.read_digit(byte),
            Symbol::Slash => self.read_slash(),
            Symbol::Letter(basis) => self.read_letter(basis),
            Symbol::OpenList => self.read_open_list(alloc),
            Symbol::Comma => self.read_comma()?,
            Symbol::CloseList => self.read_close_list(alloc)?,
            Symbol::Open => self.read_open()?,
            Symbol::Close => self.read_close(alloc)?,
            Symbol::Star => self.read_star(alloc)?,
            Symbol::Plus => self.read_plus(alloc)?,
            Symbol::Minus => self.read_minus(alloc)?,
            Symbol::Other => unreachable!(),
        }
        Ok(())
    }
}

/// The tree of a word that is an expression. The numbers of the word, the lists of its atoms and
/// its parentheses must have no error, and no number of an atom may exceed the greatest degree.
pub(crate) fn build(alloc: Global, word: &[u8]) -> Result<Expr, NoMemory>
    requires { IsBuildable word.now }
    ensures { IfOk result (λ e. (phrase : Phrase) → SpellsPhrase word.now phrase
        → built_of e ≡ (tree phrase, true)) }
{
    let mut builder = Builder::start(alloc);
    for byte in word {
        builder.read(alloc, symbol_of(*byte))?;
    }
    builder.take_expression(alloc)
}
