//! Rules of the grammar as values: a token, one rule behind another, parts that may be absent, and lists. Each reads exactly what
//! its definition does, so that a rule of many parts is read by one call.
ghost use Rattle.std.specs.Prelude.{ℕ, Bool, ◌≡◌, ◌∷◌, ◌<◌, ◌≤◌, ◌++◌, [], length, IfOk};
ghost use Rattle.ds2_tree.specs.Parsers.{Parser, first, when, kept, to, seq, many_of, optional};
ghost use Rattle.ds2_tree.specs.Promise.{Gives};
ghost use Rattle.ds2_token.specs.declared.token.Token.{Token};
ghost use Rattle.ds2_token.specs.Words.{is_one_of};
ghost use Rattle.ds2_parse_rules.specs.GrammarTokens.{mark_rule, word_rule, starts, one_or_more};
ghost use Rattle.ds2_parse_rules.specs.TokenClasses.{is_in_class};
ghost use Rattle.ds2_parse_rules.specs.TreeViews.{TreeView, seen_as_it_is, seen_through, both_seen};

use crate::front::{Parsed, mark, word};
use crate::front_words::{TokenClass, at, begins_with, starts_with, token};
use ds2_base::{List, Place};
use ds2_token::Token;
use std::alloc::Global;

/// A test on the token at the front.
pub trait Front {
    /// The tokens that pass it.
    ghost test: { Self → Token → Bool };

    /// Whether the token at the front passes it.
    fn is_at(&self, tokens: &[Token]) -> bool
        ensures { result ≡ when (test self.now) (first tokens.now) };
}

/// A rule of the grammar, which reads at least one token.
pub trait Rule {
    /// What it is read as.
    type Tree: Drop;

    /// What definitions see of it.
    ghost view: { TreeView Self.Tree } = { seen_as_it_is Self.Tree };

    /// The rule; m bounds the turns of each list.
    ghost grammar: { Self → ℕ → Parser Self.view.Seen };

    /// Reads exactly what the rule does, but for want of memory.
    fn read<'t>(&self, alloc: Global, tokens: &'t [Token], end: Place) -> Parsed<'t, Self::Tree>
        ensures exact { (m : ℕ) → length tokens.now < m → Gives end (λ x. (Self.view.one x.0, x.1.now)) result (grammar self.now m tokens.now) }
        ensures shorter { IfOk result (λ r. length r.1.now < length tokens.now) };
}

// ---- one token

/// A mark of one spelling, read as its place.
#[derive(Clone, Copy)]
pub struct Mark<'s>(pub &'s str);

impl Front for Mark<'_> {
    ghost test = { λ s. is_one_of [] (s.0.now ∷ []) };

    fn is_at(&self, tokens: &[Token]) -> bool {
        begins_with(tokens, self.0)
    }
}

impl Rule for Mark<'_> {
    type Tree = Place;

    ghost grammar = { λ s m. mark_rule s.0.now };

    fn read<'t>(&self, alloc: Global, tokens: &'t [Token], end: Place) -> Parsed<'t, Place> {
        mark(tokens, end, self.0)
    }
}

/// A word, which is in lower case here.
#[derive(Clone, Copy)]
pub struct Word<'s>(pub &'s str);

impl Front for Word<'_> {
    ghost test = { λ s. starts s.0.now };

    fn is_at(&self, tokens: &[Token]) -> bool {
        starts_with(tokens, self.0)
    }
}

impl Rule for Word<'_> {
    type Tree = Token;

    ghost grammar = { λ s m. word_rule s.0.now };

    fn read<'t>(&self, alloc: Global, tokens: &'t [Token], end: Place) -> Parsed<'t, Token> {
        word(alloc, tokens, end, self.0)
    }
}

impl Front for TokenClass {
    ghost test = { is_in_class };

    fn is_at(&self, tokens: &[Token]) -> bool {
        at(tokens, *self)
    }
}

impl Rule for TokenClass {
    type Tree = Token;

    ghost grammar = { λ s m. kept (is_in_class s) };

    fn read<'t>(&self, alloc: Global, tokens: &'t [Token], end: Place) -> Parsed<'t, Token> {
        token(alloc, tokens, end, *self)
    }
}

// ---- parts that may be absent, and lists

/// What the rule reads, where a token with which it begins is at the front.
pub fn optional_of<'t, F: Front, R: Rule>(
    alloc: Global,
    begins: &F,
    rule: &R,
    tokens: &'t [Token],
    end: Place,
) -> Parsed<'t, Option<R::Tree>>
    ensures exact { (m : ℕ) → length tokens.now < m → Gives end (λ x. (R.view.any x.0, x.1.now)) result (optional (F.test begins.now) (R.grammar rule.now m) tokens.now) }
    ensures shorter { IfOk result (λ r. length r.1.now ≤ length tokens.now) }
{
    if begins.is_at(tokens) {
        let (tree, rest) = rule.read(alloc, tokens, end)?;
        return Ok((Some(tree), rest));
    }
    Ok((None, tokens))
}

/// Further items, behind those that were found, up to a token with which none begins.
pub fn further_of<'t, F: Front, R: Rule>(
    alloc: Global,
    begins: &F,
    item: &R,
    found: List<R::Tree>,
    tokens: &'t [Token],
    end: Place,
) -> Parsed<'t, List<R::Tree>>
    ensures exact { (m : ℕ) → length tokens.now < m → Gives end (λ x. (R.view.all x.0, x.1.now)) result (to (λ l. R.view.all found ++ l) (many_of m (F.test begins.now) (R.grammar item.now m)) tokens.now) }
    ensures shorter { IfOk result (λ r. length r.1.now ≤ length tokens.now) }
{
    let mut found = found;
    let mut rest = tokens;
    while begins.is_at(rest) {
        let (tree, after) = item.read(alloc, rest, end)?;
        found.push(tree)?;
        rest = after;
    }
    Ok((found, rest))
}

/// { item }
pub fn items_of<'t, F: Front, R: Rule>(
    alloc: Global,
    begins: &F,
    item: &R,
    tokens: &'t [Token],
    end: Place,
) -> Parsed<'t, List<R::Tree>>
    ensures exact { (m : ℕ) → length tokens.now < m → Gives end (λ x. (R.view.all x.0, x.1.now)) result (many_of m (F.test begins.now) (R.grammar item.now m) tokens.now) }
    ensures shorter { IfOk result (λ r. length r.1.now ≤ length tokens.now) }
{
    let found = List::new(alloc);
    further_of(alloc, begins, item, found, tokens, end)
}

/// item { item }, where each further one begins with such a token.
#[derive(Clone, Copy)]
pub struct SomeOf<F, R>(pub F, pub R);

impl<F: Front, R: Rule> Rule for SomeOf<F, R> {
    type Tree = List<R::Tree>;

    ghost view = { seen_through R.view.all };

    ghost grammar = { λ s m. one_or_more m (F.test s.0) (R.grammar s.1 m) };

    fn read<'t>(
        &self,
        alloc: Global,
        tokens: &'t [Token],
        end: Place,
    ) -> Parsed<'t, List<R::Tree>> {
        let (tree, rest) = self.1.read(alloc, tokens, end)?;
        let mut found = List::new(alloc);
        found.push(tree)?;
        further_of(alloc, &self.0, &self.1, found, rest, end)
    }
}

// ---- one behind the other

/// One rule, and another one behind it.
#[derive(Clone, Copy)]
pub struct Then<A, B>(pub A, pub B);

impl<A: Rule, B: Rule> Rule for Then<A, B> {
    type Tree = (A::Tree, B::Tree);

    ghost view = { seen_through (both_seen A.view.one B.view.one) };

    ghost grammar = { λ s m. seq (A.grammar s.0 m) (B.grammar s.1 m) };

    fn read<'t>(&self, alloc: Global, tokens: &'t [Token], end: Place) -> Parsed<'t, Self::Tree> {
        let (part, rest) = self.0.read(alloc, tokens, end)?;
        let (next, rest) = self.1.read(alloc, rest, end)?;
        Ok(((part, next), rest))
    }
}

/// What a rule reads, where a token with which it begins is at the front, and another rule behind it.
#[derive(Clone, Copy)]
pub struct OptionalThen<F, R, N>(pub F, pub R, pub N);

impl<F: Front, R: Rule, N: Rule> Rule for OptionalThen<F, R, N> {
    type Tree = (Option<R::Tree>, N::Tree);

    ghost view = { seen_through (both_seen R.view.any N.view.one) };

    ghost grammar = { λ s m. seq (optional (F.test s.0) (R.grammar s.1 m)) (N.grammar s.2 m) };

    fn read<'t>(&self, alloc: Global, tokens: &'t [Token], end: Place) -> Parsed<'t, Self::Tree> {
        let (part, rest) = optional_of(alloc, &self.0, &self.1, tokens, end)?;
        let (next, rest) = self.2.read(alloc, rest, end)?;
        Ok(((part, next), rest))
    }
}

/// A rule, and behind it what another one reads, where a token with which that begins is there.
#[derive(Clone, Copy)]
pub struct ThenOptional<A, F, R>(pub A, pub F, pub R);

impl<A: Rule, F: Front, R: Rule> Rule for ThenOptional<A, F, R> {
    type Tree = (A::Tree, Option<R::Tree>);

    ghost view = { seen_through (both_seen A.view.one R.view.any) };

    ghost grammar = { λ s m. seq (A.grammar s.0 m) (optional (F.test s.1) (R.grammar s.2 m)) };

    fn read<'t>(&self, alloc: Global, tokens: &'t [Token], end: Place) -> Parsed<'t, Self::Tree> {
        let (part, rest) = self.0.read(alloc, tokens, end)?;
        let (next, rest) = optional_of(alloc, &self.1, &self.2, rest, end)?;
        Ok(((part, next), rest))
    }
}

/// { item }, each beginning with such a token, and another rule behind them.
#[derive(Clone, Copy)]
pub struct ItemsThen<F, R, N>(pub F, pub R, pub N);

impl<F: Front, R: Rule, N: Rule> Rule for ItemsThen<F, R, N> {
    type Tree = (List<R::Tree>, N::Tree);

    ghost view = { seen_through (both_seen R.view.all N.view.one) };

    ghost grammar = { λ s m. seq (many_of m (F.test s.0) (R.grammar s.1 m)) (N.grammar s.2 m) };

    fn read<'t>(&self, alloc: Global, tokens: &'t [Token], end: Place) -> Parsed<'t, Self::Tree> {
        let (part, rest) = items_of(alloc, &self.0, &self.1, tokens, end)?;
        let (next, rest) = self.2.read(alloc, rest, end)?;
        Ok(((part, next), rest))
    }
}
