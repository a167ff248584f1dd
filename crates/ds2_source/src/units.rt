//! The parser of units and of the parts of a source.
ghost use Rattle.std.specs.Prelude.{ℕ, ◌<◌, ◌≤◌, codes, length, IfOk, map};
ghost use Rattle.ds2_tree.specs.Parsers.{One, Two, to, seq};
ghost use Rattle.ds2_tree.specs.Promise.{Gives, Promises};
ghost use Rattle.ds2_tree.specs.UnitViews.{package_tree, thread_tree, data_tree, part_tree};
ghost use Rattle.ds2_parse_rules.specs.GrammarTokens.{mark_rule, word_rule};
ghost use Rattle.ds2_parse_rules.specs.UnitGrammar as grammar;
ghost use Rattle.ds2_parse_rules.specs.TreeViews.{seen_through};
ghost use Rattle.ds2_source.specs.ParseAnswer.{part_symbol};
ghost use Rattle.ds2_source.specs.UnitBodies.{unit_body_parts};

use crate::globals::GlobalRule;
use ds2_base::{List, Place};
use ds2_parse_declarations::outputs::OutputRule;
use ds2_parse_declarations::parameters::ParametersRule;
use ds2_parse_rules::front::Parsed;
use ds2_parse_rules::front_words::{TokenClass, starts_with};
use ds2_parse_rules::rules::{ItemsThen, Mark, OptionalThen, Rule, SomeOf, Then, Word, items_of};
use ds2_token::Token;
use ds2_tree::{DataProgram, GlobalItem, Package, SourcePart, Thread};
use std::alloc::Global;

/// What stands behind the `;` of a unit's first line.
#[derive(Drop)]
pub struct UnitBody {
    pub globals: List<GlobalItem>,
    pub end_keyword: Token,
    pub end: Place,
}

/// { global }, the word that ends the unit, and ";"; each statement opens at most these levels
#[derive(Clone, Copy)]
pub struct UnitBodyRule<'s> {
    pub levels: u64,
    pub end_word: &'s str,
}

impl Rule for UnitBodyRule<'_> {
    type Tree = UnitBody;

    ghost view = { seen_through unit_body_parts };

    ghost grammar = { λ s m. grammar.unit_body_rule m s.levels s.end_word.now };

    fn read<'t>(&self, alloc: Global, tokens: &'t [Token], end: Place) -> Parsed<'t, UnitBody> {
        let global = GlobalRule {
            levels: self.levels,
        };
        let ending = Then(Word(self.end_word), Mark(";"));
        let rule = ItemsThen(TokenClass::GlobalItem, global, ending);
        let (parts, rest) = rule.read(alloc, tokens, end)?;
        let (globals, (end_keyword, semicolon)) = parts;
        let body = UnitBody {
            globals,
            end_keyword,
            end: semicolon,
        };
        Ok((body, rest))
    }
}

// "package" pname ";" { global } "endpackage" ";"
fn package(alloc: Global, tokens: &[Token], end: Place, levels: u64) -> Parsed<'_, Package>
    ensures exact { (m : ℕ) → length tokens.now < m → Gives end (λ x. (package_tree x.0, x.1.now)) result (grammar.package_rule m levels tokens.now) }
    ensures shorter { IfOk result (λ r. length r.1.now < length tokens.now) }
{
    let body = UnitBodyRule {
        levels,
        end_word: "endpackage",
    };
    let named = Then(TokenClass::PackageName, Then(Mark(";"), body));
    let (parts, rest) = Then(Word("package"), named).read(alloc, tokens, end)?;
    let (keyword, (name, (semicolon, body))) = parts;
    let package = Package {
        keyword,
        name,
        semicolon,
        globals: body.globals,
        end_keyword: body.end_keyword,
        end: body.end,
        tokens: tokens.len() - rest.len(),
    };
    Ok((package, rest))
}

// "thread" name [ "(" [ param { "," param } ] ")" ] ";" { global } "endthread" ";"
fn thread(alloc: Global, tokens: &[Token], end: Place, levels: u64) -> Parsed<'_, Thread>
    ensures exact { (m : ℕ) → length tokens.now < m → Gives end (λ x. (thread_tree x.0, x.1.now)) result (grammar.thread_rule m levels tokens.now) }
    ensures shorter { IfOk result (λ r. length r.1.now < length tokens.now) }
{
    let body = UnitBodyRule {
        levels,
        end_word: "endthread",
    };
    let behind = OptionalThen(Mark("("), ParametersRule, Then(Mark(";"), body));
    let named = Then(TokenClass::Name, behind);
    let (parts, rest) = Then(Word("thread"), named).read(alloc, tokens, end)?;
    let (keyword, (name, (parameters, (semicolon, body)))) = parts;
    let thread = Thread {
        keyword,
        name,
        parameters,
        semicolon,
        globals: body.globals,
        end_keyword: body.end_keyword,
        end: body.end,
    };
    Ok((thread, rest))
}

// "data" output { output } ";" { global } "enddata" ";"
fn data_program(alloc: Global, tokens: &[Token], end: Place, levels: u64) -> Parsed<'_, DataProgram>
    ensures exact { (m : ℕ) → length tokens.now < m → Gives end (λ x. (data_tree x.0, x.1.now)) result (grammar.data_rule m levels tokens.now) }
    ensures shorter { IfOk result (λ r. length r.1.now < length tokens.now) }
{
    let body = UnitBodyRule {
        levels,
        end_word: "enddata",
    };
    let outputs = SomeOf(TokenClass::Table, OutputRule);
    let behind = Then(outputs, Then(Mark(";"), body));
    let (parts, rest) = Then(Word("data"), behind).read(alloc, tokens, end)?;
    let (keyword, (outputs, (semicolon, body))) = parts;
    let program = DataProgram {
        keyword,
        outputs,
        semicolon,
        globals: body.globals,
        end_keyword: body.end_keyword,
        end: body.end,
    };
    Ok((program, rest))
}

// A package, a thread program or a data program, by its word.
fn unit(alloc: Global, tokens: &[Token], end: Place, levels: u64) -> Parsed<'_, SourcePart>
    ensures exact { (m : ℕ) → length tokens.now < m → Gives end (λ x. (part_tree x.0, x.1.now)) result (to (λ x. grammar.part_of_kind (Two (Two (Two x)))) (grammar.unit_rule m levels) tokens.now) }
    ensures shorter { IfOk result (λ r. length r.1.now < length tokens.now) }
{
    if starts_with(tokens, "package") {
        let (package, rest) = package(alloc, tokens, end, levels)?;
        return Ok((SourcePart::Package(package), rest));
    }
    if starts_with(tokens, "thread") {
        let (thread, rest) = thread(alloc, tokens, end, levels)?;
        return Ok((SourcePart::Thread(thread), rest));
    }
    let (program, rest) = data_program(alloc, tokens, end, levels)?;
    Ok((SourcePart::Data(program), rest))
}

// "proc" "ds2" ";"
fn proc(alloc: Global, tokens: &[Token], end: Place) -> Parsed<'_, SourcePart>
    ensures exact { Gives end (λ x. (part_tree x.0, x.1.now)) result (to (λ x. grammar.part_of_kind (One x)) (seq (word_rule (codes "proc")) (seq (word_rule (codes "ds2")) (mark_rule (codes ";")))) tokens.now) }
    ensures shorter { IfOk result (λ r. length r.1.now < length tokens.now) }
{
    let rule = Then(Word("proc"), Then(Word("ds2"), Mark(";")));
    let (parts, rest) = rule.read(alloc, tokens, end)?;
    let (keyword, (ds2, semicolon)) = parts;
    let part = SourcePart::Proc {
        keyword,
        ds2,
        end: semicolon,
    };
    Ok((part, rest))
}

// "run" ";"
fn run(alloc: Global, tokens: &[Token], end: Place) -> Parsed<'_, SourcePart>
    ensures exact { Gives end (λ x. (part_tree x.0, x.1.now)) result (to (λ x. grammar.part_of_kind (Two (One x))) (seq (word_rule (codes "run")) (mark_rule (codes ";"))) tokens.now) }
    ensures shorter { IfOk result (λ r. length r.1.now < length tokens.now) }
{
    let (parts, rest) = Then(Word("run"), Mark(";")).read(alloc, tokens, end)?;
    let (keyword, semicolon) = parts;
    let part = SourcePart::Run {
        keyword,
        end: semicolon,
    };
    Ok((part, rest))
}

// "quit" ";"
fn quit(alloc: Global, tokens: &[Token], end: Place) -> Parsed<'_, SourcePart>
    ensures exact { Gives end (λ x. (part_tree x.0, x.1.now)) result (to (λ x. grammar.part_of_kind (Two (Two (One x)))) (seq (word_rule (codes "quit")) (mark_rule (codes ";"))) tokens.now) }
    ensures shorter { IfOk result (λ r. length r.1.now < length tokens.now) }
{
    let (parts, rest) = Then(Word("quit"), Mark(";")).read(alloc, tokens, end)?;
    let (keyword, semicolon) = parts;
    let part = SourcePart::Quit {
        keyword,
        end: semicolon,
    };
    Ok((part, rest))
}

// A part of a source.
fn part(alloc: Global, tokens: &[Token], end: Place, levels: u64) -> Parsed<'_, SourcePart>
    ensures exact { (m : ℕ) → length tokens.now < m → Gives end (λ x. (part_tree x.0, x.1.now)) result (grammar.part_rule m levels tokens.now) }
    ensures promise { Promises part_symbol levels end (λ x. (part_tree x.0, x.1.now)) tokens.now result }
    ensures shorter { IfOk result (λ r. length r.1.now < length tokens.now) }
{
    any_part(alloc, tokens, end, levels)
}

// A part of a source, by its first word.
fn any_part(alloc: Global, tokens: &[Token], end: Place, levels: u64) -> Parsed<'_, SourcePart>
    ensures exact { (m : ℕ) → length tokens.now < m → Gives end (λ x. (part_tree x.0, x.1.now)) result (grammar.part_rule m levels tokens.now) }
    ensures shorter { IfOk result (λ r. length r.1.now < length tokens.now) }
{
    if starts_with(tokens, "proc") {
        return proc(alloc, tokens, end);
    }
    if starts_with(tokens, "run") {
        return run(alloc, tokens, end);
    }
    if starts_with(tokens, "quit") {
        return quit(alloc, tokens, end);
    }
    unit(alloc, tokens, end, levels)
}

/// A part of a source; each statement opens at most these levels.
#[derive(Clone, Copy)]
pub struct PartRule {
    pub levels: u64,
}

impl Rule for PartRule {
    type Tree = SourcePart;

    ghost view = { seen_through part_tree };

    ghost grammar = { λ s m. grammar.part_rule m s.levels };

    fn read<'t>(&self, alloc: Global, tokens: &'t [Token], end: Place) -> Parsed<'t, SourcePart> {
        part(alloc, tokens, end, self.levels)
    }
}

/// The parts of a source, up to a token that begins none.
pub fn parts(
    alloc: Global,
    tokens: &[Token],
    end: Place,
    levels: u64,
) -> Parsed<'_, List<SourcePart>>
    ensures exact { (m : ℕ) → length tokens.now < m → Gives end (λ x. (map part_tree x.0, x.1.now)) result (grammar.parts_rule m levels tokens.now) }
    ensures shorter { IfOk result (λ r. length r.1.now ≤ length tokens.now) }
{
    let part = PartRule { levels };
    items_of(alloc, &TokenClass::SourcePart, &part, tokens, end)
}
