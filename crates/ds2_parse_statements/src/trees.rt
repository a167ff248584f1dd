//! Trees of their parts.
ghost use Rattle.std.specs.Prelude.{◌≡◌, IfOk, map};
ghost use Rattle.std.specs.Option.{option_map};
ghost use Rattle.ds2_tree.specs.Expressions as tree;
ghost use Rattle.ds2_tree.specs.Statements as statement;
ghost use Rattle.ds2_tree.specs.StatementViews.{statement_tree, control_tree, if_else, others_of, whens_of, otherwise_tree};
ghost use Rattle.ds2_parse_rules.specs.StatementGrammar as statement_grammar;
ghost use Rattle.ds2_parse_statements.specs.StatementParts.{else_if_of, arm_parts, first_arm_parts, last_parts, selector_parts};
ghost use Rattle.ds2_tree.specs.ExpressionViews.{expression_tree, arguments_of};
ghost use Rattle.ds2_tree.specs.declared.expressions.Callee.TheVariants as kind_of_callee;
ghost use Rattle.ds2_parse_rules.specs.ExpressionGrammar as grammar;
ghost use Rattle.ds2_parse_statements.specs.ExpressionParts.{operand_pair, argument_parts};

use ds2_base::{List, OutOfMemory, Place};
use ds2_token::Token;
use ds2_tree::{
    Argument, Callee, ChainKind, DoControl, ElseIf, Expression, Operand, Otherwise, Selector,
    Statement, When,
};
use std::alloc::Global;

/// `"(" [args] ")"`
#[derive(Drop)]
pub struct CallArguments {
    pub opening: Place,
    pub arguments: List<Argument>,
    pub closing: Place,
}

/// A chain, or its only operand.
pub fn chain(
    alloc: Global,
    kind: ChainKind,
    first: Expression,
    rest: List<Operand>,
) -> Result<Expression, OutOfMemory>
    ensures { IfOk result (λ e. expression_tree e ≡ grammar.chain_of kind (expression_tree first) (map operand_pair rest)) }
{
    if rest.is_empty() {
        return Ok(first);
    }
    Ok(Expression::Chain {
        kind,
        first: Box::new(alloc, first)?,
        rest,
    })
}

/// A call.
pub fn call(
    alloc: Global,
    callee: Callee,
    arguments: CallArguments,
) -> Result<Expression, OutOfMemory>
    ensures { IfOk result (λ e. expression_tree e ≡ tree.Call callee arguments.opening (arguments_of arguments.arguments) arguments.closing) }
{
    let CallArguments {
        opening,
        arguments,
        closing,
    } = arguments;
    Ok(Expression::Call {
        callee: Box::new(alloc, callee)?,
        opening,
        arguments,
        closing,
    })
}

/// The constant `null`, or a call of the function.
pub fn null(
    alloc: Global,
    keyword: Token,
    arguments: Option<CallArguments>,
) -> Result<Expression, OutOfMemory>
    ensures { IfOk result (λ e. expression_tree e ≡ grammar.null_of keyword (option_map argument_parts arguments)) }
{
    match arguments {
        Some(arguments) => call(alloc, Callee::Null(keyword), arguments),
        None => Ok(Expression::Null(keyword)),
    }
}

/// A member, or a call of the method.
pub fn member(
    alloc: Global,
    object: Token,
    dot: Place,
    member: Token,
    arguments: Option<CallArguments>,
) -> Result<Expression, OutOfMemory>
    ensures { IfOk result (λ e. expression_tree e ≡ grammar.member_of object dot member (option_map argument_parts arguments)) }
{
    match arguments {
        Some(arguments) => call(
            alloc,
            Callee::Method {
                object,
                dot,
                method: member,
            },
            arguments,
        ),
        None => Ok(Expression::Member {
            object,
            dot,
            member: Box::new(alloc, member)?,
        }),
    }
}

/// An expression in parentheses.
pub fn parenthesis(
    alloc: Global,
    opening: Place,
    inner: Expression,
    closing: Place,
) -> Result<Expression, OutOfMemory>
    ensures { IfOk result (λ e. expression_tree e ≡ tree.Parenthesis opening (expression_tree inner) closing) }
{
    Ok(Expression::Parenthesis {
        opening,
        inner: Box::new(alloc, inner)?,
        closing,
    })
}

/// An operand behind its sign.
pub fn signed(
    alloc: Global,
    operator: Token,
    operand: Expression,
) -> Result<Expression, OutOfMemory>
    ensures { IfOk result (λ e. expression_tree e ≡ tree.Sign operator (expression_tree operand)) }
{
    Ok(Expression::Sign {
        operator,
        operand: Box::new(alloc, operand)?,
    })
}

/// A negated operand.
pub fn negated(
    alloc: Global,
    operator: Token,
    operand: Expression,
) -> Result<Expression, OutOfMemory>
    ensures { IfOk result (λ e. expression_tree e ≡ tree.Not operator (expression_tree operand)) }
{
    Ok(Expression::Not {
        operator,
        operand: Box::new(alloc, operand)?,
    })
}

/// A comparison.
pub fn comparison(
    alloc: Global,
    left: Expression,
    operator: Token,
    right: Expression,
) -> Result<Expression, OutOfMemory>
    ensures { IfOk result (λ e. expression_tree e ≡ tree.Comparison (expression_tree left) operator (expression_tree right)) }
{
    Ok(Expression::Comparison {
        left: Box::new(alloc, left)?,
        operator,
        right: Box::new(alloc, right)?,
    })
}

/// A call that is a statement.
pub fn call_statement(callee: Callee, arguments: CallArguments, end: Place) -> Statement
    ensures { statement_tree result ≡ statement.Call callee arguments.opening (arguments_of arguments.arguments) arguments.closing end }
{
    let CallArguments {
        opening,
        arguments,
        closing,
    } = arguments;
    Statement::Call {
        callee,
        opening,
        arguments,
        closing,
        end,
    }
}

/// `"if" expr "then" stmt`
#[derive(Drop)]
pub struct Arm {
    pub keyword: Token,
    pub condition: Expression,
    pub then_keyword: Token,
    pub then: Statement,
}

/// What stands behind an arm: further arms, and a last part where there is one.
#[derive(Drop)]
pub struct ElseParts {
    pub others: List<ElseIf>,
    pub last: Option<Otherwise>,
}

/// An arm behind its `else`.
pub fn else_if(else_keyword: Token, arm: Arm) -> ElseIf
    ensures { result ≡ else_if_of else_keyword arm }
{
    let Arm {
        keyword,
        condition,
        then_keyword,
        then,
    } = arm;
    ElseIf {
        else_keyword,
        keyword,
        condition,
        then_keyword,
        then,
    }
}

/// A last part.
pub fn otherwise(
    alloc: Global,
    keyword: Token,
    statement: Statement,
) -> Result<Otherwise, OutOfMemory>
    ensures { IfOk result (λ o. last_parts o ≡ (keyword, statement_tree statement)) }
{
    Ok(Otherwise {
        keyword,
        statement: Box::new(alloc, statement)?,
    })
}

/// An arm whose statement is in a box.
#[derive(Drop)]
pub struct FirstArm {
    pub keyword: Token,
    pub condition: Expression,
    pub then_keyword: Token,
    pub then: Box<Statement>,
}

/// The arm, its statement put into a box.
pub fn first_arm(alloc: Global, arm: Arm) -> Result<FirstArm, OutOfMemory>
    ensures { IfOk result (λ a. first_arm_parts a ≡ arm_parts arm) }
{
    let Arm {
        keyword,
        condition,
        then_keyword,
        then,
    } = arm;
    Ok(FirstArm {
        keyword,
        condition,
        then_keyword,
        then: Box::new(alloc, then)?,
    })
}

/// An `if` with the parts that are chained to it.
pub fn conditional(first: FirstArm, parts: ElseParts) -> Statement
    ensures { statement_tree result ≡ if_else first.keyword (expression_tree first.condition) first.then_keyword (statement_tree first.then.value) (others_of parts.others (otherwise_tree parts.last)) }
{
    let FirstArm {
        keyword,
        condition,
        then_keyword,
        then,
    } = first;
    let ElseParts { others, last } = parts;
    Statement::If {
        keyword,
        condition,
        then_keyword,
        then,
        others,
        otherwise: last,
    }
}

/// What stands behind the `;` of a selection's first line.
#[derive(Drop)]
pub struct SelectionBody {
    pub whens: List<When>,
    pub last: Option<Otherwise>,
    pub end_keyword: Token,
    pub end: Place,
}

/// A selection.
pub fn selection(
    keyword: Token,
    selector: Option<Selector>,
    semicolon: Place,
    body: SelectionBody,
) -> Statement
    ensures { statement_tree result ≡ statement.Select keyword (statement_grammar.selector_of (option_map selector_parts selector)) semicolon (whens_of body.whens) (statement_grammar.otherwise_of (option_map last_parts body.last)) body.end_keyword body.end }
{
    let SelectionBody {
        whens,
        last,
        end_keyword,
        end,
    } = body;
    Statement::Select {
        keyword,
        selector,
        semicolon,
        whens,
        otherwise: last,
        end_keyword,
        end,
    }
}

/// A block or a loop.
pub fn block_or_loop(
    keyword: Token,
    control: DoControl,
    semicolon: Place,
    body: List<Statement>,
    end_keyword: Token,
    end: Place,
) -> Statement
    ensures { statement_tree result ≡ statement.Do keyword (control_tree control) semicolon (statement_grammar.listed_statements (map statement_tree body)) end_keyword end }
{
    Statement::Do {
        keyword,
        control,
        semicolon,
        body,
        end_keyword,
        end,
    }
}
