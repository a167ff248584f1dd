//! The tokens of declarations, lists of variables, and methods.
ghost use Rattle.std.specs.Prelude.{◌≡◌, ◌∷◌, ◌++◌, [], OnOk, map};
ghost use Rattle.ds2_tree.specs.Marks.{close_mark, minus_mark, semicolon_mark};
ghost use Rattle.ds2_tree.specs.Lists.{one_token, if_any, all_spelled};
ghost use Rattle.ds2_tree.specs.Readings.{reading_spelling};
ghost use Rattle.ds2_tree.specs.Globals.{scale_spelling, type_spelling, variables_spelling, constant_spelling, constants_spelling, bracketed_name_spelling, bracketed_spelling, hash_table_spelling, hash_size_spelling, declaration_spelling, parameter_spelling, parameters_spelling, returns_spelling, body_spelling, method_spelling, global_spelling};
ghost use Rattle.ds2_tree.specs.UnitViews.{method_tree, global_tree};

use crate::readings::spell_reading;
use crate::statements::spell_statements;
use crate::tokens::{Added, push_comma, push_if_any, push_mark, push_token, push_tokens};
use ds2_base::{List, Place};
use ds2_token::Token;
use ds2_tree::{
    Bracketed, BracketedName, Constant, Constants, Declaration, GlobalItem, HashSize, HashTable,
    Method, Parameter, Parameters, Reading, Returns, Scale, TypeName, VariableDeclaration,
};
use std::alloc::Global;

// Adds the tokens of a scale, where it is there.
fn spell_scale(alloc: Global, out: &mut List<Token>, scale: &Option<Scale>) -> Added
    ensures { OnOk result (out.new ≡ out.old ++ if_any scale_spelling scale.now) }
{
    match scale {
        None => Ok(()),
        Some(scale) => {
            push_mark(alloc, out, ",", scale.comma)?;
            push_token(alloc, out, &scale.number)
        }
    }
}

// Adds the tokens of a type.
fn spell_type(alloc: Global, out: &mut List<Token>, ty: &TypeName) -> Added
    ensures { OnOk result (out.new ≡ out.old ++ type_spelling ty.now) }
{
    match ty {
        TypeName::BigInt(keyword) => push_token(alloc, out, keyword),
        TypeName::Decimal {
            keyword,
            opening,
            precision,
            scale,
            closing,
        } => {
            push_token(alloc, out, keyword)?;
            push_mark(alloc, out, "(", *opening)?;
            push_token(alloc, out, precision)?;
            spell_scale(alloc, out, scale)?;
            push_mark(alloc, out, ")", *closing)
        }
        TypeName::Text {
            keyword,
            opening,
            length,
            closing,
        } => {
            push_token(alloc, out, keyword)?;
            push_mark(alloc, out, "(", *opening)?;
            push_token(alloc, out, length)?;
            push_mark(alloc, out, ")", *closing)
        }
    }
}

// Adds the tokens of a declaration of variables.
fn spell_variables(alloc: Global, out: &mut List<Token>, variables: &VariableDeclaration) -> Added
    ensures { OnOk result (out.new ≡ out.old ++ variables_spelling variables.now) }
{
    push_token(alloc, out, &variables.keyword)?;
    spell_type(alloc, out, &variables.ty)?;
    push_tokens(alloc, out, variables.names.as_slice())?;
    push_mark(alloc, out, ";", variables.end)
}

// Adds the tokens of the declarations of a method.
fn spell_locals(alloc: Global, out: &mut List<Token>, locals: &[VariableDeclaration]) -> Added
    ensures { OnOk result (out.new ≡ out.old ++ all_spelled variables_spelling locals.now) }
{
    for local in locals {
        spell_variables(alloc, out, local)?;
    }
    Ok(())
}

// Adds a `-`, where there is one.
fn spell_minus(alloc: Global, out: &mut List<Token>, minus: Option<Place>) -> Added
    ensures { OnOk result (out.new ≡ out.old ++ if_any (λ p. one_token (minus_mark p)) minus) }
{
    match minus {
        None => Ok(()),
        Some(place) => push_mark(alloc, out, "-", place),
    }
}

// Adds the tokens of a constant.
fn spell_constant(alloc: Global, out: &mut List<Token>, constant: &Constant) -> Added
    ensures { OnOk result (out.new ≡ out.old ++ constant_spelling constant.now) }
{
    push_comma(alloc, out, constant.comma)?;
    spell_minus(alloc, out, constant.minus)?;
    push_token(alloc, out, &constant.value)
}

// Adds the tokens of constants.
fn spell_constant_list(alloc: Global, out: &mut List<Token>, constants: &[Constant]) -> Added
    ensures { OnOk result (out.new ≡ out.old ++ all_spelled constant_spelling constants.now) }
{
    for constant in constants {
        spell_constant(alloc, out, constant)?;
    }
    Ok(())
}

// Adds the tokens of the constants of an instance, where they are there.
fn spell_constants(alloc: Global, out: &mut List<Token>, constants: &Option<Constants>) -> Added
    ensures { OnOk result (out.new ≡ out.old ++ if_any constants_spelling constants.now) }
{
    match constants {
        None => Ok(()),
        Some(constants) => {
            push_mark(alloc, out, "(", constants.opening)?;
            spell_constant_list(alloc, out, constants.list.as_slice())?;
            push_mark(alloc, out, ")", constants.closing)
        }
    }
}

// Adds the tokens of a name between brackets.
fn spell_bracketed_name(alloc: Global, out: &mut List<Token>, name: &BracketedName) -> Added
    ensures { OnOk result (out.new ≡ out.old ++ bracketed_name_spelling name.now) }
{
    push_comma(alloc, out, name.comma)?;
    push_token(alloc, out, &name.name)
}

// Adds the tokens of names between brackets.
fn spell_bracketed_names(alloc: Global, out: &mut List<Token>, names: &[BracketedName]) -> Added
    ensures { OnOk result (out.new ≡ out.old ++ all_spelled bracketed_name_spelling names.now) }
{
    for name in names {
        spell_bracketed_name(alloc, out, name)?;
    }
    Ok(())
}

// Adds the tokens of a list between brackets.
fn spell_bracketed(alloc: Global, out: &mut List<Token>, list: &Bracketed) -> Added
    ensures { OnOk result (out.new ≡ out.old ++ bracketed_spelling list.now) }
{
    push_mark(alloc, out, "[", list.opening)?;
    spell_bracketed_names(alloc, out, list.names.as_slice())?;
    push_mark(alloc, out, "]", list.closing)
}

// Adds the tokens of the table of a hash, where it has one.
fn spell_hash_table(alloc: Global, out: &mut List<Token>, table: &Option<HashTable>) -> Added
    ensures { OnOk result (out.new ≡ out.old ++ if_any hash_table_spelling table.now) }
{
    match table {
        None => Ok(()),
        Some(table) => {
            push_mark(alloc, out, ",", table.comma)?;
            push_token(alloc, out, &table.text)
        }
    }
}

// Adds the tokens of the number and the table of a hash, where they are there.
fn spell_hash_size(alloc: Global, out: &mut List<Token>, size: &Option<HashSize>) -> Added
    ensures { OnOk result (out.new ≡ out.old ++ if_any hash_size_spelling size.now) }
{
    match size {
        None => Ok(()),
        Some(size) => {
            push_mark(alloc, out, ",", size.comma)?;
            push_token(alloc, out, &size.number)?;
            spell_hash_table(alloc, out, &size.table)
        }
    }
}

// Adds a mark and the `;` behind it.
fn spell_closing(alloc: Global, out: &mut List<Token>, closing: Place, end: Place) -> Added
    ensures { OnOk result (out.new ≡ out.old ++ close_mark closing ∷ (semicolon_mark end ∷ [])) }
{
    push_mark(alloc, out, ")", closing)?;
    push_mark(alloc, out, ";", end)
}

// Adds the tokens of a declaration.
fn spell_declaration(alloc: Global, out: &mut List<Token>, declaration: &Declaration) -> Added
    ensures { OnOk result (out.new ≡ out.old ++ declaration_spelling declaration.now) }
{
    match declaration {
        Declaration::Variables(variables) => spell_variables(alloc, out, variables),
        Declaration::Instance {
            keyword,
            package_keyword,
            package,
            name,
            arguments,
            end,
        } => {
            push_token(alloc, out, keyword)?;
            push_token(alloc, out, package_keyword)?;
            push_token(alloc, out, package)?;
            push_token(alloc, out, name)?;
            spell_constants(alloc, out, arguments)?;
            push_mark(alloc, out, ";", *end)
        }
        Declaration::Hash {
            keyword,
            package_keyword,
            hash_keyword,
            name,
            opening,
            key_variables,
            comma,
            data_variables,
            size,
            closing,
            end,
        } => {
            push_token(alloc, out, keyword)?;
            push_token(alloc, out, package_keyword)?;
            push_token(alloc, out, hash_keyword)?;
            push_token(alloc, out, name)?;
            push_mark(alloc, out, "(", *opening)?;
            spell_bracketed(alloc, out, key_variables)?;
            push_mark(alloc, out, ",", *comma)?;
            spell_bracketed(alloc, out, data_variables)?;
            spell_hash_size(alloc, out, size)?;
            spell_closing(alloc, out, *closing, *end)
        }
        Declaration::Hiter {
            keyword,
            package_keyword,
            hiter_keyword,
            name,
            opening,
            hash,
            closing,
            end,
        } => {
            push_token(alloc, out, keyword)?;
            push_token(alloc, out, package_keyword)?;
            push_token(alloc, out, hiter_keyword)?;
            push_token(alloc, out, name)?;
            push_mark(alloc, out, "(", *opening)?;
            push_token(alloc, out, hash)?;
            spell_closing(alloc, out, *closing, *end)
        }
        Declaration::Thread {
            keyword,
            thread_keyword,
            thread,
            name,
            end,
        } => {
            push_token(alloc, out, keyword)?;
            push_token(alloc, out, thread_keyword)?;
            push_token(alloc, out, thread)?;
            push_token(alloc, out, name)?;
            push_mark(alloc, out, ";", *end)
        }
    }
}

// Adds the tokens of a parameter.
fn spell_parameter(alloc: Global, out: &mut List<Token>, parameter: &Parameter) -> Added
    ensures { OnOk result (out.new ≡ out.old ++ parameter_spelling parameter.now) }
{
    push_comma(alloc, out, parameter.comma)?;
    push_if_any(alloc, out, &parameter.in_out)?;
    spell_type(alloc, out, &parameter.ty)?;
    push_token(alloc, out, &parameter.name)
}

// Adds the tokens of parameters.
fn spell_parameter_list(alloc: Global, out: &mut List<Token>, parameters: &[Parameter]) -> Added
    ensures { OnOk result (out.new ≡ out.old ++ all_spelled parameter_spelling parameters.now) }
{
    for parameter in parameters {
        spell_parameter(alloc, out, parameter)?;
    }
    Ok(())
}

// Adds the tokens of a parameter list.
pub fn spell_parameters(alloc: Global, out: &mut List<Token>, parameters: &Parameters) -> Added
    ensures { OnOk result (out.new ≡ out.old ++ parameters_spelling parameters.now) }
{
    push_mark(alloc, out, "(", parameters.opening)?;
    spell_parameter_list(alloc, out, parameters.list.as_slice())?;
    push_mark(alloc, out, ")", parameters.closing)
}

// Adds the tokens of a returned type, where it is there.
fn spell_returns(alloc: Global, out: &mut List<Token>, returns: &Option<Returns>) -> Added
    ensures { OnOk result (out.new ≡ out.old ++ if_any returns_spelling returns.now) }
{
    match returns {
        None => Ok(()),
        Some(returns) => {
            push_token(alloc, out, &returns.keyword)?;
            spell_type(alloc, out, &returns.ty)
        }
    }
}

// Adds the tokens of the reading statement of a method, where it has one.
fn spell_method_reading(alloc: Global, out: &mut List<Token>, reading: &Option<Reading>) -> Added
    ensures { OnOk result (out.new ≡ out.old ++ if_any reading_spelling reading.now) }
{
    match reading {
        None => Ok(()),
        Some(reading) => spell_reading(alloc, out, reading),
    }
}

// Adds the tokens of a method behind the `;` of its head.
fn spell_body(alloc: Global, out: &mut List<Token>, method: &Method) -> Added
    ensures { OnOk result (out.new ≡ out.old ++ body_spelling (method_tree method.now)) }
{
    spell_locals(alloc, out, method.locals.as_slice())?;
    spell_method_reading(alloc, out, &method.reading)?;
    spell_statements(alloc, out, method.body.as_slice())?;
    push_token(alloc, out, &method.end_keyword)?;
    push_mark(alloc, out, ";", method.end)
}

// Adds the tokens of a method.
fn spell_method(alloc: Global, out: &mut List<Token>, method: &Method) -> Added
    ensures { OnOk result (out.new ≡ out.old ++ method_spelling (method_tree method.now)) }
{
    push_token(alloc, out, &method.keyword)?;
    push_token(alloc, out, &method.name)?;
    spell_parameters(alloc, out, &method.parameters)?;
    spell_returns(alloc, out, &method.returns)?;
    push_mark(alloc, out, ";", method.semicolon)?;
    spell_body(alloc, out, method)
}

// Adds the tokens of a global.
fn spell_global(alloc: Global, out: &mut List<Token>, global: &GlobalItem) -> Added
    ensures { OnOk result (out.new ≡ out.old ++ global_spelling (global_tree global.now)) }
{
    match global {
        GlobalItem::Declaration(declaration) => spell_declaration(alloc, out, declaration),
        GlobalItem::Listed {
            keyword,
            names,
            end,
        } => {
            push_token(alloc, out, keyword)?;
            push_tokens(alloc, out, names.as_slice())?;
            push_mark(alloc, out, ";", *end)
        }
        GlobalItem::Method(method) => spell_method(alloc, out, method),
    }
}

// Adds the tokens of globals.
pub fn spell_globals(alloc: Global, out: &mut List<Token>, globals: &[GlobalItem]) -> Added
    ensures { OnOk result (out.new ≡ out.old ++ all_spelled global_spelling (map global_tree globals.now)) }
{
    for global in globals {
        spell_global(alloc, out, global)?;
    }
    Ok(())
}
