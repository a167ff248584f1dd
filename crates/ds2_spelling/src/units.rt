//! The tokens of sources and their units.
ghost use Rattle.std.specs.Prelude.{◌≡◌, ◌∷◌, ◌++◌, [], OnOk, IfOk, map};
ghost use Rattle.ds2_tree.specs.Marks.{semicolon_mark};
ghost use Rattle.ds2_tree.specs.Lists.{if_any, all_spelled};
ghost use Rattle.ds2_tree.specs.Globals.{global_spelling, parameters_spelling};
ghost use Rattle.ds2_tree.specs.Units.{renaming_spelling, option_spelling, options_spelling, output_spelling, package_spelling, thread_spelling, data_spelling, part_spelling, source_spelling};
ghost use Rattle.ds2_tree.specs.UnitViews.{global_tree, package_tree, thread_tree, data_tree, part_tree, source_tree};

use crate::globals::{spell_globals, spell_parameters};
use crate::tokens::{Added, push_mark, push_token, push_tokens};
use ds2_base::{List, OutOfMemory, Place};
use ds2_token::Token;
use ds2_tree::{
    DataProgram, GlobalItem, OutputOption, OutputOptions, OutputTable, Package, Parameters,
    Renaming, Source, SourcePart, Thread,
};
use std::alloc::Global;

// Adds the tokens of a renaming.
fn spell_renaming(alloc: Global, out: &mut List<Token>, renaming: &Renaming) -> Added
    ensures { OnOk result (out.new ≡ out.old ++ renaming_spelling renaming.now) }
{
    push_token(alloc, out, &renaming.old)?;
    push_mark(alloc, out, "=", renaming.equals)?;
    push_token(alloc, out, &renaming.new)
}

// Adds the tokens of renamings.
fn spell_renamings(alloc: Global, out: &mut List<Token>, renamings: &[Renaming]) -> Added
    ensures { OnOk result (out.new ≡ out.old ++ all_spelled renaming_spelling renamings.now) }
{
    for renaming in renamings {
        spell_renaming(alloc, out, renaming)?;
    }
    Ok(())
}

// Adds the tokens of an option.
fn spell_option(alloc: Global, out: &mut List<Token>, option: &OutputOption) -> Added
    ensures { OnOk result (out.new ≡ out.old ++ option_spelling option.now) }
{
    match option {
        OutputOption::Listed {
            keyword,
            equals,
            opening,
            names,
            closing,
        } => {
            push_token(alloc, out, keyword)?;
            push_mark(alloc, out, "=", *equals)?;
            push_mark(alloc, out, "(", *opening)?;
            push_tokens(alloc, out, names.as_slice())?;
            push_mark(alloc, out, ")", *closing)
        }
        OutputOption::Overwrite {
            keyword,
            equals,
            answer,
        } => {
            push_token(alloc, out, keyword)?;
            push_mark(alloc, out, "=", *equals)?;
            push_token(alloc, out, answer)
        }
        OutputOption::Rename {
            keyword,
            equals,
            opening,
            renamings,
            closing,
        } => {
            push_token(alloc, out, keyword)?;
            push_mark(alloc, out, "=", *equals)?;
            push_mark(alloc, out, "(", *opening)?;
            spell_renamings(alloc, out, renamings.as_slice())?;
            push_mark(alloc, out, ")", *closing)
        }
    }
}

// Adds the tokens of options.
fn spell_option_list(alloc: Global, out: &mut List<Token>, options: &[OutputOption]) -> Added
    ensures { OnOk result (out.new ≡ out.old ++ all_spelled option_spelling options.now) }
{
    for option in options {
        spell_option(alloc, out, option)?;
    }
    Ok(())
}

// Adds the tokens of the options of an output, where they are there.
fn spell_options(alloc: Global, out: &mut List<Token>, options: &Option<OutputOptions>) -> Added
    ensures { OnOk result (out.new ≡ out.old ++ if_any options_spelling options.now) }
{
    match options {
        None => Ok(()),
        Some(options) => {
            push_mark(alloc, out, "(", options.opening)?;
            spell_option_list(alloc, out, options.list.as_slice())?;
            push_mark(alloc, out, ")", options.closing)
        }
    }
}

// Adds the tokens of an output.
fn spell_output(alloc: Global, out: &mut List<Token>, output: &OutputTable) -> Added
    ensures { OnOk result (out.new ≡ out.old ++ output_spelling output.now) }
{
    push_token(alloc, out, &output.table)?;
    spell_options(alloc, out, &output.options)
}

// Adds the tokens of outputs.
fn spell_outputs(alloc: Global, out: &mut List<Token>, outputs: &[OutputTable]) -> Added
    ensures { OnOk result (out.new ≡ out.old ++ all_spelled output_spelling outputs.now) }
{
    for output in outputs {
        spell_output(alloc, out, output)?;
    }
    Ok(())
}

// Adds the tokens of the parameters of a thread program, where they are there.
fn spell_thread_parameters(
    alloc: Global,
    out: &mut List<Token>,
    parameters: &Option<Parameters>,
) -> Added
    ensures { OnOk result (out.new ≡ out.old ++ if_any parameters_spelling parameters.now) }
{
    match parameters {
        None => Ok(()),
        Some(parameters) => spell_parameters(alloc, out, parameters),
    }
}

// Adds the tokens from the first `;` of a unit on.
fn spell_unit(
    alloc: Global,
    out: &mut List<Token>,
    semicolon: Place,
    globals: &[GlobalItem],
    end_keyword: &Token,
    end: Place,
) -> Added
    ensures { OnOk result (out.new ≡ out.old ++ semicolon_mark semicolon ∷ (all_spelled global_spelling (map global_tree globals.now) ++ (end_keyword.now ∷ (semicolon_mark end ∷ [])))) }
{
    push_mark(alloc, out, ";", semicolon)?;
    spell_globals(alloc, out, globals)?;
    push_token(alloc, out, end_keyword)?;
    push_mark(alloc, out, ";", end)
}

// Adds the tokens of a package.
fn spell_package(alloc: Global, out: &mut List<Token>, unit: &Package) -> Added
    ensures { OnOk result (out.new ≡ out.old ++ package_spelling (package_tree unit.now)) }
{
    push_token(alloc, out, &unit.keyword)?;
    push_token(alloc, out, &unit.name)?;
    spell_unit(
        alloc,
        out,
        unit.semicolon,
        unit.globals.as_slice(),
        &unit.end_keyword,
        unit.end,
    )
}

// Adds the tokens of a thread program.
fn spell_thread(alloc: Global, out: &mut List<Token>, unit: &Thread) -> Added
    ensures { OnOk result (out.new ≡ out.old ++ thread_spelling (thread_tree unit.now)) }
{
    push_token(alloc, out, &unit.keyword)?;
    push_token(alloc, out, &unit.name)?;
    spell_thread_parameters(alloc, out, &unit.parameters)?;
    spell_unit(
        alloc,
        out,
        unit.semicolon,
        unit.globals.as_slice(),
        &unit.end_keyword,
        unit.end,
    )
}

// Adds the tokens of a data program.
fn spell_data(alloc: Global, out: &mut List<Token>, unit: &DataProgram) -> Added
    ensures { OnOk result (out.new ≡ out.old ++ data_spelling (data_tree unit.now)) }
{
    push_token(alloc, out, &unit.keyword)?;
    spell_outputs(alloc, out, unit.outputs.as_slice())?;
    spell_unit(
        alloc,
        out,
        unit.semicolon,
        unit.globals.as_slice(),
        &unit.end_keyword,
        unit.end,
    )
}

// Adds the tokens of a part of a source.
fn spell_part(alloc: Global, out: &mut List<Token>, part: &SourcePart) -> Added
    ensures { OnOk result (out.new ≡ out.old ++ part_spelling (part_tree part.now)) }
{
    match part {
        SourcePart::Proc { keyword, ds2, end } => {
            push_token(alloc, out, keyword)?;
            push_token(alloc, out, ds2)?;
            push_mark(alloc, out, ";", *end)
        }
        SourcePart::Run { keyword, end } => {
            push_token(alloc, out, keyword)?;
            push_mark(alloc, out, ";", *end)
        }
        SourcePart::Quit { keyword, end } => {
            push_token(alloc, out, keyword)?;
            push_mark(alloc, out, ";", *end)
        }
        SourcePart::Package(unit) => spell_package(alloc, out, unit),
        SourcePart::Thread(unit) => spell_thread(alloc, out, unit),
        SourcePart::Data(unit) => spell_data(alloc, out, unit),
    }
}

/// The tokens of a source, each with its place.
pub fn source_spelling(alloc: Global, source: &Source) -> Result<List<Token>, OutOfMemory>
    ensures { IfOk result (λ tokens. tokens ≡ source_spelling (source_tree source.now)) }
{
    let mut out = List::new(alloc);
    for part in source.parts.as_slice() {
        spell_part(alloc, &mut out, part)?;
    }
    Ok(out)
}
