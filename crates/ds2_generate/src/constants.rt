//! The constants of a program.
ghost use Rattle.std.specs.Prelude.{◌≡◌, [], map, flat_map, IfOk, OnOk};
ghost use Rattle.ds2_meaning.specs.TypedStatement.{TypedStatements};
ghost use Rattle.ds2_meaning.specs.View.{constructors_first, init_tree, instance_tree, system_tree, typed_method, unit_tree};
ghost use Rattle.ds2_program_code.specs.UsedConstants.{constants_of_body};
ghost use Rattle.ds2_program_code.specs.ProgramCode.{code_constants};
ghost use Rattle.ds2_constants.specs.UsedOnce.{with_used};
ghost use Rattle.ds2_generate.specs.ConstantWalk.{constants_of_methods, constants_of_instance};

use ds2_base::OutOfMemory;
use ds2_constants::{ConstantTable, collect_arguments, collect_statements};
use ds2_meaning::{Instance, Method, Program, SystemMethod};
use std::alloc::Global;

// Adds those of the constructors of instances, so that what follows makes those of the whole.
#[tactic(auto, using(crate::proofs::WalkLemmas::constructor_collected))]
fn collect_constructors(
    alloc: Global,
    table: &mut ConstantTable,
    instances: &[Instance],
) -> Result<(), OutOfMemory>
    ensures { (rest : TypedStatements) → OnOk result (with_used (constants_of_body rest) table.new ≡ with_used (constants_of_body (constructors_first instances.now rest)) table.old) }
{
    'instances: for instance in instances {
        collect_arguments(alloc, table, instance.arguments.as_slice())?;
    }
    Ok(())
}

// Adds those of a system method, behind those of the constructors of instances.
#[tactic(auto, using(crate::proofs::WalkLemmas::nothing_collected))]
fn collect_system(
    alloc: Global,
    table: &mut ConstantTable,
    instances: &[Instance],
    method: &Option<SystemMethod>,
) -> Result<(), OutOfMemory>
    ensures { OnOk result (table.new ≡ with_used (constants_of_body (init_tree instances.now (system_tree method.now)).statements) table.old) }
{
    collect_constructors(alloc, table, instances)?;
    match method {
        None => Ok(()),
        Some(method) => collect_statements(alloc, table, method.body.as_slice()),
    }
}

// Adds those of methods.
#[tactic(auto, using(crate::proofs::WalkLemmas::no_constant, crate::proofs::WalkLemmas::method_collected))]
fn collect_methods(
    alloc: Global,
    table: &mut ConstantTable,
    methods: &[Method],
) -> Result<(), OutOfMemory>
    ensures { OnOk result (table.new ≡ with_used (constants_of_methods (map typed_method methods.now)) table.old) }
{
    'methods: for method in methods {
        collect_statements(alloc, table, method.body.as_slice())?;
    }
    Ok(())
}

// Adds those of the methods of instances.
#[tactic(auto, using(crate::proofs::WalkLemmas::no_constant, crate::proofs::WalkLemmas::instance_collected))]
fn collect_instances(
    alloc: Global,
    table: &mut ConstantTable,
    instances: &[Instance],
) -> Result<(), OutOfMemory>
    ensures { OnOk result (table.new ≡ with_used (flat_map constants_of_instance (map instance_tree instances.now)) table.old) }
{
    'instances: for instance in instances {
        collect_methods(alloc, table, instance.package.get().methods.as_slice())?;
    }
    Ok(())
}

/// The constants of a program, each once, in the order of their first use.
pub fn program_constants(alloc: Global, program: &Program) -> Result<ConstantTable, OutOfMemory>
    ensures { IfOk result (λ table. table ≡ code_constants (unit_tree None [] program.now)) }
{
    let instances = program.instances.as_slice();
    let methods = program.methods.as_slice();
    let mut table = ConstantTable::new(alloc);
    collect_system(alloc, &mut table, instances, &program.init)?;
    collect_system(alloc, &mut table, &[], &program.run)?;
    collect_system(alloc, &mut table, &[], &program.term)?;
    collect_methods(alloc, &mut table, methods)?;
    collect_instances(alloc, &mut table, instances)?;
    Ok(table)
}
