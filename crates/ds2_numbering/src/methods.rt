//! Declared methods, and the numbers by which code calls them.
ghost use Rattle.std.specs.Prelude.{◌≡◌, ◌+◌, IfOk, map, slice_get};
ghost use Rattle.std.specs.Option.{option_copied, option_map};
ghost use Rattle.ds2_meaning.specs.View.{instance_tree, typed_method};
ghost use Rattle.ds2_meaning.specs.ProgramTree.{instance_methods as methods_of_instance, methods_of};
ghost use Rattle.ds2_gen.specs.ExpressionCode.{call_instr as calling};
ghost use Rattle.ds2_gen.specs.StatementCode.{drop_code};
ghost use Rattle.ds2_program_code.specs.CodeMethods.{first_of_instance, first_method_of, callee_of};
ghost use Rattle.ds2_emitter.specs.Dropped.{dropped_result};
ghost use Rattle.ds2_numbering.specs.SoughtLocations.{home_of_name};
ghost use Rattle.ds2_numbering.specs.CellNumbers.{tree_of};

use crate::sought::HomeName;
use crate::sums::plus_length;
use ds2_base::{Name, OutOfMemory};
use ds2_code::Instr;
use ds2_meaning::{Instance, Method, Program};

// The method of this number of the first instance of a name.
fn instance_method<'p>(instances: &'p [Instance], name: &Name, k: usize) -> Option<&'p Method>
    ensures { option_map typed_method (option_copied result) ≡ slice_get (methods_of_instance (map instance_tree instances.now) name.now) k }
{
    'instances: for instance in instances {
        if instance.name == *name {
            let package = instance.package.get();
            return package.methods.get(k);
        }
    }
    None
}

// The method of this number of a home.
#[tactic(auto, using(crate::proofs::CalleeLemmas::method_there))]
fn home_method<'p>(program: &'p Program, home: HomeName<'_>, k: usize) -> Option<&'p Method>
    ensures { option_map typed_method (option_copied result) ≡ slice_get (methods_of (tree_of program.now) (home_of_name home.entry)) k }
{
    match home {
        HomeName::Own => program.methods.get(k),
        HomeName::Instance(name) => instance_method(program.instances.as_slice(), name, k),
    }
}

// How many methods stand before those of the first instance of a name, behind so many.
#[tactic(auto, using(crate::proofs::CalleeLemmas::mapped_methods))]
fn first_of_named(before: u32, instances: &[Instance], name: &Name) -> Result<u32, OutOfMemory>
    ensures { IfOk result (λ n. n ≡ first_of_instance before (map instance_tree instances.now) name.now) }
{
    let mut at = before;
    'instances: for instance in instances {
        if instance.name == *name {
            return Ok(at);
        }
        at = plus_length(at, instance.package.get().methods.len())?;
    }
    Ok(at)
}

// The number of the first method of a home.
#[tactic(auto, using(crate::proofs::CalleeLemmas::mapped_methods))]
fn methods_before(program: &Program, home: HomeName<'_>) -> Result<u32, OutOfMemory>
    ensures { IfOk result (λ n. n ≡ first_method_of (tree_of program.now) (home_of_name home.entry)) }
{
    match home {
        HomeName::Own => Ok(0),
        HomeName::Instance(name) => {
            let own = plus_length(0, program.methods.len())?;
            first_of_named(own, program.instances.as_slice(), name)
        }
    }
}

/// Calls a method of a home, by its number there.
pub fn call_instr(program: &Program, home: HomeName<'_>, method: u32) -> Result<Instr, OutOfMemory>
    ensures { IfOk result (λ i. i ≡ calling (callee_of (tree_of program.now) (home_of_name home.entry) method)) }
{
    match home_method(program, home, method as usize) {
        None => Ok(Instr::NoWhen),
        Some(_) => {
            let first = methods_before(program, home)?;
            let number = plus_length(first, method as usize)?;
            Ok(Instr::Call(number))
        }
    }
}

/// Whether a call of a method of a home leaves a result.
pub fn leaves_result(program: &Program, home: HomeName<'_>, method: u32) -> bool
    ensures { drop_code (callee_of (tree_of program.now) (home_of_name home.entry) method) ≡ dropped_result result }
{
    match home_method(program, home, method as usize) {
        None => false,
        Some(called) => called.returns.is_some(),
    }
}
