//! The deeds of the bodies of a program.
ghost use Rattle.std.specs.Prelude.{◌≡◌, [], ◌∷◌, IfOk, OnOk, map};
ghost use Rattle.ds2_locality.specs.Deeds.{MethodAt, method_deeds as deeds_of_method, body_deeds, system_scope as scope_of_systems};
ghost use Rattle.ds2_meaning.specs.TypedStatement.{TypedStatements};
ghost use Rattle.ds2_meaning.specs.View.{constructors_first, system_tree};
ghost use Rattle.ds2_deeds.specs.CodeTrees.{nameless_tree, scope_of};
ghost use Rattle.ds2_deeds.specs.NamedMethods.{method_of_name, methods_named};
ghost use Rattle.ds2_deeds.specs.NumberedDeeds.{numbers_of, numbered_deeds, with_deeds};

use crate::deed::{NumberedDeed, add_call};
use crate::expression_deeds::add_arguments_deeds;
use crate::location::CodeHome;
use crate::methods::{MethodName, method_at};
use crate::numbers::Numbers;
use crate::scope::{BodyScope, method_scope, system_scope};
use crate::statement_deeds::add_body_deeds;
use ds2_base::{List, OutOfMemory};
use ds2_meaning::{Instance, Program, SystemMethod};
use std::alloc::Global;

// The deeds of a method; one that is not there does nothing.
#[tactic(auto, unfolding(crate::specs::NumberedDeeds::with_deeds))]
fn method_deeds(
    alloc: Global,
    numbers: Numbers<'_>,
    program: &Program,
    method: MethodName<'_>,
) -> Result<List<NumberedDeed>, OutOfMemory>
    ensures { IfOk result (λ deeds. deeds ≡ numbered_deeds (numbers_of numbers.entry) (deeds_of_method (nameless_tree program.now) (method_of_name method.entry))) }
{
    let mut deeds = List::new(alloc);
    match method_at(program, method) {
        None => Ok(deeds),
        Some(found) => {
            let scope = method_scope(program, method.home);
            add_body_deeds(numbers, &mut deeds, &scope, found.body.as_slice())?;
            Ok(deeds)
        }
    }
}

/// The deeds of each method, in their order.
pub fn all_method_deeds(
    alloc: Global,
    numbers: Numbers<'_>,
    program: &Program,
) -> Result<List<List<NumberedDeed>>, OutOfMemory>
    ensures { IfOk result (λ all. all ≡ map (λ (m : MethodAt). numbered_deeds (numbers_of numbers.entry) (deeds_of_method (nameless_tree program.now) m)) (methods_named numbers.entry.methods.now)) }
{
    let mut all = List::new(alloc);
    'methods: for method in numbers.methods {
        all.push(method_deeds(alloc, numbers, program, *method)?)?;
    }
    Ok(all)
}

// Adds those of the statements of a system method, where there is one.
#[tactic(auto, using(crate::proofs::DeedLemmas::none_added))]
fn add_system_deeds(
    numbers: Numbers<'_>,
    deeds: &mut List<NumberedDeed>,
    scope: &BodyScope<'_>,
    method: &Option<SystemMethod>,
) -> Result<(), OutOfMemory>
    ensures { OnOk result (deeds.new ≡ with_deeds (numbers_of numbers.entry) (body_deeds (scope_of scope.now) (system_tree method.now).statements) deeds.old) }
{
    match method {
        None => Ok(()),
        Some(method) => add_body_deeds(numbers, deeds, scope, method.body.as_slice()),
    }
}

/// The deeds of `run`.
#[tactic(auto, unfolding(crate::specs::NumberedDeeds::with_deeds))]
pub fn run_deeds(
    alloc: Global,
    numbers: Numbers<'_>,
    program: &Program,
) -> Result<List<NumberedDeed>, OutOfMemory>
    ensures { IfOk result (λ deeds. deeds ≡ numbered_deeds (numbers_of numbers.entry) (body_deeds (scope_of_systems (nameless_tree program.now)) (system_tree program.now.run).statements)) }
{
    let scope = system_scope(program);
    let mut deeds = List::new(alloc);
    add_system_deeds(numbers, &mut deeds, &scope, &program.run)?;
    Ok(deeds)
}

// Adds those of the constructor of an instance, where it has one, so that what follows makes those of the whole.
fn add_constructor_deeds(
    numbers: Numbers<'_>,
    deeds: &mut List<NumberedDeed>,
    scope: &BodyScope<'_>,
    instance: &Instance,
) -> Result<(), OutOfMemory>
    ensures { (rest : TypedStatements) → OnOk result (with_deeds (numbers_of numbers.entry) (body_deeds (scope_of scope.now) rest) deeds.new ≡ with_deeds (numbers_of numbers.entry) (body_deeds (scope_of scope.now) (constructors_first (instance.now ∷ []) rest)) deeds.old) }
{
    match instance.constructor {
        None => Ok(()),
        Some(number) => {
            add_arguments_deeds(numbers, deeds, scope, instance.arguments.as_slice())?;
            let method = MethodName {
                home: CodeHome::Instance(&instance.name),
                number: number as usize,
            };
            add_call(numbers, deeds, method)
        }
    }
}

/// The deeds of the constructors of instances, and then of `init`.
#[tactic(auto, unfolding(crate::specs::NumberedDeeds::with_deeds))]
pub fn init_deeds(
    alloc: Global,
    numbers: Numbers<'_>,
    program: &Program,
) -> Result<List<NumberedDeed>, OutOfMemory>
    ensures { IfOk result (λ deeds. deeds ≡ numbered_deeds (numbers_of numbers.entry) (body_deeds (scope_of_systems (nameless_tree program.now)) (constructors_first program.now.instances (system_tree program.now.init).statements))) }
{
    let scope = system_scope(program);
    let mut deeds = List::new(alloc);
    'instances: for instance in program.instances.as_slice() {
        add_constructor_deeds(numbers, &mut deeds, &scope, instance)?;
    }
    add_system_deeds(numbers, &mut deeds, &scope, &program.init)?;
    Ok(deeds)
}
