//! Declared methods, by whose they are, and their numbers among methods in order.
ghost use Rattle.std.specs.Prelude.{◌≡◌, IfOk, OnOk, ◌++◌, map, slice_get};
ghost use Rattle.std.specs.Option.{option_copied, option_map};
ghost use Rattle.ds2_meaning.specs.Evaluation.{callee_home};
ghost use Rattle.ds2_meaning.specs.ProgramTree.{instance_methods as methods_of_instance, methods_of};
ghost use Rattle.ds2_meaning.specs.View.{instance_tree, typed_method};
ghost use Rattle.ds2_locality.specs.Deeds.{is_same_method};
ghost use Rattle.ds2_deeds.specs.NamedLocations.{code_home};
ghost use Rattle.ds2_deeds.specs.NamedMethods.{method_of_name, methods_named, number_among_methods, home_methods, methods_in_order as in_order};
ghost use Rattle.ds2_deeds.specs.CodeTrees.{nameless_tree};

use crate::location::{CodeHome, is_one_home};
use ds2_base::{List, Name, OutOfMemory};
use ds2_meaning::{Instance, Method, Program};
use std::alloc::Global;

/// A method, by whose it is and by its number there.
#[derive(Clone, Copy)]
pub struct MethodName<'p> {
    pub home: CodeHome<'p>,
    pub number: usize,
}

// Whether two are one method.
fn is_one_method(a: MethodName<'_>, b: MethodName<'_>) -> bool
    ensures { result ≡ is_same_method (method_of_name a.entry) (method_of_name b.entry) }
{
    is_one_home(a.home, b.home) && a.number == b.number
}

/// The number of a method among methods in order, where it is one of them, by a walk over all.
pub(crate) fn method_number_by_walk(
    methods: &[MethodName<'_>],
    method: MethodName<'_>,
) -> Option<usize>
    ensures { result ≡ number_among_methods (methods_named methods.now) (method_of_name method.entry) }
{
    let mut number: usize = 0;
    'methods: for other in methods {
        if is_one_method(method, *other) {
            return Some(number);
        }
        number += 1;
    }
    None
}

/// Whose method a call calls: that of the instance that it names, or of the home of its body.
pub fn called_home<'p>(home: CodeHome<'p>, instance: &'p Option<Name>) -> CodeHome<'p>
    ensures { code_home result ≡ callee_home (code_home home.entry) instance.now }
{
    match instance {
        None => home,
        Some(name) => CodeHome::Instance(name),
    }
}

// The method of this number of the first instance of a name.
fn instance_method<'p>(instances: &'p [Instance], name: &Name, k: usize) -> Option<&'p Method>
    ensures { option_map typed_method (option_copied result) ≡ slice_get (methods_of_instance (map instance_tree instances.now) name.now) k }
{
    'instances: for instance in instances {
        if instance.name == *name {
            let package = instance.package.get();
            return package.methods.get(k);
        }
    }
    None
}

/// A method, where it is there.
pub fn method_at<'p>(program: &'p Program, method: MethodName<'_>) -> Option<&'p Method>
    ensures { option_map typed_method (option_copied result) ≡ slice_get (methods_of (nameless_tree program.now) (code_home method.entry.home)) method.entry.number }
{
    match method.home {
        CodeHome::Program => program.methods.get(method.number),
        CodeHome::Instance(name) => {
            instance_method(program.instances.as_slice(), name, method.number)
        }
    }
}

// Adds so many methods of a home, in order.
fn add_methods<'p>(
    methods: &mut List<MethodName<'p>>,
    home: CodeHome<'p>,
    count: usize,
) -> Result<(), OutOfMemory>
    ensures { OnOk result (methods_named methods.new ≡ methods_named methods.old ++ home_methods (code_home home.entry) count) }
{
    'methods: for number in 0..count {
        methods.push(MethodName { home, number })?;
    }
    Ok(())
}

/// The methods of a program, in order: its own, and then those of its instances.
pub fn methods_in_order(
    alloc: Global,
    program: &Program,
) -> Result<List<MethodName<'_>>, OutOfMemory>
    ensures { IfOk result (λ methods. methods_named methods ≡ in_order (nameless_tree program.now)) }
{
    let mut methods = List::new(alloc);
    add_methods(&mut methods, CodeHome::Program, program.methods.len())?;
    'instances: for instance in program.instances.as_slice() {
        let home = CodeHome::Instance(&instance.name);
        add_methods(&mut methods, home, instance.package.get().methods.len())?;
    }
    Ok(methods)
}
