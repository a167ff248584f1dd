//! The variables of a body, each found by its name.
ghost use Rattle.std.specs.Prelude.{◌≡◌, ℕ, List as Items, IfOk, OnOk, bytes_eq, map};
ghost use Rattle.ds2_meaning.specs.declared.methods.Parameter.{Parameter as ParameterModel};
ghost use Rattle.ds2_meaning.specs.View.{typed_method};
ghost use Rattle.ds2_program_code.specs.PlacedProgram.{number_of_name, names_of_variables, frame_names};
ghost use Rattle.ds2_numbering.specs.NameNumbers.{number_under, AreNamed};
ghost use Rattle.ds2_numbering.specs.Searching.{first_or_this, search_names};

use crate::sums::sum;
use ds2_base::{Name, OutOfMemory};
use ds2_meaning::{Method, Parameter, Variable};
use std::alloc::Global;
use std::collections::HashMap;
use std::marker::Model;

/// Variables, with the number of the first of each name by its hash. A contract sees the variables.
#[derive(Drop)]
pub struct VariableTable<'p> {
    variables: &'p [Variable],
    numbers: HashMap<&'p str, u32>,
}

impl<'p> Model for VariableTable<'p> {
    ghost use Rattle.std.specs.Prelude.{List as Items};
    ghost use Rattle.ds2_meaning.specs.declared.globals.Variable.{Variable as VariableModel};

    ghost Value = { Items VariableModel };

    ghost use Rattle.ds2_program_code.specs.PlacedProgram.{names_of_variables};
    ghost use Rattle.ds2_numbering.specs.NameNumbers.{AreNamed};

    ghost view = { λ t. t.variables.now };

    ghost invariant = { λ t. AreNamed (names_of_variables t.variables.now) t.numbers };
}

/// A declared method, with the number of the first parameter or local of each name by its hash. A contract sees the method.
#[derive(Drop)]
pub struct MethodTable<'p> {
    method: &'p Method,
    numbers: HashMap<&'p str, u32>,
}

impl<'p> Model for MethodTable<'p> {
    ghost use Rattle.ds2_meaning.specs.declared.methods.Method.{Method as MethodModel};
    ghost use Rattle.ds2_meaning.specs.contracts.methods.Method.{the_row};

    ghost Value = { MethodModel };

    ghost coded = { the_row.coded };

    ghost use Rattle.ds2_meaning.specs.View.{typed_method};
    ghost use Rattle.ds2_program_code.specs.PlacedProgram.{frame_names};
    ghost use Rattle.ds2_numbering.specs.NameNumbers.{AreNamed};

    ghost view = { λ t. t.method.now };

    ghost invariant = { λ t. AreNamed (frame_names (typed_method t.method.now)) t.numbers };
}

// Gives a name its number, unless it has one.
fn give_number<'p>(
    numbers: &mut HashMap<&'p str, u32>,
    name: &'p Name,
    number: u32,
) -> Result<(), OutOfMemory>
    ensures { OnOk result ((other : Items ℕ) → number_under numbers.new other ≡ first_or_this (number_under numbers.old other) (bytes_eq other name.now) number) }
{
    let text = name.as_str();
    if !numbers.contains_key(text) {
        numbers.insert(text, number)?;
    }
    Ok(())
}

// Gives the names of parameters their numbers, from a first one on, and tells the number behind them.
fn number_parameters<'p>(
    numbers: &mut HashMap<&'p str, u32>,
    first: u32,
    parameters: &'p [Parameter],
) -> Result<u32, OutOfMemory>
    ensures { IfOk result (λ seen. (name : Items ℕ) → record { found = number_under numbers.new name; seen = seen } ≡ search_names name (map (λ (x : ParameterModel). x.name) parameters.now) (record { found = number_under numbers.old name; seen = first })) }
{
    let mut seen = first;
    'parameters: for parameter in parameters {
        give_number(numbers, &parameter.name, seen)?;
        seen = sum(seen, 1)?;
    }
    Ok(seen)
}

// Likewise those of variables.
fn number_variables<'p>(
    numbers: &mut HashMap<&'p str, u32>,
    first: u32,
    variables: &'p [Variable],
) -> Result<u32, OutOfMemory>
    ensures { IfOk result (λ seen. (name : Items ℕ) → record { found = number_under numbers.new name; seen = seen } ≡ search_names name (names_of_variables variables.now) (record { found = number_under numbers.old name; seen = first })) }
{
    let mut seen = first;
    'variables: for variable in variables {
        give_number(numbers, &variable.name, seen)?;
        seen = sum(seen, 1)?;
    }
    Ok(seen)
}

// The numbers of variables by their names.
fn variable_numbers<'p>(
    alloc: Global,
    variables: &'p [Variable],
) -> Result<HashMap<&'p str, u32>, OutOfMemory>
    ensures { IfOk result (λ numbers. AreNamed (names_of_variables variables.now) numbers) }
{
    let mut numbers: HashMap<&'p str, u32> = HashMap::new(alloc);
    let _seen = number_variables(&mut numbers, 0, variables)?;
    Ok(numbers)
}

// The numbers of the parameters and locals of a method by their names.
fn frame_numbers<'p>(
    alloc: Global,
    method: &'p Method,
) -> Result<HashMap<&'p str, u32>, OutOfMemory>
    ensures { IfOk result (λ numbers. AreNamed (frame_names (typed_method method.now)) numbers) }
{
    let mut numbers: HashMap<&'p str, u32> = HashMap::new(alloc);
    let parameters = method.parameters.as_slice();
    let behind = number_parameters(&mut numbers, 0, parameters)?;
    let locals = method.locals.as_slice();
    let _seen = number_variables(&mut numbers, behind, locals)?;
    Ok(numbers)
}

impl<'p> VariableTable<'p> {
    /// These variables; want of memory also where there are 2 ^ 32.
    pub fn new(alloc: Global, variables: &'p [Variable]) -> Result<VariableTable<'p>, OutOfMemory>
        ensures { IfOk result (λ table. table ≡ variables.now) }
    {
        let numbers = variable_numbers(alloc, variables)?;
        Ok(VariableTable { variables, numbers })
    }

    /// The variables in order.
    pub fn as_slice(&self) -> &[Variable]
        ensures { result.now ≡ self.now }
    {
        self.variables
    }

    /// The number of the first variable of a name.
    pub fn number(&self, name: &Name) -> Option<u32>
        ensures { result ≡ number_of_name (names_of_variables self.now) name.now }
    {
        self.numbers.get(name.as_str()).copied()
    }
}

impl<'p> MethodTable<'p> {
    /// This method; want of memory also where it has 2 ^ 32 parameters and locals.
    pub fn new(alloc: Global, method: &'p Method) -> Result<MethodTable<'p>, OutOfMemory>
        ensures { IfOk result (λ table. table ≡ method.now) }
    {
        let numbers = frame_numbers(alloc, method)?;
        Ok(MethodTable { method, numbers })
    }

    /// The method.
    pub fn method(&self) -> &Method
        ensures { result.now ≡ self.now }
    {
        self.method
    }

    /// The number of the first parameter or local of a name in its frame.
    pub fn number(&self, name: &Name) -> Option<u32>
        ensures { result ≡ number_of_name (frame_names (typed_method self.now)) name.now }
    {
        self.numbers.get(name.as_str()).copied()
    }
}
