//! Variables once more.
ghost use Rattle.std.specs.Prelude.{◌≡◌, IfOk};

use ds2_base::{List, OutOfMemory};
use ds2_meaning::Variable;
use std::alloc::Global;

// A variable.
fn variable_copy(alloc: Global, variable: &Variable) -> Result<Variable, OutOfMemory>
    ensures { IfOk result (λ copy. copy ≡ variable.now) }
{
    Ok(Variable {
        name: variable.name.copy(alloc)?,
        ty: variable.ty,
    })
}

/// Variables once more.
pub(crate) fn variables_copy(
    alloc: Global,
    variables: &[Variable],
) -> Result<List<Variable>, OutOfMemory>
    ensures { IfOk result (λ copy. copy ≡ variables.now) }
{
    let mut copy = List::new(alloc);
    'variables: for variable in variables {
        copy.push(variable_copy(alloc, variable)?)?;
    }
    Ok(copy)
}
