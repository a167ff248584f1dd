//! The parameters and locals of a method.
ghost use Rattle.std.specs.Prelude.{◌≡◌, IfOk};
ghost use Rattle.ds2_type_tables.specs.Tables.{known_local, HasLocals};

use crate::tables::add;
use ds2_base::OutOfMemory;
use ds2_meaning::Variable;
use ds2_reference_types::scopes::{KnownName, KnownNames, Standing};
use std::alloc::Global;
use std::collections::HashMap;

/// A parameter or a local.
fn local(alloc: Global, v: &Variable) -> Result<KnownName, OutOfMemory>
    ensures { IfOk result (λ k. k ≡ known_local v.now) }
{
    Ok(KnownName {
        name: v.name.copy(alloc)?,
        standing: Standing::Local,
        ty: v.ty,
        refusal: None,
    })
}

/// The table of these parameters and locals; of one name the first counts.
pub fn locals(alloc: Global, variables: &[Variable]) -> Result<KnownNames, OutOfMemory>
    ensures { IfOk result (λ names. HasLocals names variables.now) }
{
    let mut names: KnownNames = HashMap::new(alloc);
    'variables: for v in variables {
        let known = local(alloc, v)?;
        add(alloc, &mut names, known)?;
    }
    Ok(names)
}
