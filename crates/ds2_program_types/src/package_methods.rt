//! The methods of a package, typed: each of them can be called.
ghost use Rattle.std.specs.Prelude.{◌≡◌, ◌++◌, ◌∷◌, [], List as Items, IfOk, map};
ghost use Rattle.ds2_elaboration.specs.ProgramTypes.{method_refusals};
ghost use Rattle.ds2_elaboration.specs.Typings.{TypeRefusals};
ghost use Rattle.ds2_elaboration.specs.UnitsBefore.{UnitsBefore};
ghost use Rattle.ds2_names.specs.NameRules.{from_each};
ghost use Rattle.ds2_names.specs.SourceUnit.{TableColumns, source_methods, UnitSource};
ghost use Rattle.ds2_program_types.specs.MethodRules.{part_rules};
ghost use Rattle.ds2_program_types.specs.PackageMethods.{AreTyped};
ghost use Rattle.ds2_program_types.specs.UnitScopes.{AreUnitTables};
ghost use Rattle.ds2_tree.specs.Globals.{Method};
ghost use Rattle.ds2_tree.specs.UnitViews.{global_tree};
ghost use Rattle.ds2_types.specs.Judgements.{IsOutcome};

use crate::methods::callable_method;
use crate::unit_tables::UnitTables;
use ds2_base::{List, OutOfMemory, Refusal};
use ds2_meaning::{Method as TypedMethod, TypeKind};
use ds2_simple_statement_types::parts::with_one;
use ds2_tree::GlobalItem;
use std::alloc::Global;

/// What stands of the methods of a package so far.
pub type PackageOutcome = Result<List<TypedMethod>, Refusal<TypeKind>>;

/// What stands of methods and of a part of a package, where it is one.
fn further_global(
    alloc: Global,
    unit: &UnitTables,
    so_far: PackageOutcome,
    global: &GlobalItem,
) -> Result<PackageOutcome, OutOfMemory>
    ensures { (tables : TableColumns) (before : UnitsBefore) (u : UnitSource) (methods : Items Method) (xs : TypeRefusals) → AreUnitTables tables before u unit.now → IsOutcome (AreTyped tables before u methods) xs so_far
        → IfOk result (IsOutcome (AreTyped tables before u (methods ++ source_methods (global_tree global.now ∷ []))) (xs ++ part_rules tables before u (global_tree global.now))) }
{
    match global {
        GlobalItem::Method(m) => {
            let method = callable_method(alloc, unit, m)?;
            with_one(so_far, method)
        }
        GlobalItem::Listed { .. } => Ok(so_far),
        GlobalItem::Declaration(_) => Ok(so_far),
    }
}

/// The methods of a package, or the one of the rules that they break that is given.
pub fn package_methods(
    alloc: Global,
    unit: &UnitTables,
    globals: &[GlobalItem],
) -> Result<PackageOutcome, OutOfMemory>
    ensures { (tables : TableColumns) (before : UnitsBefore) (u : UnitSource) → AreUnitTables tables before u unit.now
        → IfOk result (IsOutcome (AreTyped tables before u (source_methods (map global_tree globals.now))) (from_each (method_refusals tables before u) (source_methods (map global_tree globals.now)))) }
{
    let mut all: PackageOutcome = Ok(List::new(alloc));
    'globals: for global in globals {
        all = further_global(alloc, unit, all, global)?;
    }
    Ok(all)
}
