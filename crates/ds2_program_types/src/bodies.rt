//! The statements of a method of a unit.
ghost use Rattle.std.specs.Prelude.{◌≡◌, IfOk, bytes_eq, codes, if◌then◌else◌};
ghost use Rattle.ds2_elaboration.specs.UnitsBefore.{UnitsBefore};
ghost use Rattle.ds2_elaboration.specs.ProgramTypes.{scope_of_method, return_rule};
ghost use Rattle.ds2_elaboration.specs.StatementTypes.{statements_refusals, statements_node};
ghost use Rattle.ds2_meaning.specs.View.{typed_statements};
ghost use Rattle.ds2_names.specs.SourceUnit.{TableColumns, UnitSource, spelled_name};
ghost use Rattle.ds2_tree.specs.UnitViews.{method_tree};
ghost use Rattle.ds2_types.specs.Judgements.{first_type_refusal, IsOutcome};
ghost use Rattle.ds2_program_types.specs.UnitScopes.{AreUnitTables};

use crate::unit_tables::UnitTables;
use ds2_base::{OutOfMemory, Refusal};
use ds2_declared_types::spelled::returned_type;
use ds2_declared_types::variables::variables_in_method;
use ds2_meaning::TypeKind;
use ds2_reference_types::scopes::{KnownObjects, Scope};
use ds2_scope::spelled_name;
use ds2_simple_statement_types::method_scope::MethodScope;
use ds2_statement_types::loops::BodyOutcome;
use ds2_statement_types::returning::list_returns;
use ds2_statement_types::walk::method_body;
use ds2_tree::Method;
use ds2_type_tables::locals::locals;
use ds2_types::refusals::refusal;
use std::alloc::Global;

/// Whether a method is named `init`.
fn is_init(alloc: Global, m: &Method) -> Result<bool, OutOfMemory>
    ensures { IfOk result (λ b. b ≡ bytes_eq (spelled_name (method_tree m.now).name) (codes "init")) }
{
    let name = spelled_name(alloc, &m.name)?;
    Ok(name.as_slice() == b"init".as_slice())
}

/// The objects that a method may call something on.
fn objects_for(unit: &UnitTables, in_init: bool) -> &KnownObjects
    ensures { result.now ≡ if in_init then unit.now.init_objects else unit.now.objects }
{
    if in_init {
        &unit.init_objects
    } else {
        &unit.objects
    }
}

/// What becomes of the statements of a method, or the first of the rules that are broken in them.
pub fn body(alloc: Global, unit: &UnitTables, m: &Method) -> Result<BodyOutcome, OutOfMemory>
    ensures { (tables : TableColumns) (before : UnitsBefore) (u : UnitSource) → AreUnitTables tables before u unit.now
        → IfOk result (IsOutcome (λ l. typed_statements l ≡ statements_node (scope_of_method tables before u (method_tree m.now)) (method_tree m.now).body)
        (statements_refusals (scope_of_method tables before u (method_tree m.now)) (method_tree m.now).body)) }
{
    let variables = variables_in_method(alloc, m)?;
    let locals = locals(alloc, variables.as_slice())?;
    let returns = returned_type(&m.returns)?;
    let in_init = is_init(alloc, m)?;
    let scope = MethodScope {
        names: Scope {
            locals: &locals,
            globals: &unit.globals,
            bys: &unit.bys,
            methods: &unit.methods,
            objects: objects_for(unit, in_init),
        },
        outputs: &unit.outputs,
        output_count: unit.output_count,
        returns,
    };
    method_body(alloc, &scope, m.body.as_slice())
}

/// NoReturn: a method that returns a value does not surely return, at its name.
pub fn return_rule(m: &Method) -> Option<Refusal<TypeKind>>
    ensures { result ≡ first_type_refusal (return_rule (method_tree m.now)) }
{
    match m.returns {
        None => None,
        Some(_) => {
            if list_returns(m.body.as_slice()) {
                None
            } else {
                Some(refusal(TypeKind::NoReturn, m.name.place))
            }
        }
    }
}
