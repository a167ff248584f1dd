//! The methods of a data program or a thread program, typed.
ghost use Rattle.std.specs.Prelude.{◌≡◌, ◌++◌, ◌∷◌, [], true, false, List as Items, Some, IfOk, map};
ghost use Rattle.std.specs.Option.{option_or};
ghost use Rattle.ds2_elaboration.specs.UnitsBefore.{UnitsBefore};
ghost use Rattle.ds2_elaboration.specs.ProgramTypes.{method_tree_of, method_refusals};
ghost use Rattle.ds2_elaboration.specs.Typings.{TypeRefusals};
ghost use Rattle.ds2_meaning.specs.View.{typed_method};
ghost use Rattle.ds2_names.specs.NameRules.{from_each};
ghost use Rattle.ds2_names.specs.SourceUnit.{TableColumns, is_system_name, source_methods, spelled_name, UnitSource};
ghost use Rattle.ds2_tree.specs.Globals.{Method};
ghost use Rattle.ds2_tree.specs.UnitViews.{method_tree, global_tree};
ghost use Rattle.ds2_types.specs.Judgements.{first_type_refusal, IsOutcome};
ghost use Rattle.ds2_program_types.specs.MethodRules.{part_rules, under_rule};
ghost use Rattle.ds2_program_types.specs.TypedMethodLists.{AreMethodsOf, IsSystemOf};
ghost use Rattle.ds2_program_types.specs.UnitScopes.{AreUnitTables};

use crate::bodies::{body, return_rule};
use crate::unit_tables::UnitTables;
use ds2_base::{List, OutOfMemory, Refusal};
use ds2_declared_types::names::name;
use ds2_declared_types::spelled::returned_type;
use ds2_declared_types::variables::{declared_variables, parameters};
use ds2_meaning::{Method as TypedMethod, SystemMethod, TypeKind};
use ds2_scope::{is_system_name, spelled_name};
use ds2_simple_statement_types::parts::of_both;
use ds2_tree::{GlobalItem, Method as SourceMethod};
use ds2_types::refusals::first_of_both;
use std::alloc::Global;

/// The methods of a program that are typed so far.
#[derive(Drop)]
pub struct TypedMethods {
    /// Those that can be called, in order.
    pub methods: List<TypedMethod>,
    pub init: Option<SystemMethod>,
    pub run: Option<SystemMethod>,
    pub term: Option<SystemMethod>,
}

/// What stands beside a rule that may be broken.
pub fn under_rule<A: Drop>(
    rule: Option<Refusal<TypeKind>>,
    outcome: Result<A, Refusal<TypeKind>>,
) -> Result<A, Refusal<TypeKind>>
    ensures { result ≡ under_rule rule outcome }
{
    match rule {
        None => outcome,
        Some(own) => match outcome {
            Ok(_) => Err(own),
            Err(further) => Err(first_of_both(own, Some(further))),
        },
    }
}

/// A method that can be called, or the one of the rules that it breaks that is given.
pub fn callable_method(
    alloc: Global,
    unit: &UnitTables,
    m: &SourceMethod,
) -> Result<Result<TypedMethod, Refusal<TypeKind>>, OutOfMemory>
    ensures { (tables : TableColumns) (before : UnitsBefore) (u : UnitSource) → AreUnitTables tables before u unit.now
        → IfOk result (IsOutcome (λ t. typed_method t ≡ method_tree_of tables before u (method_tree m.now)) (method_refusals tables before u (method_tree m.now))) }
{
    let outcome = body(alloc, unit, m)?;
    match under_rule(return_rule(m), outcome) {
        Err(refusal) => Ok(Err(refusal)),
        Ok(body) => {
            let name = name(alloc, &m.name)?;
            let listed = m.parameters.list.as_slice();
            let parameters = parameters(alloc, listed)?;
            let declared = m.locals.as_slice();
            let locals = declared_variables(alloc, declared)?;
            let returns = returned_type(&m.returns)?;
            Ok(Ok(TypedMethod {
                name,
                parameters,
                locals,
                returns,
                body,
            }))
        }
    }
}

/// A system method, or the one of the rules that it breaks that is given.
pub fn system_method(
    alloc: Global,
    unit: &UnitTables,
    m: &SourceMethod,
) -> Result<Result<SystemMethod, Refusal<TypeKind>>, OutOfMemory>
    ensures { (tables : TableColumns) (before : UnitsBefore) (u : UnitSource) → AreUnitTables tables before u unit.now
        → IfOk result (IsOutcome (IsSystemOf tables before u (method_tree m.now)) (method_refusals tables before u (method_tree m.now))) }
{
    let outcome = body(alloc, unit, m)?;
    match under_rule(return_rule(m), outcome) {
        Err(refusal) => Ok(Err(refusal)),
        Ok(body) => {
            let locals = declared_variables(alloc, m.locals.as_slice())?;
            Ok(Ok(SystemMethod {
                place: m.name.place,
                locals,
                body,
            }))
        }
    }
}

/// What stands of the methods of a program so far.
pub type MethodsOutcome = Result<TypedMethods, Refusal<TypeKind>>;

/// No methods.
fn no_methods(alloc: Global) -> TypedMethods
    ensures { (tables : TableColumns) (before : UnitsBefore) (u : UnitSource) → AreMethodsOf tables before u [] result }
{
    TypedMethods {
        methods: List::new(alloc),
        init: None,
        run: None,
        term: None,
    }
}

/// Methods with one more that can be called.
fn with_callable(so_far: TypedMethods, m: TypedMethod) -> Result<TypedMethods, OutOfMemory>
    ensures { (tables : TableColumns) (before : UnitsBefore) (u : UnitSource) (methods : Items Method) (own : Method) → AreMethodsOf tables before u methods so_far → is_system_name (spelled_name own.name) ≡ false
        → typed_method m ≡ method_tree_of tables before u own → IfOk result (AreMethodsOf tables before u (methods ++ own ∷ [])) }
{
    let TypedMethods {
        mut methods,
        init,
        run,
        term,
    } = so_far;
    methods.push(m)?;
    Ok(TypedMethods {
        methods,
        init,
        run,
        term,
    })
}

/// The first of two system methods of one name.
fn first_system(so_far: Option<SystemMethod>, m: SystemMethod) -> Option<SystemMethod>
    ensures { result ≡ option_or so_far (Some m) }
{
    match so_far {
        Some(first) => Some(first),
        None => Some(m),
    }
}

/// Methods with one more system method, of this name; of two of one name the first counts.
fn with_system(so_far: TypedMethods, name: &[u8], m: SystemMethod) -> TypedMethods
    ensures { (tables : TableColumns) (before : UnitsBefore) (u : UnitSource) (methods : Items Method) (own : Method) → AreMethodsOf tables before u methods so_far → is_system_name (spelled_name own.name) ≡ true
        → name.now ≡ spelled_name own.name → IsSystemOf tables before u own m → AreMethodsOf tables before u (methods ++ own ∷ []) result }
{
    let TypedMethods {
        methods,
        init,
        run,
        term,
    } = so_far;
    let is_init = name == b"init".as_slice();
    if is_init {
        let init = first_system(init, m);
        return TypedMethods {
            methods,
            init,
            run,
            term,
        };
    }
    let is_run = name == b"run".as_slice();
    if is_run {
        let run = first_system(run, m);
        return TypedMethods {
            methods,
            init,
            run,
            term,
        };
    }
    let term = first_system(term, m);
    TypedMethods {
        methods,
        init,
        run,
        term,
    }
}

/// What stands of methods and of one more that can be called.
fn further_callable(
    so_far: MethodsOutcome,
    m: Result<TypedMethod, Refusal<TypeKind>>,
) -> Result<MethodsOutcome, OutOfMemory>
    ensures { (tables : TableColumns) (before : UnitsBefore) (u : UnitSource) (methods : Items Method) (own : Method) (xs ys : TypeRefusals) → IsOutcome (AreMethodsOf tables before u methods) xs so_far
        → is_system_name (spelled_name own.name) ≡ false → IsOutcome (λ t. typed_method t ≡ method_tree_of tables before u own) ys m
        → IfOk result (IsOutcome (AreMethodsOf tables before u (methods ++ own ∷ [])) (xs ++ ys)) }
{
    match of_both(so_far, m) {
        Err(refusal) => Ok(Err(refusal)),
        Ok(parts) => {
            let all = with_callable(parts.first, parts.second)?;
            Ok(Ok(all))
        }
    }
}

/// What stands of methods and of one more system method.
fn further_system(
    so_far: MethodsOutcome,
    name: &[u8],
    m: Result<SystemMethod, Refusal<TypeKind>>,
) -> MethodsOutcome
    ensures { (tables : TableColumns) (before : UnitsBefore) (u : UnitSource) (methods : Items Method) (own : Method) (xs ys : TypeRefusals) → IsOutcome (AreMethodsOf tables before u methods) xs so_far
        → is_system_name (spelled_name own.name) ≡ true → name.now ≡ spelled_name own.name → IsOutcome (IsSystemOf tables before u own) ys m
        → IsOutcome (AreMethodsOf tables before u (methods ++ own ∷ [])) (xs ++ ys) result }
{
    match of_both(so_far, m) {
        Err(refusal) => Err(refusal),
        Ok(parts) => Ok(with_system(parts.first, name, parts.second)),
    }
}

/// What stands of methods and of one more.
fn further_method(
    alloc: Global,
    unit: &UnitTables,
    so_far: MethodsOutcome,
    m: &SourceMethod,
) -> Result<MethodsOutcome, OutOfMemory>
    ensures { (tables : TableColumns) (before : UnitsBefore) (u : UnitSource) (methods : Items Method) (xs : TypeRefusals) → AreUnitTables tables before u unit.now → IsOutcome (AreMethodsOf tables before u methods) xs so_far
        → IfOk result (IsOutcome (AreMethodsOf tables before u (methods ++ method_tree m.now ∷ [])) (xs ++ method_refusals tables before u (method_tree m.now))) }
{
    let own = spelled_name(alloc, &m.name)?;
    let spelled = own.as_slice();
    let system = is_system_name(spelled);
    if system {
        let method = system_method(alloc, unit, m)?;
        Ok(further_system(so_far, spelled, method))
    } else {
        let callable = callable_method(alloc, unit, m)?;
        further_callable(so_far, callable)
    }
}

/// What stands of methods and of a part of a unit, where it is one.
fn further_global(
    alloc: Global,
    unit: &UnitTables,
    so_far: MethodsOutcome,
    global: &GlobalItem,
) -> Result<MethodsOutcome, OutOfMemory>
    ensures { (tables : TableColumns) (before : UnitsBefore) (u : UnitSource) (methods : Items Method) (xs : TypeRefusals) → AreUnitTables tables before u unit.now → IsOutcome (AreMethodsOf tables before u methods) xs so_far
        → IfOk result (IsOutcome (AreMethodsOf tables before u (methods ++ source_methods (global_tree global.now ∷ []))) (xs ++ part_rules tables before u (global_tree global.now))) }
{
    match global {
        GlobalItem::Method(m) => further_method(alloc, unit, so_far, m),
        GlobalItem::Listed { .. } => Ok(so_far),
        GlobalItem::Declaration(_) => Ok(so_far),
    }
}

/// The methods of a program, or the one of the rules that they break that is given.
pub fn typed_methods(
    alloc: Global,
    unit: &UnitTables,
    globals: &[GlobalItem],
) -> Result<MethodsOutcome, OutOfMemory>
    ensures { (tables : TableColumns) (before : UnitsBefore) (u : UnitSource) → AreUnitTables tables before u unit.now
        → IfOk result (IsOutcome (AreMethodsOf tables before u (source_methods (map global_tree globals.now))) (from_each (method_refusals tables before u) (source_methods (map global_tree globals.now)))) }
{
    let mut all: MethodsOutcome = Ok(no_methods(alloc));
    'globals: for global in globals {
        all = further_global(alloc, unit, all, global)?;
    }
    Ok(all)
}
