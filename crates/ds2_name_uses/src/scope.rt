//! What a method of a unit sees: tables of names.
ghost use Rattle.std.specs.Prelude.{◌≡◌};

use ds2_calls::Calls;
use ds2_scope::NameSet;

/// The rules on uses of names that tests on names decide.
#[derive(Clone, Copy)]
pub(crate) enum UsageRule {
    UnknownName,
    NotVariable,
    UnknownMethod,
    WrongCount,
    /// `setparms` outside of `init`.
    MisplacedSetting,
}

/// Tables of what a unit gives names to, beside its methods and instances.
#[derive(Drop)]
pub(crate) struct UnitTables {
    /// What may be set: declared variables, columns, and the parameters of a thread program.
    pub settable: NameSet,
    /// The `in=` flags.
    pub flags: NameSet,
    /// The BY variables.
    pub bys: NameSet,
    /// The outputs, `_null_` among them.
    pub outputs: NameSet,
    /// Whether a name that is not there may be a column.
    pub is_open: bool,
    /// Whether the unit is a program, of which `init`, `run` and `term` are system methods.
    pub is_program: bool,
}

/// What a method sees, and the rule that is looked at.
#[derive(Drop)]
pub(crate) struct Scope<'t, 'u, 'k> {
    pub rule: UsageRule,
    pub unit: &'t UnitTables,
    pub calls: Calls<'u, 'k>,
    /// The parameters and locals of the method.
    pub locals: NameSet,
    /// Whether the method is the system method `init`.
    pub is_init: bool,
}

impl<'t, 'u, 'k> Scope<'t, 'u, 'k> {
    /// What is seen where these names are parameters and locals.
    pub(crate) fn over(
        rule: UsageRule,
        unit: &'t UnitTables,
        calls: &Calls<'u, 'k>,
        locals: NameSet,
        is_init: bool,
    ) -> Scope<'t, 'u, 'k>
        ensures rule { result.rule ≡ rule }
        ensures unit { result.unit.now ≡ unit.now }
        ensures calls { result.calls ≡ calls.now }
        ensures locals { result.locals ≡ locals }
        ensures is_init { result.is_init ≡ is_init }
    {
        Scope {
            rule,
            unit,
            calls: *calls,
            locals,
            is_init,
        }
    }
}
