//! What scopes of tables stand for.
ghost use Rattle.ds2_type_tables.specs.ScopeLaw.{TablesMakeScope, TablesTellVariables};

/// In a scope of tables of locals and of globals each name stands for what the definitions say.
pub fn tables_tell_variables()
    ensures { TablesTellVariables }
{}

/// A scope of tables of locals, globals, BY variables and methods is what the definitions say that a method sees.
pub fn tables_make_scope()
    ensures { TablesMakeScope }
{}
