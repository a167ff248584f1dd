//! Laws of the elaboration, over the definitions alone.
ghost use Rattle.ds2_elaboration.specs.ElaborationLaws.{FirstRefusals, OneOutcome, ReturningIsKept};
ghost use Rattle.ds2_elaboration.specs.TypedForms.{EveryFormIsTyped};
ghost use Rattle.ds2_elaboration.specs.TextPrograms.{EveryTextIsTyped, TokensStandInOrder};
ghost use Rattle.ds2_elaboration.specs.TypedPrograms.{EveryMethodIsTyped, EveryUnitIsTyped, EverySourceIsTyped, EveryThreadIsTyped};
ghost use Rattle.ds2_elaboration.specs.TypedScopes.{ExpressionsAreTyped, StatementsAreTyped};
ghost use Rattle.ds2_elaboration.specs.OperatorExamples.{OperatorExamples, TruthTypeExamples, AssignmentExamples};
ghost use Rattle.ds2_elaboration.specs.CallExamples.{FunctionExamples, MethodCallExamples, ChoiceTypeExamples};
ghost use Rattle.ds2_elaboration.specs.SourceExamples.{ProgramTypeExamples, TwoProgramExamples, LayoutExamples};
ghost use Rattle.ds2_elaboration.specs.ListingExamples.{AssignedSourceExamples, SettableExamples, ListedColumnExamples, ThreadLayoutExamples};
ghost use Rattle.ds2_elaboration.specs.VariableExamples.{UnjoinedColumnExamples, VariableTypeExamples};
ghost use Rattle.ds2_elaboration.specs.PackageExamples.{InstanceTypeExamples, HashTypeExamples, ThreadTypeExamples};

/// Operators between operands, in small statements.
pub fn operator_examples()
    ensures { OperatorExamples }
{}

/// Conditions and comparisons, in small statements.
pub fn truth_type_examples()
    ensures { TruthTypeExamples }
{}

/// Assignments and constants, in small statements.
pub fn assignment_examples()
    ensures { AssignmentExamples }
{}

/// Functions, in small statements.
pub fn function_examples()
    ensures { FunctionExamples }
{}

/// Calls of methods, in small statements.
pub fn method_call_examples()
    ensures { MethodCallExamples }
{}

/// Choices and loops, in small statements.
pub fn choice_type_examples()
    ensures { ChoiceTypeExamples }
{}

/// Methods, columns and outputs, in small programs.
pub fn program_type_examples()
    ensures { ProgramTypeExamples }
{}

/// Columns whose tables do not join, in statements before the reading statement.
pub fn unjoined_column_examples()
    ensures { UnjoinedColumnExamples }
{}

/// Flags, and parameters and locals that hide globals, in small programs.
pub fn variable_type_examples()
    ensures { VariableTypeExamples }
{}

/// Columns that `keep` and `drop` leave, in a small program.
pub fn listed_column_examples()
    ensures { ListedColumnExamples }
{}

/// A small program that is taken, one that is refused for its names, and one for its types.
pub fn assigned_source_examples()
    ensures { AssignedSourceExamples }
{}

/// What may be set.
pub fn settable_examples()
    ensures { SettableExamples }
{}

/// Instances of packages, in small sources.
pub fn instance_type_examples()
    ensures { InstanceTypeExamples }
{}

/// Hash objects, in a small source.
pub fn hash_type_examples()
    ensures { HashTypeExamples }
{}

/// Thread programs, in small sources.
pub fn thread_type_examples()
    ensures { ThreadTypeExamples }
{}

/// Layouts of programs with parameters, instances and thread programs.
pub fn thread_layout_examples()
    ensures { ThreadLayoutExamples }
{}

/// Sources of several programs.
pub fn two_program_examples()
    ensures { TwoProgramExamples }
{}

/// Layouts of small programs.
pub fn layout_examples()
    ensures { LayoutExamples }
{}

/// Assigned values, operators and functions of numbers and texts become typed expressions where they break no rule.
pub fn every_form_is_typed()
    ensures { EveryFormIsTyped }
{}

/// Every expression becomes a typed one, of the type that is known of it, where it breaks no rule of types.
pub fn expressions_are_typed()
    ensures { ExpressionsAreTyped }
{}

/// Statements become typed statements where they break no rule of types and stand where they may.
pub fn statements_are_typed()
    ensures { StatementsAreTyped }
{}

/// The methods of a data or thread program that breaks no rule of names or types become typed methods, and its system methods typed
/// bodies.
pub fn every_method_is_typed()
    ensures { EveryMethodIsTyped }
{
    ds2_value::laws::join_takes_both();
    ds2_value::laws::takes_itself();
    ds2_value::laws::takes_onward();
}

/// A unit that breaks no rule of names or types becomes a typed program, or a package whose instances are typed.
pub fn every_unit_is_typed()
    ensures { EveryUnitIsTyped }
{
    ds2_value::laws::join_takes_both();
    ds2_value::laws::takes_itself();
    ds2_value::laws::takes_onward();
}

/// What a source becomes, where it is not refused, is typed data programs.
pub fn every_source_is_typed()
    ensures { EverySourceIsTyped }
{
    ds2_value::laws::join_takes_both();
    ds2_value::laws::takes_itself();
    ds2_value::laws::takes_onward();
}

/// The thread programs of a source that is not refused are typed, whether a program reads from them or not.
pub fn every_thread_is_typed()
    ensures { EveryThreadIsTyped }
{
    ds2_value::laws::join_takes_both();
    ds2_value::laws::takes_itself();
    ds2_value::laws::takes_onward();
}

/// The tokens that stand for a text stand in order.
pub fn tokens_stand_in_order()
    ensures { TokensStandInOrder }
{}

/// What a text becomes whose tokens are a source, where it is not refused, is typed data programs.
pub fn every_text_is_typed()
    ensures { EveryTextIsTyped }
{
    ds2_value::laws::join_takes_both();
    ds2_value::laws::takes_itself();
    ds2_value::laws::takes_onward();
}

/// Of the broken rules of a unit the one with the least place is given, and at one place the first kind.
pub fn first_refusals()
    ensures { FirstRefusals }
{}

/// A unit is not refused, is refused for its names, or for its types, and each exactly where the rules say so.
pub fn one_outcome()
    ensures { OneOutcome }
{}

/// Statements that surely return become statements that surely return.
pub fn returning_is_kept()
    ensures { ReturningIsKept }
{}
