//! Laws of the meaning, over the definitions alone.
ghost use Rattle.ds2_meaning.specs.BudgetLaws.{NoStatementRaisesTheBudget, LoopsAreTheirTurns};
ghost use Rattle.ds2_meaning.specs.EdgeExamples.{EdgeExamples, TextLimitExamples};
ghost use Rattle.ds2_meaning.specs.ExpressionExamples.{IntegerExamples, DecimalExamples, TruthExamples, TextExamples};
ghost use Rattle.ds2_meaning.specs.FormExamples.{OperandExamples, OrderExamples, FaultFormExamples, TableExamples};
ghost use Rattle.ds2_meaning.specs.FurtherExamples.{NullExamples, ConversionExamples, RoundExamples, CallExamples, ReadingExamples, FaultExamples};
ghost use Rattle.ds2_meaning.specs.HashExamples.{HashExamples, InstanceExamples, IteratorExamples};
ghost use Rattle.ds2_meaning.specs.ProgramExamples.{UnitExamples, LoadExamples, StageExamples};
ghost use Rattle.ds2_meaning.specs.ReadingLaws.{GroupsDivideReadings, ReadingsStandInByOrder};
ghost use Rattle.ds2_meaning.specs.StatementExamples.{ChoiceExamples, LoopExamples, OutputExamples, MethodExamples};
ghost use Rattle.ds2_meaning.specs.TypedExamples.{TypedExamples};
ghost use Rattle.ds2_meaning.specs.StorageLaws.{GivenParametersFit, OpeningFits};
ghost use Rattle.ds2_meaning.specs.TableLaws.{TablesMentionedDecide, FaultLeavesNoTable};

/// No statement raises the budget, whatever methods it calls.
pub fn no_statement_raises_the_budget()
    ensures { NoStatementRaisesTheBudget }
{}

/// Each of the three loops is one turn and then the loop: the bound that the definitions count down says nothing.
pub fn loops_are_their_turns()
    ensures { LoopsAreTheirTurns }
{}

/// A program's answer depends on the tables that its reading statements and its hash objects mention alone.
pub fn tables_mentioned_decide()
    ensures { TablesMentionedDecide }
{}

/// A program that ends by a fault leaves no table.
pub fn fault_leaves_no_table()
    ensures { FaultLeavesNoTable }
{}

/// The loads of every reading statement stand in BY order.
pub fn readings_stand_in_by_order()
    ensures { ReadingsStandInByOrder }
{
    ds2_table::laws::loads_stand_in_by_order();
}

/// The groups of the loads of every reading statement, one after the other, are its loads.
pub fn groups_divide_readings()
    ensures { GroupsDivideReadings }
{
    ds2_table::laws::groups_divide_loads();
    readings_stand_in_by_order();
}

/// What a typed program keeps before its first unit fits, over tables whose rows fit and with values that fit its parameters.
pub fn opening_fits()
    ensures { OpeningFits }
{
    ds2_value::laws::fitting_is_held();
    ds2_value::laws::assigned_fits();
}

/// The values that a typed program gives to the thread program that it reads from fit that one's parameters, where what it keeps
/// fits.
pub fn given_parameters_fit()
    ensures { GivenParametersFit }
{}

/// Operators on BIGINT values, in small programs.
pub fn integer_examples()
    ensures { IntegerExamples }
{}

/// Operators on DECIMAL values, in small programs.
pub fn decimal_examples()
    ensures { DecimalExamples }
{}

/// Comparisons and truth, in small programs.
pub fn truth_examples()
    ensures { TruthExamples }
{}

/// Texts, in small programs.
pub fn text_examples()
    ensures { TextExamples }
{}

/// Choices between statements, in small programs.
pub fn choice_examples()
    ensures { ChoiceExamples }
{}

/// Loops, in small programs.
pub fn loop_examples()
    ensures { LoopExamples }
{}

/// Lines and rows, in small programs.
pub fn output_examples()
    ensures { OutputExamples }
{}

/// Calls of methods, in small programs.
pub fn method_examples()
    ensures { MethodExamples }
{}

/// The units of small programs, what they keep and what they write.
pub fn unit_examples()
    ensures { UnitExamples }
{}

/// The loads of `set` and `merge`, in small programs.
pub fn load_examples()
    ensures { LoadExamples }
{}

/// Small programs that read from a thread program.
pub fn stage_examples()
    ensures { StageExamples }
{}

/// A null operand of each operator and function, in small programs.
pub fn null_examples()
    ensures { NullExamples }
{}

/// The order of conversions and the types of DECIMAL results, in small programs.
pub fn conversion_examples()
    ensures { ConversionExamples }
{}

/// Loops with `leave`, `continue` and null, in small programs.
pub fn round_examples()
    ensures { RoundExamples }
{}

/// Calls, constructors and returns, in small programs.
pub fn call_examples()
    ensures { CallExamples }
{}

/// Loads over several tables and their groups, in small programs.
pub fn reading_examples()
    ensures { ReadingExamples }
{}

/// Faults in each unit and the order of units, in small programs.
pub fn fault_examples()
    ensures { FaultExamples }
{}

/// A program that is typed, and programs that are not.
pub fn typed_examples()
    ensures { TypedExamples }
{}

/// Calls of hash objects, in small programs.
pub fn hash_examples()
    ensures { HashExamples }
{}

/// Calls of iterators, in small programs.
pub fn iterator_examples()
    ensures { IteratorExamples }
{}

/// Instances with hash objects of their own, and parameters of thread programs, in small programs.
pub fn instance_examples()
    ensures { InstanceExamples }
{}

/// Null on the right, ways out of loops, merges over several keys and columns in wider variables, in small programs.
pub fn edge_examples()
    ensures { EdgeExamples }
{}

/// Texts of more than 1,024 characters, in small programs.
pub fn text_limit_examples()
    ensures { TextLimitExamples }
{}

/// Null on each side of each operator, and each comparison, in small programs.
pub fn operand_examples()
    ensures { OperandExamples }
{}

/// The order in which operands and arguments are evaluated and converted, in small programs.
pub fn order_examples()
    ensures { OrderExamples }
{}

/// Further faults of operations, and budgets that end in a constructor, in small programs.
pub fn fault_form_examples()
    ensures { FaultFormExamples }
{}

/// Small programs over tables, a thread program that faults, and one that sets its parameter.
pub fn table_examples()
    ensures { TableExamples }
{}
