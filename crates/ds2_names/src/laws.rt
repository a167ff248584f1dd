//! Small sources and the refusals of their names.
ghost use Rattle.ds2_names.specs.FurtherNameExamples.{FurtherNameExamples};
ghost use Rattle.ds2_names.specs.InstanceExamples.{InstanceNameExamples, LimitExamples, UnitNameExamples};
ghost use Rattle.ds2_names.specs.NameExamples.{NameExamples};
ghost use Rattle.ds2_names.specs.RuleExamples.{OutputNameExamples, RuleNameExamples, UnknownThreadExamples};

/// Small data programs and the refusals of their names.
pub fn name_examples()
    ensures { NameExamples }
{}

/// Hash objects, iterators and instances of packages, in small data programs.
pub fn instance_name_examples()
    ensures { InstanceNameExamples }
{}

/// Small packages and thread programs and the refusals of their names.
pub fn unit_name_examples()
    ensures { UnitNameExamples }
{}

/// The limits over a source.
pub fn limit_examples()
    ensures { LimitExamples }
{}

/// Options of outputs and `_null_`, and the refusals of their names.
pub fn output_name_examples()
    ensures { OutputNameExamples }
{}

/// BY variables, aliases, names that are given twice, and numbers.
pub fn rule_name_examples()
    ensures { RuleNameExamples }
{}

/// What an unknown thread program leaves open.
pub fn unknown_thread_examples()
    ensures { UnknownThreadExamples }
{}

/// Lists, in_out arguments, reading statements, calls and places of statements, in further small data programs.
pub fn further_name_examples()
    ensures { FurtherNameExamples }
{}
