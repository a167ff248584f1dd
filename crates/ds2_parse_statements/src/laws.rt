//! Laws of the grammar.
ghost use Rattle.ds2_parse_rules.specs.ExpressionGrammar.{ExpressionsHaveOneTree};
ghost use Rattle.ds2_parse_rules.specs.StatementGrammar.{StatementsHaveOneTree};

/// Two expressions of the grammar with one spelling are one.
pub fn grammar_reads_expressions()
    ensures { ExpressionsHaveOneTree }
{}

/// Two statements of the grammar with one spelling are one.
pub fn grammar_reads_statements()
    ensures { StatementsHaveOneTree }
{}
