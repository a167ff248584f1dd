//! Laws of the grammar.
ghost use Rattle.ds2_source.specs.ParseAnswer.{SourcesAreReadExactly};
ghost use Rattle.ds2_source.specs.ParseExamples.{SourceExamples};

/// Two sources of the grammar with one spelling are one, and of each list of tokens one answer is due: its tree, the first token
/// with which nothing goes on, or the first that opens a level too many.
pub fn grammar_reads_sources()
    ensures { SourcesAreReadExactly }
{}

/// Some texts, and what is read of them.
pub fn reading_examples()
    ensures { SourceExamples }
{}
