//! Laws over all texts, each the contract of a function that does nothing.
ghost use Rattle.ds2_source.specs.AnswersOfTexts.{OneSourceAnswer, SourcesRead};

use crate::grammar_reads_sources;
use ds2_token::laws::{
    every_text_is_read, no_refusal_beside_tokens, one_list_stands, one_refusal_is_first,
};

/// Two answers for one text are equal.
pub fn one_source_answer()
    ensures { OneSourceAnswer }
{
    one_list_stands();
    one_refusal_is_first();
    no_refusal_beside_tokens();
    grammar_reads_sources();
}

/// Each text has an answer.
pub fn sources_are_read()
    ensures { SourcesRead }
{
    every_text_is_read();
    grammar_reads_sources();
}
