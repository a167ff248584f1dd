//! The tree of a source.
ghost use Rattle.std.specs.Prelude.{◌<◌, ◌+◌, ◌^◌, IfOk, length};
ghost use Rattle.ds2_tree.specs.UnitViews.{source_tree};
ghost use Rattle.ds2_source.specs.SourceAnswer.{GivesAnswerForTokens, GivesSourceAnswer};
ghost use Rattle.ds2_source.specs.SourceTexts.{StandsInText};

use crate::{SourceKind, SourceRefusal, parse};
use ds2_base::{List, Place, Refusal, Stop, Text};
use ds2_token::{Token, end_place, tokens};
use ds2_tree::Source;
use std::alloc::Global;

// The tree of the tokens of a text that ends at `end`.
fn parsed(alloc: Global, tokens: &List<Token>, end: Place) -> Result<Source, Stop<SourceRefusal>>
    ensures { GivesAnswerForTokens end tokens.now result }
{
    match parse(alloc, tokens, end) {
        Ok(source) => Ok(source),
        Err(Stop::Refused(Refusal { kind, place })) => Err(Stop::Refused(SourceRefusal {
            kind: SourceKind::Parse(kind),
            place,
        })),
        Err(Stop::OutOfMemory) => Err(Stop::OutOfMemory),
    }
}

/// The syntax tree of a text. It is refused with the lexer's first refusal or, where all of it is tokens, with the parser's.
#[tactic(auto, using(crate::proofs::TextLemmas::tree_in_text))]
pub fn read_source(alloc: Global, text: &Text) -> Result<Source, Stop<SourceRefusal>>
    ensures answer { GivesSourceAnswer text.now result }
    ensures tree { length text.now + 1 < 2 ^ 32 → IfOk result (λ source. StandsInText (source_tree source)) }
{
    match tokens(alloc, text) {
        Ok(tokens) => parsed(alloc, &tokens, end_place(text)),
        Err(Stop::Refused(Refusal { kind, place })) => Err(Stop::Refused(SourceRefusal {
            kind: SourceKind::Lex(kind),
            place,
        })),
        Err(Stop::OutOfMemory) => Err(Stop::OutOfMemory),
    }
}
