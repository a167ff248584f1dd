//! Laws of the format's parts.
ghost use Rattle.ds2_object_words.specs.LawfulParts.{NoSpellingBeginsAnother, AreLawfulWords, AreLawfulParts};
ghost use Rattle.ds2_object_words.specs.PartExamples.{PartExamples};

/// What is spelled is read, whatever follows; what is read is spelled there; further bytes change nothing but what was cut short.
pub fn words_are_lawful()
    ensures { AreLawfulWords }
{}

/// The same holds of the parts of a program.
pub fn parts_are_lawful()
    ensures { AreLawfulParts }
{}

/// No spelling of a name, a type, a constant or a method begins another one, so each has one spelling.
pub fn no_spelling_begins_another()
    ensures { NoSpellingBeginsAnother }
{}

/// Words and parts of a program as bytes, worked by hand.
pub fn examples_hold()
    ensures { PartExamples }
{}
