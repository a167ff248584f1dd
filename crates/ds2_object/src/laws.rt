//! Laws of object files.
ghost use Rattle.ds2_object.specs.ObjectExamples.{ObjectExamples};
ghost use Rattle.ds2_object.specs.ObjectSpelling.{ReadsWhatIsSpelled, SpellsWhatIsRead, NoObjectBeginsAnother, EachCutIsTruncated, DecodesWhatIsEncoded, EncodesWhatIsDecoded};

/// What an object is spelled with is read as that object.
pub fn spelling_is_read()
    ensures { ReadsWhatIsSpelled }
{}

/// What is read of a file is spelled there, each byte of it.
pub fn what_is_read_is_spelled()
    ensures { SpellsWhatIsRead }
{}

/// One object has one spelling, and no spelling begins another one.
pub fn no_object_begins_another()
    ensures { NoObjectBeginsAnother }
{}

/// A spelling that is cut anywhere is Truncated.
pub fn each_cut_is_truncated()
    ensures { EachCutIsTruncated }
{}

/// The spelling of valid programs is decoded as these programs.
pub fn what_is_encoded_is_decoded()
    ensures { DecodesWhatIsEncoded }
{}

/// Bytes that are decoded are the spelling of what they are decoded as.
pub fn what_is_decoded_is_encoded()
    ensures { EncodesWhatIsDecoded }
{}

/// Small object files, byte by byte.
pub fn examples_hold()
    ensures { ObjectExamples }
{}
