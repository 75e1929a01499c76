//! Laws of inputs and answers. The functions compute nothing: their contracts are the laws.

ghost use Rattle.iiif_http_front.specs.Laws.{BeginsWithOneCall, AnswersEachCall, PlainFieldsAreTested, WrittenHeadReadsBack};

/// States that the input determines its first call, and the bytes behind it.
pub fn input_begins_with_one_call()
    ensures { BeginsWithOneCall }
{}

/// States that each call of an input is returned: none is skipped or refused.
pub fn each_call_is_answered()
    ensures { AnswersEachCall }
{}

/// States that a parser reads back the fields that were written, if they hold no control byte: none is split, and no body is taken for a
/// field.
pub fn written_head_reads_back()
    ensures { WrittenHeadReadsBack }
{}

/// States that plain fields can be tested for.
pub fn plain_fields_are_tested()
    ensures { PlainFieldsAreTested }
{}
