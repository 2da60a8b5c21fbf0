//! The published layout: definitions and their laws. There is no code type
//! here: each function owns a theorem about the definitions of specs/.
#![tactic(auto)]

ghost use Rattle.std.specs.Prelude.{◌≡◌};
ghost use Rattle.layout.specs.Decode.{DecodeAsks, DecodeBack, DecodeMeans};
ghost use Rattle.layout.specs.Enumerations.{EnumerationsCoded};
ghost use Rattle.layout.specs.Examples.{Examples};
ghost use Rattle.layout.specs.Fields.{FieldsStand, size};
ghost use Rattle.layout.specs.Items.{ItemsRead};
ghost use Rattle.layout.specs.KeyCodes.{key_code, KeyCodesStand};
ghost use Rattle.layout.specs.Kinds.{KindsNamed};
ghost use Rattle.layout.specs.Laws.{BoundNeverDecides, BoxesSpan, DecodeGood, DecodeNumbers, FloatsOne, GoodKind, PutNumbers, PutTakes, ReadWritesBack, RecordsStand, Sizes, ValuesReadBack, WordsRead};
ghost use Rattle.layout.specs.Names.{NamesOrdered};
ghost use Rattle.layout.specs.Numbers.{NumbersAsBytes};
ghost use Rattle.layout.specs.Puts.{PutAsks, PutExact, PutGood};
ghost use Rattle.layout.specs.Records.{RecordsAsk};
ghost use Rattle.layout.specs.Refusals.{KindsKeep, PutRefusals, Refusals};
ghost use Rattle.layout.specs.TimeCodes.{TimeCodesPacked, TimeCodesReadBack};

/// Numbers have their bytes lowest first, and read back from them.
pub fn numbers_are_bytes()
    ensures { NumbersAsBytes }
{}

/// Fields of fixed width are read exactly where they stand, and what is
/// written for them is their layout.
pub fn fields_stand()
    ensures { FieldsStand }
{}

/// A key code has 28 bytes, and is carried from bytes to numbers and from
/// numbers to bytes without a loss.
pub fn key_codes_stand()
    ensures { KeyCodesStand }
{}

/// How many bytes a key code has.
pub fn key_code_size() -> usize
    ensures { result ≡ size key_code }
{
    28usize
}

/// The order of names is total: the first byte that differs decides, and a
/// name precedes its extensions.
pub fn names_are_ordered()
    ensures { NamesOrdered }
{}

/// Each case of an enumeration stands at its code.
pub fn enumerations_are_coded()
    ensures { EnumerationsCoded }
{}

/// A name has at most one kind, and each of the 24 is found by its name.
pub fn kinds_are_named()
    ensures { KindsNamed }
{}

/// A time code that is packed is unpacked as it was, and has each digit at
/// its bit place.
pub fn time_codes_read_back()
    ensures { TimeCodesReadBack × TimeCodesPacked }
{}

/// A value is read exactly where the bytes mean it by the layout.
pub fn decode_means()
    ensures { DecodeMeans }
{}

/// A refusal names the first question answered no.
pub fn decode_asks()
    ensures { DecodeAsks }
{}

/// What is written for a form is read back as it, with surplus bytes behind
/// it where it has a last field.
pub fn decode_back()
    ensures { DecodeBack }
{}

/// For every kind, what is written for a value that passes its questions reads
/// back as its loaded form; a value that was read and is taken for writing
/// reads back the same; and the bound on the number of texts and channels
/// never decides.
pub fn values_read_back()
    ensures { ValuesReadBack × ReadWritesBack × BoundNeverDecides }
{}

/// What a value to be written is refused for is its first question answered
/// no.
pub fn put_asks()
    ensures { PutAsks }
{}

/// A value that passes loads as a form that a header can hold, and as itself
/// but for three exceptions.
pub fn put_loads()
    ensures { PutGood × PutExact }
{}

/// A record has its length, is read back from any source, and is asked about
/// name first; what is read next in a source is exactly what stands there.
pub fn records_stand()
    ensures { RecordsStand × RecordsAsk × ItemsRead }
{}

/// The worked examples.
pub fn examples_hold()
    ensures { Examples }
{}

/// What a load makes of a value, a header can hold; and every form that a
/// header can hold is put and loads as itself.
pub fn forms_are_good()
    ensures { DecodeGood × GoodKind × PutTakes }
{}

/// The numbers that the questions on values have.
pub fn numbers_are_listed()
    ensures { PutNumbers × DecodeNumbers }
{}

/// Words, floats, boxes and sizes once more, in other words.
pub fn words_and_floats()
    ensures { WordsRead × FloatsOne × BoxesSpan × Sizes }
{}

/// Bytes and values that are refused, by number, and some that are just
/// taken.
pub fn refusals_hold()
    ensures { Refusals × PutRefusals × KindsKeep }
{}
