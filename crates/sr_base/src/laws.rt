//! Three laws of the spellings. Each is the contract of a function that does nothing.

ghost use Rattle.std.specs.Prelude.{◌<◌, ◌^◌};
ghost use Rattle.std.specs.Int.{w32, w64, to_be_bytes};
ghost use Rattle.sr_base.specs.Fields.{name_at, name_spelling, IsName, bytes_spelling, IsText};
ghost use Rattle.sr_base.specs.Reading.{number_at, text_at, value_at};
ghost use Rattle.sr_base.specs.Inner.Laws.{ReadsSpellings, ReadsAgain, BeginsNoOther};
ghost use Rattle.sr_base.specs.Values.{value_spelling, IsValue, row_spelling};
ghost use Rattle.sr_base.specs.Inner.Values.{row_at, IsRow};

/// What is read is spelled so, each byte of it.
pub fn what_is_read_is_spelled_so()
    ensures values { ReadsSpellings value_at value_spelling IsValue }
    ensures rows { ReadsSpellings row_at row_spelling IsRow }
    ensures names { ReadsSpellings name_at name_spelling IsName }
    ensures texts { ReadsSpellings text_at bytes_spelling IsText }
    ensures numbers32 { ReadsSpellings (number_at w32) (to_be_bytes w32) (λ n. n < 2 ^ 32) }
    ensures numbers64 { ReadsSpellings (number_at w64) (to_be_bytes w64) (λ n. n < 2 ^ 64) }
{}

/// What is spelled is read, whatever follows it: what was written is read again.
pub fn what_is_spelled_is_read()
    ensures values { ReadsAgain value_at value_spelling IsValue }
    ensures rows { ReadsAgain row_at row_spelling IsRow }
    ensures names { ReadsAgain name_at name_spelling IsName }
    ensures texts { ReadsAgain text_at bytes_spelling IsText }
    ensures numbers32 { ReadsAgain (number_at w32) (to_be_bytes w32) (λ n. n < 2 ^ 32) }
    ensures numbers64 { ReadsAgain (number_at w64) (to_be_bytes w64) (λ n. n < 2 ^ 64) }
{}

/// No spelling begins another one: where two of them begin the same bytes, the values are equal, and so is what follows.
pub fn no_spelling_begins_another()
    ensures values { BeginsNoOther value_spelling IsValue }
    ensures rows { BeginsNoOther row_spelling IsRow }
    ensures names { BeginsNoOther name_spelling IsName }
    ensures texts { BeginsNoOther bytes_spelling IsText }
    ensures numbers32 { BeginsNoOther (to_be_bytes w32) (λ n. n < 2 ^ 32) }
    ensures numbers64 { BeginsNoOther (to_be_bytes w64) (λ n. n < 2 ^ 64) }
{}
