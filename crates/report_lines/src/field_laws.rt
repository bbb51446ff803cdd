// What is written as a field is read again, whatever stands behind it, and what is read is within its type.
ghost use Rattle.report_lines.specs.FieldLaws.{BytesBeforeAMark, PrefixAgain, PrefixOnly, WordAgain, NumberAgain, ShortAgain, SignedAgain, NumberOrDashAgain, BytesAgain, BytesLackTheMark, NumberFits, ShortFits, SignedFits, NumberOrDashFits, BytesFit};

/// Laws: bytes without the mark are read again up to it; a prefix comes off, and only where it stands; and a word is read
/// again with the byte that ends it.
pub fn words_are_read_again()
    ensures upto { BytesBeforeAMark }
    ensures after { PrefixAgain }
    ensures after_only { PrefixOnly }
    ensures word { WordAgain }
{}

/// Laws: a number in decimal is read again up to a mark that is no digit, and so is `-`.
pub fn numbers_are_read_again()
    ensures number { NumberAgain }
    ensures short { ShortAgain }
    ensures signed { SignedAgain }
    ensures number_or_dash { NumberOrDashAgain }
{}

/// A law: bytes in lower case hex, or `-` for none, are read again up to a mark that is no digit of hex.
pub fn bytes_are_read_again()
    ensures { BytesAgain }
{}

/// Laws: bytes that are read up to a mark lack it, a number that is read is within its type, and bytes that are read are
/// bytes.
pub fn fields_that_are_read_fit()
    ensures upto { BytesLackTheMark }
    ensures number { NumberFits }
    ensures short { ShortFits }
    ensures signed { SignedFits }
    ensures number_or_dash { NumberOrDashFits }
    ensures bytes { BytesFit }
{}
