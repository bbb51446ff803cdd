// What is written as a line is read again, and what is read fits the script.
ghost use Rattle.report_lines.specs.Laws.{LineAgain, LineSound, LineFits, LineIsOne};

/// Laws: a line that fits the script is read again, whatever stands behind it; what is read stands in front, as it is
/// written; and the text of such a line ends with its only line feed.
pub fn lines_are_read_again()
    ensures again { LineAgain }
    ensures sound { LineSound }
    ensures one { LineIsOne }
{}

/// Law: each line that is read fits the script: its numbers are within their types, its callers and codecs are there, its
/// bytes are bytes, and a config's codec has no blank and no line feed.
pub fn lines_that_are_read_fit()
    ensures { LineFits }
{}
