// Help on standard error, for words that are no command.

/// The version, as the header of the C library and CHANGELOG.md have it.
pub const VERSION: &str = "0.2.0";

/// What the program can do today.
pub const HELP: &str = "\
Replays calls on W3C WebCodecs codecs, step by step, and writes a report of all that happened.

  wcrun replay FILE    replays the JSON script FILE; the report goes to standard output
                       files of chunks that the script names are looked for in the current folder
  wcrun run FILE --workers N
                       runs it with threads: one for each caller, for events, and for each of N workers, 1 to 16
                       (4 where the option is left out); an order is not followed
  wcrun load START N   runs a script that is drawn from the number START, with N chunks (1 to 5,000) for each of four
                       decoders and with four workers, and tells how many outputs and bytes came, and their sum
  wcrun check SCRIPT REPORT
                       tells whether REPORT is the report of a legal run of the JSON script SCRIPT that follows its
                       order: right, or the line at fault; scripts without an order are not judged yet
  wcrun probe FILE     tells what a WAV file, a native FLAC file or a chunk file holds, in one line

A FILE that begins with - is written ./-NAME.

Status: 0 all was written, 1 the report is wrong, 2 no command, 3 the script or a file of chunks has a fault, 4 a file
could not be read, 5 standard output failed, 6 out of memory, 7 a count is above its limit. Standard error says more of
each fault.

Scripts, chunk files and reports are described in docs/FORMATS.md of Zemirako, with worked scripts in demo/.
";
