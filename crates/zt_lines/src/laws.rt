//! What is written of a transcript's lines is read as these lines, and what is read as lines is what is written of them.
//! Each function does nothing, and its contract is the law: only what a contract names is proved.

ghost use Rattle.zt_lines.specs.Laws.{AReadLineIsWritten, AReadTranscriptIsWritten, AWrittenLineIsRead, CutTranscriptIsRead, DoneTranscriptIsRead, RefusedTranscriptIsRead, UnreadTranscriptIsRead};

/// A line whose fields are in range and whose text is not too long is read as itself, from the text without its line feed.
pub fn a_written_line_is_read()
    ensures { AWrittenLineIsRead }
{}

/// Bytes that are read as a line are the text of that line: its fields are in range, and its text is not too long. So no two texts
/// are read as one line.
pub fn a_read_line_is_written()
    ensures { AReadLineIsWritten }
{}

/// The text of such lines, of at most 100,000,000 bytes, is read as these lines and no others: where nothing follows them, where
/// `done` does, and where the fault of a line of the script does, which was not possible or could not be read.
pub fn a_written_transcript_is_read()
    ensures cut { CutTranscriptIsRead }
    ensures done { DoneTranscriptIsRead }
    ensures refused { RefusedTranscriptIsRead }
    ensures unread { UnreadTranscriptIsRead }
{}

/// A text that is read to its end has at most 100,000,000 bytes and is the text of the lines that it is read as, each with its fields
/// in range and not too long. `done`, a fault of the script or nothing follows the lines, and the last line feed may be missing.
pub fn a_read_transcript_is_written()
    ensures { AReadTranscriptIsWritten }
{}
