use std::fmt;

/// What is wrong with a text at a line. `Display` gives the words that a user is told.
#[derive(Clone, Copy, Debug, PartialEq, Eq)]
pub enum Why {
    /// It has over 1,048,576 bytes.
    TooLong,
    /// The line isn't UTF-8, or has a byte below 32 other than tab, or the byte 127.
    BadByte,
    /// A quote without its end, or without a blank after it.
    BadQuote,
    /// The first word of a line outside a prog, or the word for a file's direction, is none that is known.
    UnknownStatement,
    /// Words are missing or left over.
    WordCount,
    /// The word is no name: 1 to 64 ASCII letters, digits, `_` and `.`, not quoted.
    NotAName,
    /// The name was declared before; also a second `later`.
    Twice,
    /// No earlier line declares the name.
    NotDeclared,
    /// The word is no number below 2^64, or it is quoted.
    NotANumber,
    /// The number is one that can't stand there.
    OutOfRange,
    /// More things of a sort than a text may have.
    TooMany,
    /// No stage has this name.
    UnknownStage,
    /// The stage wants another number of inputs.
    Inputs,
    /// The stage wants another number of outputs.
    Outputs,
    /// A thread before the first proc.
    NoProc,
    /// An earlier stage, or this one, sends on the channel already.
    TwoWriters,
    /// An earlier stage, or this one, receives on the channel already.
    TwoReaders,
    /// An earlier stage, or this one, receives on the channel before its writer stands.
    ReaderFirst,
    /// The stage wants a file of the other direction.
    WrongDirection,
    /// The path or the file is used twice.
    UsedTwice,
    /// The first word of a line in a prog, or a word inside an instruction, is none that is known.
    UnknownInstruction,
    /// `end` without a block, `done` in a block, too many blocks, or a loop whose first line makes no request.
    BadBlock,
    /// A channel of stages has no writer or no reader.
    NoBothEnds,
    /// The text has no thread, or a prog has no `done`.
    NoThread,
}

impl fmt::Display for Why {
    ghost use Rattle.std.specs.Prelude.{Some};
    ghost use Rattle.p9_grammar.specs.Whys.{why_text};

    ghost output = { λ why. Some (why_text why) };

    fn fmt<W: fmt::Write>(&self, f: &mut fmt::Formatter<W>) -> fmt::Result {
        f.write_str(match self {
            Why::TooLong => "text too long",
            Why::BadByte => "bad byte",
            Why::BadQuote => "bad quote",
            Why::UnknownStatement => "unknown statement",
            Why::WordCount => "wrong number of words",
            Why::NotAName => "not a name",
            Why::Twice => "name declared twice",
            Why::NotDeclared => "name not declared",
            Why::NotANumber => "not a number",
            Why::OutOfRange => "number out of range",
            Why::TooMany => "too many",
            Why::UnknownStage => "unknown stage",
            Why::Inputs => "wrong number of inputs",
            Why::Outputs => "wrong number of outputs",
            Why::NoProc => "no proc yet",
            Why::TwoWriters => "channel has two writers",
            Why::TwoReaders => "channel has two readers",
            Why::ReaderFirst => "reader before writer",
            Why::WrongDirection => "file of the wrong direction",
            Why::UsedTwice => "path or file used twice",
            Why::UnknownInstruction => "unknown instruction",
            Why::BadBlock => "bad block",
            Why::NoBothEnds => "channel without both ends",
            Why::NoThread => "no thread",
        })
    }
}
