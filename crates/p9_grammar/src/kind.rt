use p9_word::Msg;

/// What a stage does with the messages that it receives.
#[derive(Drop)]
pub enum Kind {
    /// Reads the file with this number, in blocks.
    Read(u32),
    /// Writes the file with this number.
    Write(u32),
    /// Cuts the joined messages after each newline.
    Lines,
    /// Cuts the joined messages into blocks of this many bytes, 1 to 65,536.
    Blocks(u32),
    /// Keeps the messages that contain these bytes.
    Keep(Msg),
    /// Keeps those that don't.
    Drop(Msg),
    /// Puts its number and a tab before each message.
    Number,
    /// Counts messages and bytes.
    Count,
    /// Keeps the first messages: this many, 0 to 1,000,000,000.
    First(u32),
    /// Keeps the last messages: this many, 0 to 1,000,000,000.
    Last(u32),
    /// Leaves out messages that are equal to the one before.
    Uniq,
    /// Keeps the field with this number, 1 to 1,000,000, of each message.
    Field(u32),
    /// Turns the order round.
    Reverse,
    /// Sorts the messages by their bytes.
    Sort,
    /// Sends each message to both outputs.
    Tee,
    /// All of the first input, then all of the second.
    Cat,
    /// Joins the messages of both inputs two by two.
    Zip,
    /// Sends to both outputs in turn.
    Deal,
    /// Takes from whichever input has a message.
    Merge,
}
