use p9_word::{Answer, IoAnswer, IoCall, Msg, Reply};
use std::alloc::{AllocError, Global};

/// A reply as a text.
pub(crate) fn reply_text(alloc: Global, reply: &Reply) -> Result<String, AllocError> {
    match reply {
        Reply::Now(answer) => after(alloc, "now", answer_text(alloc, answer)?),
        Reply::Waits => String::from_str(alloc, "waits"),
        Reply::Ended => String::from_str(alloc, "ended"),
        Reply::Begin(t, program, arg) => {
            format!(in alloc; "begin {t} program {program} arg {arg}")
        }
        Reply::Turn(t, answer) => {
            let answer = answer_text(alloc, answer)?;
            format!(in alloc; "turn {t} {answer}")
        }
        Reply::Caught(id) => format!(in alloc; "caught {id}"),
        Reply::Died(note) => after(alloc, "died", quoted(alloc, note)?),
        Reply::Idle => String::from_str(alloc, "idle"),
        Reply::Over => String::from_str(alloc, "over"),
        Reply::Stuck => String::from_str(alloc, "stuck"),
        Reply::Halted => String::from_str(alloc, "halted"),
        Reply::Stray => String::from_str(alloc, "stray"),
        Reply::Took(call) => after(alloc, "took", call_text(alloc, call)?),
        Reply::Noted => String::from_str(alloc, "noted"),
    }
}

fn after(alloc: Global, word: &str, text: String) -> Result<String, AllocError> {
    format!(in alloc; "{word} {text}")
}

fn answer_text(alloc: Global, answer: &Answer) -> Result<String, AllocError> {
    match answer {
        Answer::Done => String::from_str(alloc, "done"),
        Answer::Sent => String::from_str(alloc, "sent"),
        Answer::Got { from, msg } => {
            let bytes = quoted(alloc, msg)?;
            format!(in alloc; "got {bytes} from {from}")
        }
        Answer::Index { err, i, from, msg } => index_text(alloc, *err, *i, *from, msg),
        Answer::NoBlock => String::from_str(alloc, "noblock"),
        Answer::Closed => String::from_str(alloc, "closed"),
        Answer::Interrupted => String::from_str(alloc, "interrupted"),
        Answer::Number(n) => format!(in alloc; "number {n}"),
        Answer::Minus => String::from_str(alloc, "minus"),
        Answer::Text(text) => after(alloc, "text", quoted(alloc, text)?),
        Answer::Met(value) => format!(in alloc; "met {value}"),
        Answer::Io(answer) => after(alloc, "io", io_text(alloc, answer)?),
        Answer::Bad => String::from_str(alloc, "bad"),
    }
}

/// The entry that went on: `err` where its channel is closed, and what it received, if it did.
fn index_text(
    alloc: Global,
    err: bool,
    i: u32,
    from: Option<u64>,
    msg: &Msg,
) -> Result<String, AllocError> {
    let word = if err { "index err" } else { "index" };
    let Some(from) = from else {
        return format!(in alloc; "{word} {i}");
    };
    let bytes = quoted(alloc, msg)?;
    format!(in alloc; "{word} {i} got {bytes} from {from}")
}

fn io_text(alloc: Global, answer: &IoAnswer) -> Result<String, AllocError> {
    match answer {
        IoAnswer::Opened => String::from_str(alloc, "opened"),
        IoAnswer::Shut => String::from_str(alloc, "shut"),
        IoAnswer::Bytes(bytes) => after(alloc, "bytes", quoted(alloc, bytes)?),
        IoAnswer::Count(n) => format!(in alloc; "count {n}"),
        IoAnswer::Fault => String::from_str(alloc, "fault"),
        IoAnswer::Refused => String::from_str(alloc, "refused"),
    }
}

fn call_text(alloc: Global, call: &IoCall) -> Result<String, AllocError> {
    match call {
        IoCall::IoOpen => String::from_str(alloc, "open"),
        IoCall::IoRead(n) => format!(in alloc; "read {n}"),
        IoCall::IoReadN(n) => format!(in alloc; "readn {n}"),
        IoCall::IoWrite(bytes) => after(alloc, "write", quoted(alloc, bytes)?),
        IoCall::IoClose => String::from_str(alloc, "close"),
        IoCall::IoOwn(code, bytes) => {
            let bytes = quoted(alloc, bytes)?;
            format!(in alloc; "own {code} {bytes}")
        }
    }
}

/// Bytes between single quotes. One that is no printable character of ASCII is written as `\x` and two digits.
fn quoted(alloc: Global, bytes: &Msg) -> Result<String, AllocError> {
    let mut text = String::from_str(alloc, "'")?;
    for byte in bytes.as_slice() {
        put_byte(&mut text, *byte)?;
    }
    text.push('\'')?;
    Ok(text)
}

fn put_byte(text: &mut String, byte: u8) -> Result<(), AllocError> {
    let is_plain = byte == b' ' || byte.is_ascii_graphic();
    if is_plain && byte != b'\'' && byte != b'\\' {
        text.push(char::from(byte))
    } else {
        write!(text, "\\x{byte:02x}")
    }
}
