ghost use Rattle.std.specs.Prelude.{◌≡◌, map, string_bytes};
ghost use Rattle.std.specs.Option.{option_copied};
ghost use Rattle.p9_run.specs.CommandLine.{command, is_option};

fn is_option(word: &str) -> bool
    ensures { result ≡ is_option word.now }
{
    matches!(word.as_bytes(), [b'-', ..])
}

/// The FILE of a command `run FILE`. Every other list of words is no command, and gives `None`.
pub(crate) fn command(words: &Vec<String>) -> Option<&str>
    ensures { option_copied result ≡ command (map string_bytes words.now.items) }
{
    match words.as_slice() {
        [word, file] if word.as_str() == "run" && !is_option(file.as_str()) => Some(file.as_str()),
        _ => None,
    }
}
