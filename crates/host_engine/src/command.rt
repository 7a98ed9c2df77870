//! The words of the command line.
#![tactic(auto)]

ghost use Rattle.std.specs.Prelude.{◌≡◌, ◌<◌, map, length, string_bytes};
ghost use Rattle.std.specs.Option.{option_map};
ghost use Rattle.host_engine.specs.Words.{word, command_of, alone, named};
ghost use Rattle.host_engine.specs.Views.{asked};

use uh_base::decimal_number;

/// What is asked for.
#[derive(Clone, Copy, Drop)]
pub enum Command<'a> {
    /// The text that explains the program.
    Help,
    /// The text of its version.
    Version,
    /// A run of a file's bytes, of at most `bound` steps.
    Flat { name: &'a str, bound: u64 },
    /// The image of an assembly text's file.
    Build { name: &'a str },
    /// What an image file holds.
    Image { name: &'a str },
    /// The instructions of an image file.
    Listing { name: &'a str },
    /// The run of a script's file.
    Run { script: &'a str },
}

fn word_at(words: &[String], i: usize) -> &str
    requires { i < length words.now }
    ensures { result.now ≡ word (map string_bytes words.now) i }
{
    words[i].as_str()
}

/// What one word asks for.
fn alone(word: &str) -> Option<Command<'_>>
    ensures { option_map asked result ≡ alone word.now }
{
    if word == "--help" {
        Some(Command::Help)
    } else if word == "--version" {
        Some(Command::Version)
    } else {
        None
    }
}

/// What a command with one word more asks for.
fn named<'a>(command: &str, name: &'a str) -> Option<Command<'a>>
    ensures { option_map asked result ≡ named command.now name.now }
{
    if command == "run" {
        Some(Command::Run { script: name })
    } else if command == "build" {
        Some(Command::Build { name })
    } else if command == "image" {
        Some(Command::Image { name })
    } else if command == "list" {
        Some(Command::Listing { name })
    } else {
        None
    }
}

/// What the words ask for, if they have a form.
#[tactic(auto, unfolding(crate::specs::Words::command_of))]
pub fn read_words(words: &[String]) -> Option<Command<'_>>
    ensures { option_map asked result ≡ command_of (map string_bytes words.now) }
{
    if words.len() == 1 {
        return alone(word_at(words, 0));
    }
    if words.len() == 2 {
        return named(word_at(words, 0), word_at(words, 1));
    }
    if words.len() != 3 || word_at(words, 0) != "flat" {
        return None;
    }
    match decimal_number(word_at(words, 2)) {
        Some(bound) if bound >= 1 && bound <= 50_000_000 => Some(Command::Flat {
            name: word_at(words, 1),
            bound,
        }),
        _ => None,
    }
}
