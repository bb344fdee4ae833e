//! Command lines.
ghost use Rattle.std.specs.Prelude.{◌≡◌, ℕ, List, map, string_bytes, IfSome, IfNone, IsTrue, ◌↔◌};
ghost use Rattle.swiftx.specs.Commands.{IsFileName, IsStepLimit, IsCommand, Command as CommandLine, default_steps, file_name, greatest_steps};
ghost use Rattle.swiftx.specs.Due.{most_of};
ghost use Rattle.std.specs.Str.{all_ascii_digits};
ghost use Rattle.swiftx.specs.Words.{texts, meaning, IsNamed, IsNamedAlone, IsPlainNumeral};

/// What the words ask for.
#[derive(Clone, Copy, Debug, PartialEq, Eq)]
pub enum Command<'a> {
    /// To refuse the text in a file, or to accept it.
    Check { file: &'a str },
    /// To compile the text in a file, and to run it for at most so many machine steps.
    Run { file: &'a str, steps: u64 },
    /// To load the executable in a file, and to run it for at most so many machine steps.
    Exec { file: &'a str, steps: u64 },
}

/// How many bytes of a source text are read: one more than a text may have.
const MOST_TEXT: usize = 262_145;

/// How many bytes of an executable are read.
const MOST_FILE: usize = 268_435_456;

impl Command<'_> {
    /// The name of the file that the command reads.
    pub fn file(&self) -> &str
        ensures { result.now ≡ file_name (meaning self.now) }
    {
        match self {
            Command::Check { file } => file,
            Command::Run { file, .. } => file,
            Command::Exec { file, .. } => file,
        }
    }

    /// How many bytes of its file the command reads at most.
    #[tactic(auto, unfolding(crate::specs::Due::most_text, crate::specs::Due::most_file))]
    pub fn most_of(&self) -> usize
        ensures { result ≡ most_of (meaning self.now) }
    {
        match self {
            Command::Check { .. } => MOST_TEXT,
            Command::Run { .. } => MOST_TEXT,
            Command::Exec { .. } => MOST_FILE,
        }
    }
}

/// The limit of steps where the words tell none.
pub const DEFAULT_STEPS: u64 = 200_000_000;

/// The greatest limit of steps.
pub const GREATEST_STEPS: u64 = 9_223_372_036_854_775_807;

/// The command of some words, and None exactly where they are no command line.
pub fn command_of(words: &[String]) -> Option<Command<'_>>
    ensures some { IfSome result (λ command. IsCommand (texts words.now) (meaning command)) }
    ensures none { IfNone result ((command : CommandLine) → IsCommand (texts words.now) command → ⊥) }
{
    match words {
        [name, file] => with_name(name, file),
        [name, file, option, number] => {
            if option.as_str() != "--steps" {
                return None;
            }
            match step_limit(number) {
                Some(steps) => with_file(name, file, steps),
                None => None,
            }
        }
        _ => None,
    }
}

// The command of a name and a file, where no limit of steps is told.
fn with_name<'a>(name: &str, file: &'a str) -> Option<Command<'a>>
    ensures some { IfSome result (λ command. IsNamedAlone name.now file.now (meaning command)) }
    ensures none { IfNone result ((command : CommandLine) → IsNamedAlone name.now file.now command → ⊥) }
{
    if name == "check" {
        if is_file_name(file) {
            Some(Command::Check { file })
        } else {
            None
        }
    } else {
        with_file(name, file, DEFAULT_STEPS)
    }
}

// The command of a name, a file and a limit of steps.
fn with_file<'a>(name: &str, file: &'a str, steps: u64) -> Option<Command<'a>>
    ensures some { IfSome result (λ command. IsNamed name.now file.now steps (meaning command)) }
    ensures none { IfNone result ((command : CommandLine) → IsNamed name.now file.now steps command → ⊥) }
{
    if !is_file_name(file) {
        return None;
    }
    if name == "run" {
        Some(Command::Run { file, steps })
    } else if name == "exec" {
        Some(Command::Exec { file, steps })
    } else {
        None
    }
}

fn is_file_name(word: &str) -> bool
    ensures { IsTrue result ↔ IsFileName word.now }
{
    !matches!(word.as_bytes(), [] | [b'-', ..])
}

// The number of a numeral without a leading zero, up to the greatest limit.
fn step_limit(word: &str) -> Option<u64>
    ensures some { IfSome result (λ steps. IsStepLimit word.now steps) }
    ensures none { IfNone result ((steps : ℕ) → IsStepLimit word.now steps → ⊥) }
{
    if !is_numeral(word) {
        return None;
    }
    match word.parse::<u64>() {
        Ok(steps) => {
            if steps <= GREATEST_STEPS {
                Some(steps)
            } else {
                None
            }
        }
        Err(_) => None,
    }
}

// Whether the word is decimal digits without a leading zero.
fn is_numeral(word: &str) -> bool
    ensures { IsTrue result ↔ IsPlainNumeral word.now }
{
    let digits = word.as_bytes();
    if digits.is_empty() || (digits[0] == b'0' && digits.len() > 1) {
        return false;
    }
    is_all_digits(digits)
}

fn is_all_digits(digits: &[u8]) -> bool
    ensures { result ≡ all_ascii_digits digits.now }
{
    for digit in digits {
        if !digit.is_ascii_digit() {
            return false;
        }
    }
    true
}
