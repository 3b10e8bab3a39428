ghost use Rattle.std.specs.Prelude.{◌≡◌, ◌≤◌, ◌<◌, ◌^◌, ◌+◌, ℕ, IfSome, map, length, true};
ghost use Rattle.std.specs.List.{list_all};
ghost use Rattle.std.specs.Char.{is_ascii_digit};
ghost use Rattle.std.specs.Str.Parse.{digits_value};
ghost use Rattle.dhis_main.specs.Words.{query_words, session_words, generate_words, serve_words, after_workers, command_of, serving_of};
ghost use Rattle.dhis_main.specs.Words.{begins_with_zero, is_plain_number, count_of, IsFit, is_word, flag_of};

/// A command of the command line.
#[derive(Clone, Copy, Drop)]
pub enum Command {
    Help,
    Version,
    /// The second word is the user, the third the query.
    Query,
    /// The second word is the name of the metadata file.
    Session,
    /// So many values are generated, from 1 to 200000.
    Generate(u32),
    /// The second word is the name of the metadata file, the third the address. So many workers, from 1 to 16, serve so many
    /// connections, from 1 to 1000000.
    Serve { workers: u32, connections: u32 },
    /// The word at this place, from 1, doesn't fit, is missing or is one too many.
    Bad(usize),
}

// The most values that are generated.
const MOST_VALUES: u32 = 200_000;

// The most workers that serve connections.
const MOST_WORKERS: u32 = 16;

// The most connections that are served.
const MOST_CONNECTIONS: u32 = 1_000_000;

fn has_digits(word: &[u8]) -> bool
    ensures { result ≡ list_all is_ascii_digit word.now }
{
    for byte in word {
        if !byte.is_ascii_digit() {
            return false;
        }
    }
    true
}

fn begins_with_zero(word: &[u8]) -> bool
    ensures { result ≡ begins_with_zero word.now }
{
    match word {
        [] => false,
        [first, ..] => *first == b'0',
    }
}

// 1 to 7 digits, the first of them not 0.
#[tactic(auto, unfolding(crate::specs::Words::is_plain_number))]
fn is_plain_number(word: &[u8]) -> bool
    ensures value { result ≡ is_plain_number word.now }
    ensures digits { result ≡ true → list_all is_ascii_digit word.now ≡ true }
    ensures short { result ≡ true → length word.now ≤ 7 }
{
    0 < word.len() && (word.len() <= 7 && (has_digits(word) && !begins_with_zero(word)))
}

fn digits_value(word: &[u8]) -> u32
    requires digits { list_all is_ascii_digit word.now ≡ true }
    requires short { length word.now ≤ 7 }
    ensures value { result ≡ digits_value 10 word.now }
    ensures bound { result < 10 ^ length word.now }
{
    let mut value = 0;
    for byte in word {
        value = value * 10 + u32::from(*byte - b'0');
    }
    value
}

// A number from 1 to the most.
#[tactic(auto, unfolding(crate::specs::Words::count_of))]
fn count_of(most: u32, word: &[u8]) -> Option<u32>
    ensures value { result ≡ count_of most word.now }
    ensures some { IfSome result (λ n. 0 < n) }
    ensures few { IfSome result (λ n. n ≤ most) }
{
    if !is_plain_number(word) {
        return None;
    }
    let count = digits_value(word);
    if 0 < count && count <= most {
        Some(count)
    } else {
        None
    }
}

fn query_words(words: &[&str]) -> Command
    ensures command { result ≡ query_words (map (λ word. word.now) words.now) }
    ensures fits { IsFit result (length words.now + 1) }
{
    match words {
        [] => Command::Bad(2),
        [_] => Command::Bad(3),
        [_, query] => {
            if query.len() <= 16384 {
                Command::Query
            } else {
                Command::Bad(3)
            }
        }
        [_, query, ..] => {
            if query.len() <= 16384 {
                Command::Bad(4)
            } else {
                Command::Bad(3)
            }
        }
    }
}

fn session_words(words: &[&str]) -> Command
    ensures command { result ≡ session_words (map (λ word. word.now) words.now) }
    ensures fits { IsFit result (length words.now + 1) }
{
    match words {
        [] => Command::Bad(2),
        [_] => Command::Session,
        [_, ..] => Command::Bad(3),
    }
}

fn generate_words(words: &[&str]) -> Command
    ensures command { result ≡ generate_words (map (λ word. word.now) words.now) }
    ensures fits { IsFit result (length words.now + 1) }
{
    match words {
        [] => Command::Bad(2),
        [count] => match count_of(MOST_VALUES, count.as_bytes()) {
            Some(count) => Command::Generate(count),
            None => Command::Bad(2),
        },
        [count, ..] => match count_of(MOST_VALUES, count.as_bytes()) {
            Some(_) => Command::Bad(3),
            None => Command::Bad(2),
        },
    }
}

// The command for so many workers, if the word is a number, by the words after it.
fn after_workers(workers: Option<u32>, rest: &[&str]) -> Command
    requires some { IfSome workers (λ n. 0 < n) }
    ensures command { result ≡ after_workers workers (map (λ word. word.now) rest.now) }
    ensures fits { IsFit result (length rest.now + 4) }
{
    let Some(workers) = workers else {
        return Command::Bad(4);
    };
    match rest {
        [] => Command::Bad(5),
        [connections, rest @ ..] => match (
            count_of(MOST_CONNECTIONS, connections.as_bytes()),
            rest,
        ) {
            (None, _) => Command::Bad(5),
            (Some(connections), []) => Command::Serve {
                workers,
                connections,
            },
            (Some(_), [_, ..]) => Command::Bad(6),
        },
    }
}

fn serve_words(words: &[&str]) -> Command
    ensures command { result ≡ serve_words (map (λ word. word.now) words.now) }
    ensures fits { IsFit result (length words.now + 1) }
{
    match words {
        [] => Command::Bad(2),
        [_] => Command::Bad(3),
        [_, _] => Command::Bad(4),
        [_, _, workers, rest @ ..] => {
            after_workers(count_of(MOST_WORKERS, workers.as_bytes()), rest)
        }
    }
}

/// Reads the words of the command line, after the program's name.
#[tactic(auto, unfolding(crate::specs::Words::command_of))]
pub fn read_words(words: &[&str]) -> Command
    ensures command { result ≡ command_of (map (λ word. word.now) words.now) }
    ensures fits { IsFit result (length words.now) }
{
    match words {
        [] => Command::Bad(1),
        [first, rest @ ..] => {
            if is_word(first, "query") {
                query_words(rest)
            } else if is_word(first, "session") {
                session_words(rest)
            } else if is_word(first, "generate") {
                generate_words(rest)
            } else if is_word(first, "serve") {
                serve_words(rest)
            } else {
                flag(first, rest)
            }
        }
    }
}

fn is_word(word: &str, expected: &str) -> bool
    ensures { result ≡ is_word word.now expected.now }
{
    word == expected
}

// The command of a word that stands alone.
fn flag(first: &str, rest: &[&str]) -> Command
    ensures command { result ≡ flag_of first.now (map (λ word. word.now) rest.now) }
    ensures fits { (words : ℕ) → IsFit result words }
{
    if is_word(first, "--help") && rest.is_empty() {
        Command::Help
    } else if is_word(first, "--version") && rest.is_empty() {
        Command::Version
    } else {
        Command::Bad(1)
    }
}

/// How many workers and connections a server is asked for, if one is.
pub fn serving(words: &[&str]) -> Option<(u32, u32)>
    ensures value { result ≡ serving_of (command_of (map (λ word. word.now) words.now)) }
    ensures fits { IfSome result (λ numbers. (length words.now ≡ 5) × (0 < numbers.0)) }
{
    match read_words(words) {
        Command::Serve {
            workers,
            connections,
        } => Some((workers, connections)),
        Command::Help => None,
        Command::Version => None,
        Command::Query => None,
        Command::Session => None,
        Command::Generate(_) => None,
        Command::Bad(_) => None,
    }
}
