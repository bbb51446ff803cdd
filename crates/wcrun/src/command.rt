// The words of the command line.
ghost use Rattle.std.specs.Prelude.{◌≡◌, ◌≤◌, IfSome, option_map};
ghost use Rattle.wcrun.specs.Words.{words_of, is_dashed, command, command_on, command_of, IsInRange, NamesReport};
ghost use Rattle.load_script.specs.Words.{load_of as load_words};
ghost use Rattle.wcrun.specs.Words as spec;

use load_script::{Load, load_of};

/// How a script is run.
#[derive(Clone, Copy, Debug, PartialEq, Eq)]
pub enum Mode {
    /// On one thread, item after item of its order.
    InOrder,
    /// With a thread for each caller, for a turner and for each of so many workers.
    Threads(u32),
}

/// What is to be done, mostly with a file.
#[derive(Clone, Copy, Debug, PartialEq, Eq)]
pub enum Verb {
    /// The script in it is run.
    Run(Mode),
    /// What it holds as a media file is told.
    Probe,
    /// A load is run; it names no file.
    Load(Load),
    /// A report of the script in it is judged.
    Check,
}

fn starts_with_dash(word: &str) -> bool
    ensures { result ≡ is_dashed word.now }
{
    match word.as_bytes() {
        [] => false,
        [first, ..] => *first == b'-',
    }
}

// What is to be done with a file of which the words say no more.
fn verb_of(word: &str) -> Option<Verb>
    ensures told { result ≡ spec.verb_of word.now }
    ensures few { IfSome result IsInRange }
{
    match word {
        "replay" => Some(Verb::Run(Mode::InOrder)),
        "run" => Some(Verb::Run(Mode::Threads(4))),
        "probe" => Some(Verb::Probe),
        _ => None,
    }
}

// A number of workers: plain digits, from 1 to 16.
#[tactic(auto, unfolding(crate::specs::Words::workers_of))]
fn workers_of(word: &str) -> Option<u32>
    ensures told { result ≡ spec.workers_of word.now }
    ensures few { IfSome result (λ n. (1 ≤ n) × (n ≤ 16)) }
{
    match word {
        "1" => Some(1),
        "2" => Some(2),
        "3" => Some(3),
        "4" => Some(4),
        "5" => Some(5),
        "6" => Some(6),
        "7" => Some(7),
        "8" => Some(8),
        "9" => Some(9),
        "10" => Some(10),
        "11" => Some(11),
        "12" => Some(12),
        "13" => Some(13),
        "14" => Some(14),
        "15" => Some(15),
        "16" => Some(16),
        _ => None,
    }
}

// The number of workers in the option's one word.
#[tactic(auto, unfolding(crate::specs::Words::option_of))]
fn option_of(word: &str) -> Option<u32>
    ensures told { result ≡ spec.option_of word.now }
    ensures few { IfSome result (λ n. (1 ≤ n) × (n ≤ 16)) }
{
    match word {
        "--workers=1" => Some(1),
        "--workers=2" => Some(2),
        "--workers=3" => Some(3),
        "--workers=4" => Some(4),
        "--workers=5" => Some(5),
        "--workers=6" => Some(6),
        "--workers=7" => Some(7),
        "--workers=8" => Some(8),
        "--workers=9" => Some(9),
        "--workers=10" => Some(10),
        "--workers=11" => Some(11),
        "--workers=12" => Some(12),
        "--workers=13" => Some(13),
        "--workers=14" => Some(14),
        "--workers=15" => Some(15),
        "--workers=16" => Some(16),
        _ => None,
    }
}

// Whether this is the word of a run with threads, or of its option.
fn is_word(word: &str, wanted: &str) -> bool
    ensures { result ≡ spec.is_word word.now wanted.now }
{
    word == wanted
}

// A command on a file, unless that word begins with a dash.
fn on_file(file: &str, verb: Option<Verb>) -> Option<(Verb, &str)>
    requires { IfSome verb IsInRange }
    ensures told { option_map (λ c. command c.0 c.1.now) result ≡ spec.on_file file.now verb }
    ensures few { IfSome result (λ c. IsInRange c.0) }
{
    if starts_with_dash(file) {
        return None;
    }
    match verb {
        Some(verb) => Some((verb, file)),
        None => None,
    }
}

fn threads(workers: Option<u32>) -> Option<Verb>
    requires { IfSome workers (λ n. (1 ≤ n) × (n ≤ 16)) }
    ensures told { result ≡ option_map spec.threads workers }
    ensures few { IfSome result IsInRange }
{
    match workers {
        Some(workers) => Some(Verb::Run(Mode::Threads(workers))),
        None => None,
    }
}

// A run of a file with the option as one word, in any order.
#[tactic(auto, unfolding(crate::specs::Words::with_one))]
fn with_one<'a>(first: &'a str, second: &'a str) -> Option<(Verb, &'a str)>
    ensures told { option_map (λ c. command c.0 c.1.now) result ≡ spec.with_one first.now second.now }
    ensures few { IfSome result (λ c. IsInRange c.0) }
{
    if starts_with_dash(first) {
        on_file(second, threads(option_of(first)))
    } else {
        on_file(first, threads(option_of(second)))
    }
}

// A run of a file with the option as two words, in any order.
#[tactic(auto, unfolding(crate::specs::Words::with_two))]
fn with_two<'a>(first: &'a str, second: &'a str, third: &'a str) -> Option<(Verb, &'a str)>
    ensures told { option_map (λ c. command c.0 c.1.now) result
        ≡ spec.with_two first.now second.now third.now }
    ensures few { IfSome result (λ c. IsInRange c.0) }
{
    if is_word(first, "--workers") {
        on_file(third, threads(workers_of(second)))
    } else if is_word(second, "--workers") {
        on_file(first, threads(workers_of(third)))
    } else {
        None
    }
}

// A load of these two words.
fn load_command<'a>(start: &'a str, chunks: &'a str) -> Option<(Verb, &'a str)>
    ensures told { option_map (λ c. command c.0 c.1.now) result
        ≡ spec.load_command (load_words start.now chunks.now) }
    ensures few { IfSome result (λ c. IsInRange c.0) }
{
    match load_of(start, chunks) {
        Some(load) => Some((Verb::Load(load), "")),
        None => None,
    }
}

// A command that names no report.
fn alone(named: Option<(Verb, &str)>) -> Option<(Verb, &str, &str)>
    requires { IfSome named (λ c. IsInRange c.0) }
    ensures told { option_map (λ c. command_on c.0 c.1.now c.2.now) result
        ≡ option_map (λ c. command c.0 c.1.now) named.entry }
    ensures few { IfSome result (λ c. IsInRange c.0) }
    ensures named { IfSome result (λ c. NamesReport c.0 c.2.now) }
{
    match named {
        Some((verb, file)) => Some((verb, file, "")),
        None => None,
    }
}

// A check of this script and this report.
fn check_command<'a>(script: &'a str, report: &'a str) -> Option<(Verb, &'a str, &'a str)>
    ensures told { option_map (λ c. command_on c.0 c.1.now c.2.now) result
        ≡ spec.check_command script.now report.now }
    ensures few { IfSome result (λ c. IsInRange c.0) }
    ensures named { IfSome result (λ c. NamesReport c.0 c.2.now) }
{
    if starts_with_dash(script) || starts_with_dash(report) {
        return None;
    }
    Some((Verb::Check, script, report))
}

// A command of three words.
fn with_three<'a>(
    word: &'a str,
    first: &'a str,
    second: &'a str,
) -> Option<(Verb, &'a str, &'a str)>
    ensures told { option_map (λ c. command_on c.0 c.1.now c.2.now) result
        ≡ spec.with_three word.now first.now second.now }
    ensures few { IfSome result (λ c. IsInRange c.0) }
    ensures named { IfSome result (λ c. NamesReport c.0 c.2.now) }
{
    if is_word(word, "run") {
        alone(with_one(first, second))
    } else if is_word(word, "load") {
        alone(load_command(first, second))
    } else if is_word(word, "check") {
        check_command(first, second)
    } else {
        None
    }
}

/// The command of `replay FILE`, `probe FILE`, `run FILE --workers N`, `load START N` or `check SCRIPT REPORT` with its file and
/// its report, where the words are just these. The option may stand before FILE or after it, as two words or as `--workers=N`;
/// without it there are four workers. What a command does not name is an empty name.
pub fn command_of(words: &[String]) -> Option<(Verb, &str, &str)>
    ensures told { option_map (λ c. command_on c.0 c.1.now c.2.now) result
        ≡ command_of (words_of words.now) }
    ensures few { IfSome result (λ c. IsInRange c.0) }
    ensures named { IfSome result (λ c. NamesReport c.0 c.2.now) }
{
    match words {
        [word, file] => alone(on_file(file.as_str(), verb_of(word.as_str()))),
        [word, first, second] => with_three(word.as_str(), first.as_str(), second.as_str()),
        [word, first, second, third] => {
            if is_word(word.as_str(), "run") {
                alone(with_two(first.as_str(), second.as_str(), third.as_str()))
            } else {
                None
            }
        }
        _ => None,
    }
}
