// From the words to the request.
ghost use Rattle.std.specs.Prelude.{◌≡◌, map, option_map, string_bytes, IfOk, IsErrOf, None, Some};
ghost use Rattle.program_words.specs.Positional.{is_plain, are_positional, request_in};
ghost use Rattle.program_words.specs.Requests.{natural_in, one_word, two_words, three_words, request_of, IsRequestWithin};

use crate::places::{Texts, by_place};
use crate::requests::{Journal, MAX_DEMO_ORDERS, MAX_SEED, Mode, Request, Served, WordsFault};
use command_text::{NumberRead, number};
use std::alloc::Global;

// The value of a number text from `low` to `high`.
fn natural(text: &str, low: u32, high: u32) -> Option<u32>
    ensures { result ≡ natural_in low high text.now }
{
    match number(text.as_bytes(), i64::from(low), i64::from(high)) {
        NumberRead::Value(value) => Some(value as u32),
        _ => None,
    }
}

fn one_word(word: &str) -> Option<Request>
    ensures { result ≡ one_word word.now }
{
    if word == "run" {
        return Some(Request::Lines(Mode::Run));
    }
    if word == "quotes" {
        return Some(Request::Lines(Mode::Quotes));
    }
    if word == "guarded" {
        return Some(Request::Lines(Mode::Guarded));
    }
    if word == "check" {
        return Some(Request::Check(Journal::Run));
    }
    if word == "audit" {
        return Some(Request::Check(Journal::Served));
    }
    if word == "sessions" {
        return Some(Request::Sessions);
    }
    if word == "serve" {
        return Some(Request::Serve(Served::Lines));
    }
    if word == "propose" {
        return Some(Request::Propose);
    }
    None
}

fn two_words(word: &str, what: &str) -> Option<Request>
    ensures { result ≡ two_words word.now what.now }
{
    if word != "serve" {
        return None;
    }
    if what == "sessions" {
        return Some(Request::Serve(Served::Sessions));
    }
    if what == "members" {
        return Some(Request::Serve(Served::Members));
    }
    None
}

fn three_words(word: &str, seed: &str, count: &str) -> Option<Request>
    ensures { result ≡ three_words word.now seed.now count.now }
{
    if word != "demo" {
        return None;
    }
    let seed = natural(seed, 0, MAX_SEED)?;
    let count = natural(count, 1, MAX_DEMO_ORDERS)?;
    Some(Request::Demo { seed, count })
}

fn request_in(word: Option<&str>, second: Option<&str>, third: Option<&str>) -> Option<Request>
    ensures { result ≡ request_in (option_map (λ s. s.now) word.entry)
        (option_map (λ s. s.now) second.entry) (option_map (λ s. s.now) third.entry) }
{
    match (word, second, third) {
        (Some(word), None, None) => one_word(word),
        (Some(word), Some(what), None) => two_words(word, what),
        (Some(word), Some(seed), Some(count)) => three_words(word, seed, count),
        _ => None,
    }
}

// A word that may be read as a text, and not as an option.
fn is_plain(word: &str) -> bool
    ensures { result ≡ is_plain word.now }
{
    !word.starts_with('-')
}

fn are_positional(words: &[String]) -> bool
    ensures { result ≡ are_positional (map string_bytes words.now) }
{
    match words {
        [a] => is_plain(a),
        [a, b] => is_plain(a) && is_plain(b),
        [a, b, c] => is_plain(a) && is_plain(b) && is_plain(c),
        _ => false,
    }
}

/// What the words after the program's name ask for: `run`, `quotes`, `guarded`, `check`, `audit`,
/// `sessions`, `serve`, `serve sessions`, `serve members`, `propose`, or `demo` with a seed and a
/// number of orders, each of which is `0` or digits that do not begin with 0.
///
/// Usage where they have none of these forms, and Memory for want of memory alone.
pub fn request(alloc: Global, words: &[String]) -> Result<Request, WordsFault>
    ensures ok { IfOk result (λ request.
        request_of (map string_bytes words.now) ≡ Some request) }
    ensures within { IfOk result IsRequestWithin }
    ensures usage { IsErrOf result WordsFault.Usage →
        request_of (map string_bytes words.now) ≡ None }
{
    if !are_positional(words) {
        return Err(WordsFault::Usage);
    }
    let Texts {
        word,
        second,
        third,
    } = by_place(alloc, words)?;
    request_in(word, second, third).ok_or(WordsFault::Usage)
}
