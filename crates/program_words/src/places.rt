// The words as the matches of one command with three positional texts.
ghost use Rattle.std.specs.Prelude.{◌≡◌, IfErr, IfOk, map, option_map, string_bytes, slice_get, codes, true};
ghost use Rattle.clap.specs.Matches.{found_of, first_value};
ghost use Rattle.clap.specs.Values.{kind_of};
ghost use Rattle.program_words.specs.Positional.{are_positional};

use clap::error::ErrorKind;
use clap::{Arg, ArgMatches, Command, Error};
use std::alloc::{AllocError, Global};

// Only want of memory keeps the command from matching.
fn arg_matches<'a>(alloc: Global, words: &'a [String]) -> Result<ArgMatches<'a>, Error>
    requires { are_positional (map string_bytes words.now) ≡ true }
    ensures word { IfOk result (λ m. first_value (found_of m) (codes "word")
        ≡ slice_get (map string_bytes words.now) 0) }
    ensures second { IfOk result (λ m. first_value (found_of m) (codes "second")
        ≡ slice_get (map string_bytes words.now) 1) }
    ensures third { IfOk result (λ m. first_value (found_of m) (codes "third")
        ≡ slice_get (map string_bytes words.now) 2) }
    ensures memory { IfErr result (λ e. kind_of e ≡ ErrorKind.OutOfMemory) }
{
    let word = Arg::new(alloc, "word").required(true);
    let second = Arg::new(alloc, "second");
    let third = Arg::new(alloc, "third");
    let command = Command::new(alloc, "exchange")
        .no_binary_name(true)
        .disable_help_flag(true)
        .arg(word)?
        .arg(second)?
        .arg(third)?;
    command.try_get_matches_from(words)
}

// The texts of the command's three places.
pub(crate) struct Texts<'a> {
    pub(crate) word: Option<&'a str>,
    pub(crate) second: Option<&'a str>,
    pub(crate) third: Option<&'a str>,
}

// The words, place by place.
pub(crate) fn by_place<'a>(alloc: Global, words: &'a [String]) -> Result<Texts<'a>, AllocError>
    requires { are_positional (map string_bytes words.now) ≡ true }
    ensures word { IfOk result (λ texts. option_map (λ s. s.now) texts.word
        ≡ slice_get (map string_bytes words.now) 0) }
    ensures second { IfOk result (λ texts. option_map (λ s. s.now) texts.second
        ≡ slice_get (map string_bytes words.now) 1) }
    ensures third { IfOk result (λ texts. option_map (λ s. s.now) texts.third
        ≡ slice_get (map string_bytes words.now) 2) }
{
    match arg_matches(alloc, words) {
        Ok(matches) => Ok(Texts {
            word: matches.get_str("word"),
            second: matches.get_str("second"),
            third: matches.get_str("third"),
        }),
        Err(_) => Err(AllocError),
    }
}
