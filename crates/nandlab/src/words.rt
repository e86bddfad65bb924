// The words of a call, read as those of a command.
ghost use Rattle.std.specs.Prelude.{◌≡◌, Some, IfOk, option_map};
ghost use Rattle.clap.specs.Simple.{app_of};
ghost use Rattle.plan_grammar.specs.Forms.{plain_decimal};
ghost use Rattle.nandlab.specs.Positionals.{positionals, two_positionals};
ghost use Rattle.nandlab.specs.Words.{number_request, plain_request, request_of, strength_in, word_request};

use crate::request::Request;
use clap::error::ErrorKind;
use clap::{Arg, Command};
use code_words::strength;
use lab_text::decimal;
use std::alloc::{AllocError, Global};

// A command of two positionals, without flags.
fn command<'a>(alloc: Global) -> Result<Command<'a>, AllocError>
    ensures { IfOk result (λ command. app_of command ≡ two_positionals) }
{
    let word = Arg::new(alloc, "word");
    let number = Arg::new(alloc, "number");
    Command::new(alloc, "nandlab")
        .no_binary_name(true)
        .disable_help_flag(true)
        .disable_version_flag(true)
        .arg(word)?
        .arg(number)
}

// The number of decimal digits without leading zeros, from 0 to 2^64 - 1.
fn plain_decimal(digits: &str) -> Option<u64>
    ensures { result ≡ plain_decimal (Some digits.now) }
{
    let digits = digits.as_bytes();
    if digits.len() > 1 && digits[0] == b'0' {
        return None;
    }
    decimal(digits)
}

// What one word asks for.
fn word_request(word: &str) -> Option<Request>
    ensures { result ≡ word_request word.now }
{
    if word == "check" {
        Some(Request::Check)
    } else if word == "replay" {
        Some(Request::Replay)
    } else if word == "run" {
        Some(Request::Run)
    } else if word == "bus" {
        Some(Request::Bus)
    } else {
        None
    }
}

// The strength of decimal digits without leading zeros, from 1 to 16.
fn strength_in(number: &str) -> Option<u32>
    ensures { result ≡ strength_in number.now }
{
    strength(plain_decimal(number)?)
}

// What a word and a number ask for.
fn number_request(word: &str, number: &str) -> Option<Request>
    ensures { result ≡ number_request word.now number.now }
{
    if word == "make" {
        Some(Request::Make(plain_decimal(number)?))
    } else if word == "encode14" {
        Some(Request::Encode(strength_in(number)?))
    } else if word == "decode14" {
        Some(Request::Decode(strength_in(number)?))
    } else {
        None
    }
}

// What the positionals ask for.
fn plain_request(word: Option<&str>, number: Option<&str>) -> Option<Request>
    ensures { result ≡ plain_request (positionals (option_map (λ s. s.now) word.entry)
        (option_map (λ s. s.now) number.entry)) }
{
    match (word?, number) {
        (word, None) => word_request(word),
        (word, Some(number)) => number_request(word, number),
    }
}

/// What the words of a call ask for: at most one of them, at any place, is `--`, and the others are
/// `check`, or `replay`, or `run`, or `bus`, or `make` and a number from 0 to 2^64 - 1, or
/// `encode14` or `decode14` and a number from 1 to 16, all numbers in decimal digits without leading
/// zeros. None comes exactly where they are not so. The words are this project's own.
pub fn request(alloc: Global, words: &Vec<String>) -> Result<Option<Request>, AllocError>
    ensures { IfOk result (λ request. request ≡ request_of words.now.items) }
{
    match command(alloc)?.try_get_matches_from(words.as_slice()) {
        Ok(matches) => Ok(plain_request(matches.get_str("word"), matches.get_str("number"))),
        Err(error) => match error.kind() {
            ErrorKind::OutOfMemory => Err(AllocError),
            _ => Ok(None),
        },
    }
}
