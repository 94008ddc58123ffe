//! The words of the program.

ghost use Rattle.std.specs.Prelude.{◌≡◌, ◌≤◌, ◌<◌, ◌^◌, map, codes, IfOk, OnOk, IfSome, IsNone, Err, option_map};
ghost use Rattle.hol_serve.specs.Settings.{option_text, IsValue, IsOutside, AreTaken, AreRefused, IsTurns, IsCache, AreBad};

use clap::error::ErrorKind;
use clap::{Arg, Command};
use hol_session::Ending;
use std::alloc::{AllocError, Global};
use thiserror::Error;

const DEFAULT_TURNS: u32 = 10_000;

const DEFAULT_CACHE: u32 = 256;

/// Why the words were refused.
#[derive(Clone, Copy, Debug, Drop, PartialEq, Eq, Error)]
pub(crate) enum Words {
    /// The words aren't the program's, or a number is outside its range.
    #[error("bad words")]
    Bad,
    /// There was no memory.
    #[error("no memory")]
    Memory,
}

impl From<AllocError> for Words {
    ghost use Rattle.hol_serve.specs.declared.settings.Words.TheVariants.{Memory};
    ghost use Rattle.std.specs.Prelude.{◌≡◌};

    ghost from_gives = { λ _ e. e ≡ Memory };

    fn from(_refused: AllocError) -> Words {
        Words::Memory
    }
}

impl From<Words> for Ending {
    ghost use Rattle.std.specs.Prelude.{◌≡◌};
    ghost use Rattle.hol_serve.specs.WordsEnding.{words_ending};

    ghost from_gives = { λ words e. e ≡ words_ending words };

    fn from(words: Words) -> Ending {
        match words {
            Words::Bad => Ending::BadWords,
            Words::Memory => Ending::Memory,
        }
    }
}

// The number in the text, or the default where there is none.
fn value_in(text: Option<&str>, low: u32, high: u32, default: u32) -> Option<u32>
    ensures some { IfSome result (IsValue low high default (option_map (λ t. t.now) text.entry)) }
    ensures none { IsNone result → high < 2 ^ 32 → IsOutside low high (option_map (λ t. t.now) text.entry) }
{
    let Some(text) = text else {
        return Some(default);
    };
    let Ok(number) = text.parse::<u32>() else {
        return None;
    };
    if number < low || number > high {
        return None;
    }
    Some(number)
}

// The texts of the options in the words, the program's name first.
fn option_texts<'a>(
    alloc: Global,
    words: &'a [&'a str],
) -> Result<(Option<&'a str>, Option<&'a str>), Words>
    ensures turns { IfOk result (λ texts. option_map (λ t. t.now) texts.0 ≡ option_text (codes "turns") (map (λ w. w.now) words.now)) }
    ensures cache { IfOk result (λ texts. option_map (λ t. t.now) texts.1 ≡ option_text (codes "cache") (map (λ w. w.now) words.now)) }
    ensures taken { OnOk result (AreTaken (map (λ w. w.now) words.now)) }
    ensures bad { result ≡ Err Words.Bad → AreRefused (map (λ w. w.now) words.now) }
{
    let turns = Arg::new(alloc, "turns").long("turns");
    let cache = Arg::new(alloc, "cache").long("cache");
    let command = Command::new(alloc, "hol-serve").arg(turns)?.arg(cache)?;
    match command.try_get_matches_from(words) {
        Ok(matches) => Ok((matches.get_str("turns"), matches.get_str("cache"))),
        Err(error) if error.kind() == ErrorKind::OutOfMemory => Err(Words::Memory),
        Err(_) => Err(Words::Bad),
    }
}

/// The turns of a command and the size of the cache, from the program's words, its name first: `hol-serve [--turns N] [--cache N]`.
///
/// N is from 1 to 100,000 turns, 10,000 where the option isn't given, and from 1 to 4,096 outcomes in the cache, 256 where it isn't.
///
/// # Errors
/// `Words::Bad` where clap doesn't take the words (`--help` too), or a number is outside its range.
pub(crate) fn settings<'a>(alloc: Global, words: &'a [&'a str]) -> Result<(u32, u32), Words>
    ensures taken { OnOk result (AreTaken (map (λ w. w.now) words.now)) }
    ensures turns { IfOk result (λ s. IsTurns (map (λ w. w.now) words.now) s.0) }
    ensures cache { IfOk result (λ s. IsCache (map (λ w. w.now) words.now) s.1) }
    ensures turns_range { IfOk result (λ s. (1 ≤ s.0) × (s.0 ≤ 100000)) }
    ensures cache_range { IfOk result (λ s. (1 ≤ s.1) × (s.1 ≤ 4096)) }
    ensures bad { result ≡ Err Words.Bad → AreBad (map (λ w. w.now) words.now) }
{
    let (turns, cache) = option_texts(alloc, words)?;
    let Some(turns) = value_in(turns, 1, 100_000, DEFAULT_TURNS) else {
        return Err(Words::Bad);
    };
    let Some(cache) = value_in(cache, 1, 4_096, DEFAULT_CACHE) else {
        return Err(Words::Bad);
    };
    Ok((turns, cache))
}
