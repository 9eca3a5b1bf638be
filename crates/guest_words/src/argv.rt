//! The words of a command line that are a guest's.

ghost use Rattle.std.specs.Prelude.{IfOk, codes, map, option_map};
ghost use Rattle.clap.specs.Matches.{found_of, matched_of, raw_values};
ghost use Rattle.guest_words.specs.Words.{AreArgv, IsLastPart};

use clap::{Arg, ArgAction, ArgMatches};
use std::alloc::{AllocError, Global};

/// The words after an image. From the first one on, none is an option of the command.
pub fn words_arg<'a>(alloc: Global) -> Arg<'a> {
    Arg::new(alloc, "words")
        .action(ArgAction::Append)
        .trailing_var_arg(true)
}

/// All words of a guest: none where none are given, and else the name of its image, without the folder, before them.
pub fn argv_of<'a>(
    alloc: Global,
    matches: &ArgMatches<'a>,
    image: &'a str,
) -> Result<Vec<&'a str>, AllocError>
    ensures { IfOk result (λ argv. AreArgv image.now (option_map raw_values
        (matched_of (found_of matches.now) (codes "words"))) (map (λ s. s.now) argv.items)) }
{
    let mut argv = Vec::new(alloc);
    let Some(words) = matches.get_strs("words") else {
        return Ok(argv);
    };
    if words.is_empty() {
        return Ok(argv);
    }
    argv.push(last_part(image))?;
    argv.extend_from_slice(words)?;
    Ok(argv)
}

/// The part of a name after its last slash.
fn last_part(name: &str) -> &str
    ensures { IsLastPart name.now result.now }
{
    match name.rsplit_once('/') {
        Some((_, last)) => last,
        None => name,
    }
}
