//! The help of the program `pcp`, which the crate `clap` renders: each command with its words and what it does. Nothing else is asked
//! of that crate; the words of a command line are read by the commands themselves.
ghost use Rattle.std.specs.Prelude.{◌≡◌};
ghost use Rattle.pcp_outside.specs.Causes.{Rose};

use clap::Command;
use pcp_outside::{Sink, write_all};
use std::alloc::{AllocError, Global};

const USAGE: &str = "pcp BASE COMMAND\n       pcp --help";

const ENDING: &str =
    "BASE begins the names of the archive's files: BASE.meta, BASE.index, BASE.0 and so on.";

// Each command with its words, and what it does.
const COMMANDS: [(&str, &str); 21] = [
    (
        "once SEC USEC FILE",
        "Log the values of an image as one result",
    ),
    (
        "replay VOLUME",
        "Run a script, line by line, and log its ticks",
    ),
    (
        "make NUMBER TICKS VOLUME",
        "Run the script that a number makes, and log its ticks",
    ),
    (
        "record SAMPLES VOLUME",
        "Run a script's writers, and log a sample each second",
    ),
    ("serve PORT COUNT", "Serve a script's regions to clients"),
    (
        "pull PORT SAMPLES VOLUME NAME..",
        "Ask a server for metrics, and log a sample each second",
    ),
    (
        "extract BASE1 BASE2 VOLUME",
        "Log the merge of two other archives",
    ),
    (
        "export BASE2",
        "Write an archive again at another base, as stock tools show it whole",
    ),
    ("recover", "Mend an archive that was stopped anywhere"),
    ("dump", "Print the label and all items of an archive"),
    ("at SEC USEC", "Print the last item not after a moment"),
    (
        "range SEC USEC SEC USEC",
        "Print the items between two moments",
    ),
    (
        "value SEC USEC NAME",
        "Print the values that a metric last had at a moment",
    ),
    (
        "watch SEC USEC SEC USEC",
        "Print which rules hold at each sample between two moments",
    ),
    (
        "summary WORKERS SEC USEC SEC USEC",
        "Print what an archive's values come to between two moments",
    ),
    ("info", "Print the descriptions of an archive"),
    (
        "check",
        "Tell whether an archive is sound, or where it isn't",
    ),
    ("retire N", "Empty the volumes of an archive below a number"),
    ("mmv-make", "Make the image of a layout text"),
    ("mmv-dump", "Print an image as a layout text"),
    ("mmv-lift", "Make the version 2 image of an image"),
];

/// Whether the words of the program ask for its help: its own name stands first, and `--help` is the only other word.
pub fn asks_help(words: &[String]) -> bool {
    match words {
        [_, word] => word.as_bytes() == b"--help".as_slice(),
        _ => false,
    }
}

fn help_text(alloc: Global) -> Result<String, AllocError> {
    let mut program = Command::new(alloc, "pcp")
        .about(
            "Regions of memory mapped values, sessions with clients, and archives of what was logged",
        )
        .override_usage(USAGE)
        .after_help(ENDING)
        .disable_help_flag(true)
        .disable_help_subcommand(true);
    for (words, about) in COMMANDS {
        program = program.subcommand(Command::new(alloc, words).about(about))?;
    }
    program.render_help()
}

/// Writes the help, and answers the exit status: 0, 4 where the output failed, 9 for want of memory.
pub fn write_help<O: Sink>(alloc: Global, out: &mut O) -> u8
    ensures write_fault { result ≡ 4 → Rose (O.faults out.old) (O.faults out.new) }
{
    let Ok(text) = help_text(alloc) else {
        return 9;
    };
    match write_all(out, text.as_bytes()) {
        Ok(()) => 0,
        Err(_) => 4,
    }
}
