//! What `--help` and `--version` print.

use clap::builder::PossibleValue;
use clap::{Arg, ArgAction, Command};
use std::alloc::{AllocError, Global};

/// What `--version` prints: the program's name and the version of the file VERSION.
pub const VERSION: &str = "lefdef 0.9.0\n";

const ABOUT: &str = "Checks, measures, legalises and routes a placed block of standard cells.
With no arguments it reads one LEF that ends in END LIBRARY and then one DEF from standard input, and runs check.
lefdef [OPTIONS] compare BEFORE AFTER LEF... prints what differs between two DEFs.
Options stand before the command, each at most once, and --masks and --soft only with --wide.";

const STATUSES: &str = "Exit status:
  0   the block is legal, the two DEFs are the same, or a design, a wirelength, the version or this help was printed
  1   violations or differences were listed
  2   a text was refused, a LEF length cannot be converted to database units, or a check met too many shapes
  3   the block could not be legalised, routed or finished
  4   out of memory
  5   a file could not be read, or the output not written
  64  usage error";

/// The help on the program's words and on its exit statuses.
pub fn help_text(alloc: Global) -> Result<String, AllocError> {
    let names = [
        PossibleValue::new("check").help("list all violations"),
        PossibleValue::new("place-check").help("list the violations of placement"),
        PossibleValue::new("legalise").help(
            "print the block with each movable component at its best free position",
        ),
        PossibleValue::new("route").help("print the block with wires added to its open nets"),
        PossibleValue::new("flow").help("legalise, then route the result"),
        PossibleValue::new("finish").help(
            "as route, but added wires that are in each other's way are laid again",
        ),
        PossibleValue::new("measure").help("print the half-perimeter wirelength"),
        PossibleValue::new("print").help(
            "print the block as it is, in the form in which legalise, route, flow and finish print one",
        ),
    ];
    let masks = [PossibleValue::new("drop").help("read shapes as if they had none")];
    let soft = [
        PossibleValue::new("drop").help("read the text as if they were not there"),
        PossibleValue::new("hard").help("read them as all others"),
    ];
    let mut program = program(alloc, names.as_slice(), masks.as_slice(), soft.as_slice())?;
    let help = program.render_long_help()?;
    Ok(help)
}

/// The program's words: options, of which two have one of the words given here, and a command, which is one of these names, with its files.
fn program<'a>(
    alloc: Global,
    names: &'a [PossibleValue<'a>],
    masks: &'a [PossibleValue<'a>],
    soft: &'a [PossibleValue<'a>],
) -> Result<Command<'a>, AllocError> {
    let program = Command::new(alloc, "lefdef")
        .about(ABOUT)
        .after_help(STATUSES)
        .disable_help_flag(true)
        .disable_version_flag(true);
    let program = with_command(alloc, program, names)?;
    with_options(alloc, program, masks, soft)
}

/// The program with the words of a command, which is one of these names.
fn with_command<'a>(
    alloc: Global,
    program: Command<'a>,
    names: &'a [PossibleValue<'a>],
) -> Result<Command<'a>, AllocError> {
    let command = Arg::new(alloc, "COMMAND")
        .required(true)
        .value_parser(names)
        .help("The command");
    let def = Arg::new(alloc, "DEF").required(true).help("The DEF file");
    let lefs = Arg::new(alloc, "LEF")
        .required(true)
        .action(ArgAction::Append)
        .num_args(1..)
        .help("The LEF files, in order");
    program.arg(command)?.arg(def)?.arg(lefs)
}

/// The program with its options: for masks, and for soft blockages, one of these words.
fn with_options<'a>(
    alloc: Global,
    program: Command<'a>,
    masks: &'a [PossibleValue<'a>],
    soft: &'a [PossibleValue<'a>],
) -> Result<Command<'a>, AllocError> {
    let wide = Arg::new(alloc, "wide")
        .long("wide")
        .action(ArgAction::SetTrue)
        .help(
            "Read the texts in the wide profile. So far both profiles read the same texts, and these three options change no answer",
        );
    let masks = Arg::new(alloc, "masks")
        .long("masks")
        .value_name("WORD")
        .value_parser(masks)
        .help("What is to be done with masks");
    let soft = Arg::new(alloc, "soft")
        .long("soft")
        .value_name("WORD")
        .value_parser(soft)
        .help("What is to be done with placement blockages that are SOFT or PARTIAL");
    let help = Arg::new(alloc, "help")
        .short('h')
        .long("help")
        .action(ArgAction::Help)
        .help("Print this help");
    let version = Arg::new(alloc, "version")
        .short('V')
        .long("version")
        .action(ArgAction::Version)
        .help("Print the version");
    program
        .arg(wide)?
        .arg(masks)?
        .arg(soft)?
        .arg(help)?
        .arg(version)
}
