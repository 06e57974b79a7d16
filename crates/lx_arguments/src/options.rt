ghost use Rattle.std.specs.Prelude.{◌≡◌, ◌≢◌, ◌≤◌, IfOk, IfErr, IfSome, true, None, Some, map, codes};
ghost use Rattle.std.specs.String.{string_bytes};
ghost use Rattle.clap.specs.Words.{found_of, one_text};
ghost use Rattle.lx_arguments.specs.Arguments.{HasLines, HasNumber, HasNumbers, IsRefusedAs, MayHaveNumber, are_taken, asked_for, mode_found, mode_of, most_delay, most_lines, most_seed, number_if_said, number_said, says_true};

use crate::command::lexical_command;
use clap::ArgMatches;
use clap::error::ErrorKind;
use std::alloc::Global;

/// What the program does. Words ask for one mode: `--hub` for the hub, `--outline` for the outline, `--generate` and `--seed`
/// together for a generated session, and none of these for the plain one. Two of these modes are refused.
#[derive(Clone, Copy)]
pub enum Mode {
    /// It answers the lines of its input.
    Plain,
    /// It answers the lines of its input, and keeps views that lag behind commits.
    Hub,
    /// It answers the lines of its input, and keeps an outline by the events of commits.
    Outline,
    /// It generates a session in the place of the input, and tells it as a whole.
    Generate(Generated),
}

/// A session that is generated.
#[derive(Clone, Copy)]
pub struct Generated {
    /// How many lines it has, from 1 to 20,000.
    pub lines: u32,
    /// The number from which its lines are made.
    pub seed: u32,
}

/// What the words ask for.
#[derive(Clone, Copy)]
pub struct Options {
    /// What the program does.
    pub mode: Mode,
    /// Whether the reply to each commit also tells the view.
    pub view: bool,
    /// The delay of the history in milliseconds, from 0 to 86,400,000.
    pub delay: u32,
}

/// Why words are not taken.
#[derive(Clone, Copy, Debug)]
pub enum Refused {
    /// They are no words of this program.
    Usage,
    /// Memory ran out.
    Memory,
}

/// What the words behind the program's name ask for. They are taken exactly where clap takes them and they ask for one mode,
/// unless memory runs out first: two of `--hub`, `--outline` and `--generate` with `--seed` are refused. `--generate` and `--seed`
/// stand together, and not beside `--view`. `--hub` and `--outline` may stand beside `--view`, and `--delay` beside any.
pub fn options_of(alloc: Global, words: &[String]) -> Result<Options, Refused>
    ensures ok { IfOk result (λ options. (are_taken (map string_bytes words.now) ≡ true)
        × (options ≡ asked_for (map string_bytes words.now))) }
    ensures usage { IfErr result (λ refused. IsRefusedAs refused (map string_bytes words.now)) }
    ensures delay { IfOk result (λ options. options.delay ≤ most_delay) }
    ensures lines { IfOk result (λ options. HasLines options.mode) }
{
    let command = match lexical_command(alloc) {
        Ok(command) => command,
        Err(_) => return Err(Refused::Memory),
    };
    match command.try_get_matches_from(words) {
        Ok(matches) => options_in(&matches),
        Err(error) => Err(refused_by(error.kind())),
    }
}

/// What the matches ask for. They are refused where they ask for no mode.
fn options_in(matches: &ArgMatches<'_>) -> Result<Options, Refused>
    requires numbers { HasNumbers (found_of matches.now) }
    ensures mode { IfOk result (λ options. mode_found (found_of matches.now) ≡ Some options.mode) }
    ensures view { IfOk result (λ options. options.view ≡ says_true (one_text (found_of matches.now) (codes "view"))) }
    ensures delay { IfOk result (λ options. options.delay ≡ number_said (one_text (found_of matches.now) (codes "delay"))) }
    ensures most { IfOk result (λ options. options.delay ≤ most_delay) }
    ensures lines { IfOk result (λ options. HasLines options.mode) }
    ensures usage { IfErr result (λ refused. (refused ≡ Refused.Usage) × (mode_found (found_of matches.now) ≡ None)) }
{
    let view = found_flag(matches, "view");
    let hub = found_flag(matches, "hub");
    let outline = found_flag(matches, "outline");
    let lines = found_lines(matches);
    let seed = found_seed(matches);
    let delay = found_delay(matches);
    match mode_of(view, hub, outline, lines, seed) {
        Some(mode) => Ok(Options { mode, view, delay }),
        None => Err(Refused::Usage),
    }
}

/// The mode that is asked for, if it is one. Two of the hub, the outline and a generated session are refused, and so is a
/// generated session beside the view. The hub and the outline may stand beside the view.
fn mode_of(
    view: bool,
    hub: bool,
    outline: bool,
    lines: Option<u32>,
    seed: Option<u32>,
) -> Option<Mode>
    ensures mode { result ≡ mode_of view hub outline lines seed }
    ensures lines { IfSome lines (λ n. (1 ≤ n) × (n ≤ most_lines)) → IfSome result HasLines }
{
    match (view, hub, outline, lines, seed) {
        (_, false, false, None, None) => Some(Mode::Plain),
        (_, true, false, None, None) => Some(Mode::Hub),
        (_, false, true, None, None) => Some(Mode::Outline),
        (false, false, false, Some(lines), Some(seed)) => Some(Mode::Generate(Generated {
            lines,
            seed,
        })),
        _ => None,
    }
}

/// Whether a flag stands among the words.
fn found_flag(matches: &ArgMatches<'_>, name: &str) -> bool
    ensures { result ≡ says_true (one_text (found_of matches.now) name.now) }
{
    matches.get_one::<bool>(name).unwrap_or(false)
}

fn found_delay(matches: &ArgMatches<'_>) -> u32
    requires { HasNumber (codes "delay") 0 most_delay (found_of matches.now) }
    ensures said { result ≡ number_said (one_text (found_of matches.now) (codes "delay")) }
    ensures most { result ≤ most_delay }
{
    matches.get_one::<u32>("delay").unwrap()
}

fn found_lines(matches: &ArgMatches<'_>) -> Option<u32>
    requires { MayHaveNumber (codes "generate") 1 most_lines (found_of matches.now) }
    ensures said { result ≡ number_if_said (one_text (found_of matches.now) (codes "generate")) }
    ensures within { IfSome result (λ n. (1 ≤ n) × (n ≤ most_lines)) }
{
    matches.get_one::<u32>("generate")
}

fn found_seed(matches: &ArgMatches<'_>) -> Option<u32>
    requires { MayHaveNumber (codes "seed") 0 most_seed (found_of matches.now) }
    ensures { result ≡ number_if_said (one_text (found_of matches.now) (codes "seed")) }
{
    matches.get_one::<u32>("seed")
}

fn refused_by(kind: ErrorKind) -> Refused
    ensures usage { result ≡ Refused.Usage → kind ≢ ErrorKind.OutOfMemory }
    ensures memory { result ≡ Refused.Memory → kind ≡ ErrorKind.OutOfMemory }
{
    match kind {
        ErrorKind::OutOfMemory => Refused::Memory,
        _ => Refused::Usage,
    }
}
