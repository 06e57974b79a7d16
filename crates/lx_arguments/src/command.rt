ghost use Rattle.std.specs.Prelude.{◌≡◌, IfOk, false};
ghost use Rattle.clap.specs.Words.{app_of, rule_of};
ghost use Rattle.lx_arguments.specs.Arguments.{delay_rule, generate_rule, hub_rule, lexical_app, outline_rule, seed_rule, view_rule};

use clap::{Arg, ArgAction, Command, value_parser};
use std::alloc::{AllocError, Global};

/// The program as `clap` sees it. It is passed the words behind the program's name.
pub(crate) fn lexical_command<'a>(alloc: Global) -> Result<Command<'a>, AllocError>
    ensures { IfOk result (λ command. app_of command ≡ lexical_app) }
{
    Command::new(alloc, "lexical")
        .no_binary_name(true)
        .disable_help_flag(true)
        .arg(view_flag(alloc))?
        .arg(delay_option(alloc))?
        .arg(hub_flag(alloc))?
        .arg(outline_flag(alloc))?
        .arg(generate_option(alloc))?
        .arg(seed_option(alloc))
}

#[tactic(auto, unfolding(crate::specs::Arguments::view_rule))]
fn view_flag<'a>(alloc: Global) -> Arg<'a>
    ensures rule { rule_of result ≡ view_rule }
    ensures local { result.global ≡ false }
{
    Arg::new(alloc, "view")
        .long("view")
        .action(ArgAction::SetTrue)
}

#[tactic(auto, unfolding(crate::specs::Arguments::delay_rule))]
fn delay_option<'a>(alloc: Global) -> Arg<'a>
    ensures rule { rule_of result ≡ delay_rule }
    ensures local { result.global ≡ false }
{
    Arg::new(alloc, "delay")
        .long("delay")
        .action(ArgAction::Set)
        .value_parser(value_parser!(u32).range(0..=86_400_000))
        .default_value("1000")
}

#[tactic(auto, unfolding(crate::specs::Arguments::hub_rule))]
fn hub_flag<'a>(alloc: Global) -> Arg<'a>
    ensures rule { rule_of result ≡ hub_rule }
    ensures local { result.global ≡ false }
{
    Arg::new(alloc, "hub")
        .long("hub")
        .action(ArgAction::SetTrue)
}

#[tactic(auto, unfolding(crate::specs::Arguments::outline_rule))]
fn outline_flag<'a>(alloc: Global) -> Arg<'a>
    ensures rule { rule_of result ≡ outline_rule }
    ensures local { result.global ≡ false }
{
    Arg::new(alloc, "outline")
        .long("outline")
        .action(ArgAction::SetTrue)
}

#[tactic(auto, unfolding(crate::specs::Arguments::generate_rule))]
fn generate_option<'a>(alloc: Global) -> Arg<'a>
    ensures rule { rule_of result ≡ generate_rule }
    ensures local { result.global ≡ false }
{
    Arg::new(alloc, "generate")
        .long("generate")
        .action(ArgAction::Set)
        .value_parser(value_parser!(u32).range(1..=20_000))
}

#[tactic(auto, unfolding(crate::specs::Arguments::seed_rule))]
fn seed_option<'a>(alloc: Global) -> Arg<'a>
    ensures rule { rule_of result ≡ seed_rule }
    ensures local { result.global ≡ false }
{
    Arg::new(alloc, "seed")
        .long("seed")
        .action(ArgAction::Set)
        .value_parser(value_parser!(u32).range(0..=4_294_967_295))
}
