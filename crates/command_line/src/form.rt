// The program's command as clap reads it, and the same as data. Each function states what the definitions say of its part.

ghost use Rattle.std.specs.Prelude.{◌≡◌, codes, IfOk};
ghost use Rattle.clap.specs.Words.{App, Rule, Shape, app_of, new_app, with_subcommand};
ghost use Rattle.command_line.specs.Command.{required, one_or_more, option, flag, with_arg, IsArg, IsLeaf, IsTop, with_settings, shards_rule, coordinators_rule, lanes_rule, batch_rule, mint_rule, verdicts_rule, repeats_rule, client_rule, audit_client_rule, hash_rule, topic_rule, replicas_rule, watch_rule, seed_rule, count_rule, nodes_shape, sized_shape, init_shape, run_shape, recover_shape, status_shape, audit_shape, sized_gen_shape, optional_gen_shape, gen_shape, help_shape, with_run, with_status, with_gen, hamilton};

use crate::help;
use clap::{Arg, ArgAction, Command};
use std::alloc::{AllocError, Global};

// An option with a value, and its value where it is left out.
fn option_arg<'a>(
    alloc: Global,
    name: &'a str,
    value: &'a str,
    default: &'a str,
    help: &'a str,
) -> Arg<'a>
    ensures { IsArg result (option name.now default.now) }
{
    Arg::new(alloc, name)
        .long(name)
        .value_name(value)
        .default_value(default)
        .help(help)
}

// An option without a value.
fn flag_arg<'a>(alloc: Global, name: &'a str, help: &'a str) -> Arg<'a>
    ensures { IsArg result (flag name.now) }
{
    Arg::new(alloc, name)
        .long(name)
        .action(ArgAction::SetTrue)
        .help(help)
}

// A word that has to be there.
fn required_arg<'a>(alloc: Global, name: &'a str, value: &'a str, help: &'a str) -> Arg<'a>
    ensures { IsArg result (required name.now) }
{
    Arg::new(alloc, name)
        .required(true)
        .value_name(value)
        .help(help)
}

// One word or more.
fn words_arg<'a>(alloc: Global, name: &'a str, value: &'a str, help: &'a str) -> Arg<'a>
    ensures { IsArg result (one_or_more name.now) }
{
    Arg::new(alloc, name)
        .required(true)
        .num_args(1..)
        .value_name(value)
        .help(help)
}

fn shards_arg<'a>(alloc: Global, default: &'a str) -> Arg<'a>
    ensures { IsArg result (shards_rule default.now) }
{
    option_arg(alloc, "shards", "N", default, help::shards())
}

fn coordinators_arg<'a>(alloc: Global, default: &'a str) -> Arg<'a>
    ensures { IsArg result (coordinators_rule default.now) }
{
    option_arg(alloc, "coordinators", "N", default, help::coordinators())
}

fn lanes_arg<'a>(alloc: Global, default: &'a str) -> Arg<'a>
    ensures { IsArg result (lanes_rule default.now) }
{
    option_arg(alloc, "lanes", "N", default, help::lanes())
}

fn batch_arg<'a>(alloc: Global, default: &'a str) -> Arg<'a>
    ensures { IsArg result (batch_rule default.now) }
{
    option_arg(alloc, "batch", "N", default, help::batch())
}

fn mint_arg<'a>(alloc: Global) -> Arg<'a>
    ensures { IsArg result mint_rule }
{
    required_arg(alloc, "mint", "MINT", help::mint())
}

fn verdicts_arg<'a>(alloc: Global) -> Arg<'a>
    ensures { IsArg result verdicts_rule }
{
    Arg::new(alloc, "verdicts")
        .long("verdicts")
        .required(true)
        .value_name("FILE")
        .help(help::verdicts())
}

fn repeats_arg<'a>(alloc: Global) -> Arg<'a>
    ensures { IsArg result repeats_rule }
{
    option_arg(alloc, "repeats", "K", "0", help::repeats())
}

fn client_arg<'a>(alloc: Global) -> Arg<'a>
    ensures { IsArg result client_rule }
{
    words_arg(alloc, "client", "CLIENT", help::clients())
}

fn audit_client_arg<'a>(alloc: Global) -> Arg<'a>
    ensures { IsArg result audit_client_rule }
{
    Arg::new(alloc, "client")
        .num_args(1..)
        .value_name("CLIENT")
        .help(help::audit_clients())
}

fn hash_arg<'a>(alloc: Global) -> Arg<'a>
    ensures { IsArg result hash_rule }
{
    words_arg(alloc, "hash", "HASH", help::hashes())
}

fn replicas_arg<'a>(alloc: Global) -> Arg<'a>
    ensures { IsArg result replicas_rule }
{
    option_arg(alloc, "replicas", "N", "0", help::replicas())
}

fn watch_arg<'a>(alloc: Global) -> Arg<'a>
    ensures { IsArg result watch_rule }
{
    flag_arg(alloc, "watch", help::watch())
}

fn seed_arg<'a>(alloc: Global) -> Arg<'a>
    ensures { IsArg result seed_rule }
{
    required_arg(alloc, "seed", "SEED", help::seed())
}

fn count_arg<'a>(alloc: Global) -> Arg<'a>
    ensures { IsArg result count_rule }
{
    required_arg(alloc, "count", "N", help::count())
}

fn topic_arg<'a>(alloc: Global) -> Arg<'a>
    ensures { IsArg result topic_rule }
{
    Arg::new(alloc, "command")
        .value_name("COMMAND")
        .help(help::topic())
}

// What the options of a ledger's shape are where they are left out.
#[derive(Clone, Copy)]
struct Sizes<'a> {
    shards: &'a str,
    coordinators: &'a str,
    lanes: &'a str,
    batch: &'a str,
}

// A command with one more argument, or the error that came before.
fn and_arg<'a>(
    command: Result<Command<'a>, AllocError>,
    arg: Arg<'a>,
) -> Result<Command<'a>, AllocError>
    ensures { (s : Shape) → (r : Rule) → IfOk command.entry (λ c. IsLeaf c s) → IsArg arg.entry r
        → IfOk result (λ c. IsLeaf c (with_arg s r)) }
{
    command?.arg(arg)
}

// A command with one more command below it, or the error that came before.
fn and_subcommand<'a>(
    command: Result<Command<'a>, AllocError>,
    below: Result<Command<'a>, AllocError>,
) -> Result<Command<'a>, AllocError>
    ensures { (a : App) → (s : Shape) → IfOk command.entry (λ c. IsTop c a)
        → IfOk below.entry (λ c. IsLeaf c s) → IfOk result (λ c. IsTop c (with_subcommand a s)) }
{
    let below = below?;
    command?.subcommand(below)
}

// A command with no arguments yet, and the texts of its help.
fn plain_command<'a>(
    alloc: Global,
    name: &'a str,
    about: &'static str,
    after_help: &'static str,
) -> Command<'a>
    ensures { IsLeaf result (new_app name.now).top }
{
    Command::new(alloc, name)
        .about(about)
        .after_help(after_help)
}

// A command with the numbers of a ledger's nodes.
fn with_nodes<'a>(
    alloc: Global,
    name: &'a str,
    about: &'static str,
    after_help: &'static str,
    sizes: Sizes<'a>,
) -> Result<Command<'a>, AllocError>
    ensures { IfOk result
        (λ c. IsLeaf c (nodes_shape name.now sizes.entry.shards.now sizes.entry.coordinators.now)) }
{
    let plain = plain_command(alloc, name, about, after_help);
    let sharded = and_arg(Ok(plain), shards_arg(alloc, sizes.shards));
    and_arg(sharded, coordinators_arg(alloc, sizes.coordinators))
}

// A command with all options of a ledger's shape.
fn with_sizes<'a>(
    alloc: Global,
    name: &'a str,
    about: &'static str,
    after_help: &'static str,
    sizes: Sizes<'a>,
) -> Result<Command<'a>, AllocError>
    ensures { IfOk result (λ c. IsLeaf c (sized_shape (nodes_shape name.now
        sizes.entry.shards.now sizes.entry.coordinators.now) sizes.entry.lanes.now sizes.entry.batch.now)) }
{
    let nodes = with_nodes(alloc, name, about, after_help, sizes);
    let laned = and_arg(nodes, lanes_arg(alloc, sizes.lanes));
    and_arg(laned, batch_arg(alloc, sizes.batch))
}

fn init_command<'a>(alloc: Global) -> Result<Command<'a>, AllocError>
    ensures { IfOk result (λ c. IsLeaf c init_shape) }
{
    let sizes = Sizes {
        shards: "1",
        coordinators: "1",
        lanes: "1",
        batch: "16",
    };
    let sized = with_sizes(alloc, "init", help::about_init(), help::of_init(), sizes);
    and_arg(sized, mint_arg(alloc))
}

// `gen` with the options of a ledger's shape.
fn gen_with_sizes<'a>(alloc: Global) -> Result<Command<'a>, AllocError>
    ensures { IfOk result (λ c. IsLeaf c sized_gen_shape) }
{
    let sizes = Sizes {
        shards: "4",
        coordinators: "2",
        lanes: "2",
        batch: "16",
    };
    with_sizes(alloc, "gen", help::about_gen(), help::of_gen(), sizes)
}

// `gen` with all its options.
fn gen_with_options<'a>(alloc: Global) -> Result<Command<'a>, AllocError>
    ensures { IfOk result (λ c. IsLeaf c optional_gen_shape) }
{
    let sized = gen_with_sizes(alloc);
    let replicated = and_arg(sized, replicas_arg(alloc));
    and_arg(replicated, watch_arg(alloc))
}

fn gen_command<'a>(alloc: Global) -> Result<Command<'a>, AllocError>
    ensures { IfOk result (λ c. IsLeaf c gen_shape) }
{
    let optional = gen_with_options(alloc);
    let seeded = and_arg(optional, seed_arg(alloc));
    and_arg(seeded, count_arg(alloc))
}

fn run_command<'a>(alloc: Global) -> Result<Command<'a>, AllocError>
    ensures { IfOk result (λ c. IsLeaf c run_shape) }
{
    let plain = plain_command(alloc, "run", help::about_run(), help::of_run());
    let told = and_arg(Ok(plain), verdicts_arg(alloc));
    let repeated = and_arg(told, repeats_arg(alloc));
    and_arg(repeated, client_arg(alloc))
}

fn recover_command<'a>(alloc: Global) -> Command<'a>
    ensures { IsLeaf result recover_shape }
{
    plain_command(alloc, "recover", help::about_recover(), help::of_recover())
}

fn status_command<'a>(alloc: Global) -> Result<Command<'a>, AllocError>
    ensures { IfOk result (λ c. IsLeaf c status_shape) }
{
    let plain = plain_command(alloc, "status", help::about_status(), help::of_status());
    and_arg(Ok(plain), hash_arg(alloc))
}

fn audit_command<'a>(alloc: Global) -> Result<Command<'a>, AllocError>
    ensures { IfOk result (λ c. IsLeaf c audit_shape) }
{
    let plain = plain_command(alloc, "audit", help::about_audit(), help::of_audit());
    let minted = and_arg(Ok(plain), mint_arg(alloc));
    and_arg(minted, audit_client_arg(alloc))
}

fn help_command<'a>(alloc: Global) -> Result<Command<'a>, AllocError>
    ensures { IfOk result (λ c. IsLeaf c help_shape) }
{
    Command::new(alloc, "help")
        .about(help::about_help())
        .arg(topic_arg(alloc))
}

// The command with no commands below it.
fn top<'a>(alloc: Global) -> Command<'a>
    ensures { IsTop result (with_settings (new_app (codes "hamilton"))) }
{
    Command::new(alloc, "hamilton")
        .about(help::about_all())
        .after_help(help::of_all())
        .version("0.1.0")
        .subcommand_required(true)
        .disable_help_subcommand(true)
}

// The command with those below it that make a ledger and run transactions.
fn app_with_run<'a>(alloc: Global) -> Result<Command<'a>, AllocError>
    ensures { IfOk result (λ c. IsTop c with_run) }
{
    let with_init = and_subcommand(Ok(top(alloc)), init_command(alloc));
    and_subcommand(with_init, run_command(alloc))
}

// The command with those below it that look at a ledger, too.
fn app_with_status<'a>(alloc: Global) -> Result<Command<'a>, AllocError>
    ensures { IfOk result (λ c. IsTop c with_status) }
{
    let first = app_with_run(alloc);
    let with_recover = and_subcommand(first, Ok(recover_command(alloc)));
    and_subcommand(with_recover, status_command(alloc))
}

// The command with those below it that check a ledger, too.
fn app_with_gen<'a>(alloc: Global) -> Result<Command<'a>, AllocError>
    ensures { IfOk result (λ c. IsTop c with_gen) }
{
    let first = app_with_status(alloc);
    let with_audit = and_subcommand(first, audit_command(alloc));
    and_subcommand(with_audit, gen_command(alloc))
}

/// The program's command.
///
/// At Ok the command is `hamilton`, as clap's definitions read a command.
pub fn program<'a>(alloc: Global) -> Result<Command<'a>, AllocError>
    ensures { IfOk result (λ c. app_of c ≡ hamilton) }
{
    let all = app_with_gen(alloc);
    and_subcommand(all, help_command(alloc))
}
