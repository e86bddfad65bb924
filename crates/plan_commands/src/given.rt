// The options that are given so far.
ghost use Rattle.std.specs.Prelude.{◌≡◌};
ghost use Rattle.plan_grammar.specs.Options.{given, has_value, is_given, no_options, with_option};

use plan_grammar::{OptionKind, Options, PlanKind};

/// No option is given.
pub fn no_options() -> Options
    ensures { result ≡ no_options }
{
    Options {
        no_scan: false,
        mark: false,
        raw: false,
        oob: false,
        pad: false,
        keep: false,
        bad: None,
        offset: None,
        length: None,
        seed: None,
        passes: None,
    }
}

/// Whether the option's value is the next word.
pub fn has_value(option: OptionKind) -> bool
    ensures { result ≡ has_value option }
{
    match option {
        OptionKind::Offset | OptionKind::Length | OptionKind::Seed | OptionKind::Passes => true,
        OptionKind::NoScan
        | OptionKind::Mark
        | OptionKind::Raw
        | OptionKind::Oob
        | OptionKind::Pad
        | OptionKind::Keep
        | OptionKind::Bad(_) => false,
    }
}

// Whether the option was given before.
fn is_given(options: &Options, option: OptionKind) -> bool
    ensures { result ≡ is_given options.now option }
{
    match option {
        OptionKind::NoScan => options.no_scan,
        OptionKind::Mark => options.mark,
        OptionKind::Raw => options.raw,
        OptionKind::Oob => options.oob,
        OptionKind::Pad => options.pad,
        OptionKind::Keep => options.keep,
        OptionKind::Bad(_) => options.bad.is_some(),
        OptionKind::Offset => options.offset.is_some(),
        OptionKind::Length => options.length.is_some(),
        OptionKind::Seed => options.seed.is_some(),
        OptionKind::Passes => options.passes.is_some(),
    }
}

// The options with one more.
fn given(options: Options, option: OptionKind, value: Option<u64>) -> Options
    ensures { result ≡ given options option value }
{
    match option {
        OptionKind::NoScan => Options {
            no_scan: true,
            ..options
        },
        OptionKind::Mark => Options {
            mark: true,
            ..options
        },
        OptionKind::Raw => Options {
            raw: true,
            ..options
        },
        OptionKind::Oob => Options {
            oob: true,
            ..options
        },
        OptionKind::Pad => Options {
            pad: true,
            ..options
        },
        OptionKind::Keep => Options {
            keep: true,
            ..options
        },
        OptionKind::Bad(mode) => Options {
            bad: Some(mode),
            ..options
        },
        OptionKind::Offset => Options {
            offset: Some(value),
            ..options
        },
        OptionKind::Length => Options {
            length: Some(value),
            ..options
        },
        OptionKind::Seed => Options {
            seed: Some(value),
            ..options
        },
        OptionKind::Passes => Options {
            passes: Some(value),
            ..options
        },
    }
}

/// The options with one more, and its value where it has one. `BadWords` comes exactly where the
/// option was given before.
#[tactic(auto, unfolding(plan_grammar::specs::Options::with_option))]
pub fn with_option(
    options: Options,
    option: OptionKind,
    value: Option<u64>,
) -> Result<Options, PlanKind>
    ensures { result ≡ with_option options option value }
{
    if is_given(&options, option) {
        return Err(PlanKind::BadWords);
    }
    Ok(given(options, option, value))
}
