//! The arguments of commands: numbers, parameters and lists of them.
ghost use Rattle.std.specs.Prelude.{◌≡◌, ◌++◌, OnOk, codes};
ghost use Rattle.std.specs.List.{flat_map};
ghost use Rattle.ch_print.specs.Lists.{behind, separated};
ghost use Rattle.ch_scriptprint.specs.Printed.{arg_text, args_text, param_name};

use ch_affine::Text;
use ch_print::put_integer;
use ch_script::Arg;
use std::alloc::AllocError;

/// Adds the name of a parameter.
pub(crate) fn put_param(out: &mut Text, params: &[Text], param: u32) -> Result<(), AllocError>
    ensures { OnOk result (out.new ≡ out.old ++ param_name params.now param) }
{
    match params.get(param as usize) {
        Some(name) => out.append(name.as_bytes()),
        None => Ok(()),
    }
}

/// Adds an argument.
pub(crate) fn put_arg(out: &mut Text, params: &[Text], arg: Arg) -> Result<(), AllocError>
    ensures { OnOk result (out.new ≡ out.old ++ arg_text params.now arg) }
{
    match arg {
        Arg::Number(number) => put_integer(out, number),
        Arg::Param(param) => put_param(out, params, param),
    }
}

/// Adds arguments, each behind a comma.
fn put_more(out: &mut Text, params: &[Text], args: &[Arg]) -> Result<(), AllocError>
    ensures { OnOk result (out.new
        ≡ out.old ++ flat_map (behind (codes ", ") (arg_text params.now)) args.now) }
{
    for arg in args {
        out.append(b", ")?;
        put_arg(out, params, *arg)?;
    }
    Ok(())
}

/// Adds arguments with commas between them.
fn put_separated(out: &mut Text, params: &[Text], args: &[Arg]) -> Result<(), AllocError>
    ensures { OnOk result (out.new
        ≡ out.old ++ separated (codes ", ") (arg_text params.now) args.now) }
{
    let Some((first, rest)) = args.split_first() else {
        return Ok(());
    };
    put_arg(out, params, *first)?;
    put_more(out, params, rest)
}

/// Adds a list of arguments in brackets.
pub(crate) fn put_args(out: &mut Text, params: &[Text], args: &[Arg]) -> Result<(), AllocError>
    ensures { OnOk result (out.new ≡ out.old ++ args_text params.now args.now) }
{
    out.append(b"[")?;
    put_separated(out, params, args)?;
    out.append(b"]")
}
