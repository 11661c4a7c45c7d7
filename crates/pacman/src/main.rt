//! The program: the real outside, handed to the top call.
#![tactic(auto)]

ghost use Rattle.std.specs.Prelude.{◌≡◌, ◌↔◌};

use pac_main::{ArgumentsError, pacman, refuse_arguments};
use pac_outside::{OpenGate, Stream, store_devices};
use std::env::Env;
use std::io::ErrorKind;
use std::process::ExitCode;
use std::{env, io};

// The arguments after the program's name.
fn read_arguments<R: Env + Alloc>(rt: &R) -> io::Result<Vec<String<R::A>, R::A>> {
    Ok(env::args(rt)?.skip(1).collect(rt.alloc())?)
}

// What is wrong with arguments that can't be read: there was no memory for them, or they are no text.
fn arguments_error(kind: ErrorKind) -> ArgumentsError
    ensures { (result ≡ ArgumentsError.NoMemory) ↔ (kind ≡ ErrorKind.OutOfMemory) }
{
    match kind {
        ErrorKind::OutOfMemory => ArgumentsError::NoMemory,
        _ => ArgumentsError::Usage,
    }
}

fn main(rt: HostRuntime) -> ExitCode {
    let mut input = Stream::new(rt.stdin());
    let mut output = Stream::new(rt.stdout());
    let mut errors = Stream::new(rt.stderr());
    let mut devices = store_devices(&rt);
    let status = match read_arguments(&rt) {
        Ok(arguments) => pacman(
            &rt,
            rt.alloc(),
            &arguments,
            &mut input,
            &mut output,
            &mut errors,
            &mut devices,
            &OpenGate,
        ),
        Err(error) => refuse_arguments(arguments_error(error.kind()), &mut errors),
    };
    ExitCode::from(status)
}
