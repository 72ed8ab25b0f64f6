// Why a listing is not whole: what is said of it, and the status of a program that ends with it.
ghost use Rattle.std.specs.Prelude.{◌≡◌, OnOk, IfErr};
ghost use Rattle.std.specs.Process.{exit_status};
ghost use Rattle.fields.specs.Status.{status_of};

use std::error::Error;
use std::fmt::InlineText;
use std::io::Eprint;
use std::process::ExitCode;
use std::{fmt, io};

#[derive(Clone, Copy, Debug)]
pub enum Failure {
    Unread(io::Error),
    Unwritten(io::Error),
}

// The system's words have at most 64 octets, and std writes the error's number behind them.
const LONGEST_REASON: usize = 80;

// The words alone.
fn words(reason: &str) -> &str {
    reason
        .split_once(" (os error ")
        .map_or(reason, |(words, _)| words)
}

impl fmt::Display for Failure {
    fn fmt<W: fmt::Write>(&self, f: &mut fmt::Formatter<W>) -> fmt::Result {
        let (what, error) = match *self {
            Failure::Unread(error) => ("the input cannot be read", error),
            Failure::Unwritten(error) => ("the listing cannot be written", error),
        };
        let reason = InlineText::<LONGEST_REASON>::of(error);
        let why = words(reason.as_str());
        write!(f, "{what}: {why}")
    }
}

impl Error for Failure {}

// Says on standard error why a run failed, and answers the status of its program.
pub fn status<E: Eprint>(rt: &E, ended: Result<(), Failure>) -> ExitCode
    ensures whole { OnOk ended (exit_status result ≡ 0) }
    ensures failed { IfErr ended (λ failure. exit_status result ≡ status_of failure) }
{
    match ended {
        Ok(()) => ExitCode::SUCCESS,
        Err(failure) => {
            // Where that cannot be written either, the status tells it.
            let _ = rt.eprintln(format_args!("roadquill: {failure}"));
            match failure {
                Failure::Unread(_) => ExitCode::from(1),
                Failure::Unwritten(_) => ExitCode::from(4),
            }
        }
    }
}
