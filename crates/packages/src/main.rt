// Lists the packages of the tagged fields on standard input.
#![tactic(auto)]

use fields::Failure;
use lines::Packages;
use std::io::{Read, Write};
use std::process::ExitCode;

fn run<R: Read, W: Write>(from: &mut R, to: &mut W) -> Result<(), Failure> {
    fields::write(to, b"item answer detail type components\n")?;
    let mut octets = [0u8; 4097];
    let mut table = [0u16; package::TABLES];
    fields::list::<Packages, R, W>(from, to, &mut octets, &mut table)?;
    fields::close(to)
}

fn main(rt: HostRuntime) -> ExitCode {
    fields::status(&rt, run(&mut rt.stdin(), &mut rt.stdout()))
}
