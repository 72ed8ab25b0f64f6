// Lists a file of tagged fields that an independent program made, and says the same of it as that program.
#![tactic(auto)]

use fields::Failure;
use lines::Components;
use std::io::{Read, Write};
use std::process::ExitCode;

fn run<R: Read, W: Write>(from: &mut R, to: &mut W) -> Result<(), Failure> {
    fields::write(to, b"item answer detail named other\n")?;
    let mut component = [0u8; 4097];
    let mut table = [0u16; component::TABLE];
    fields::list::<Components, R, W>(from, to, &mut component, &mut table)
}

fn main(rt: HostRuntime) -> ExitCode {
    fields::status(&rt, run(&mut rt.stdin(), &mut rt.stdout()))
}
