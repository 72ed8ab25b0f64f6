// Runs the charts of the paper, as tagged fields on standard input: A without 85 00, and with a second one; EA 07 with
// specifiers 4, 26 and 0; EA 05 with 4 and 26; empty, E9, E9 00, 30 00, E9 80 and E9 81 05; 4,096 octets and 4,097;
// 64 parameters and 65; EB 08, and EB with no ID octet, with D5 and with two octets of code; EC 08, and EC with two ID
// octets, with D4 and with one octet of code; A with every length behind 82, an INVOKE without a row behind padded
// lengths, and E9 82 00 05; EA with 85 01 in its set, with 85 00 behind the set and behind the component, and ended
// where the set is wanted; and A, of whose first entry, ChannelData, the table then shows where the contents start,
// their length, and the place of the identifier.
#![tactic(auto)]

use fields::Failure;
use lines::Components;
use std::io::{Read, Write};
use std::process::ExitCode;

fn print<W: Write>(to: &mut W, number: u16, mark: &[u8]) -> Result<(), Failure> {
    write!(to, "{number}").map_err(Failure::Unwritten)?;
    fields::write(to, mark)
}

fn run<R: Read, W: Write>(from: &mut R, to: &mut W) -> Result<(), Failure> {
    let mut component = [0u8; 4097];
    let mut table = [0u16; component::TABLE];
    fields::list::<Components, R, W>(from, to, &mut component, &mut table)?;
    print(to, table[2], b" ")?;
    print(to, table[3], b" ")?;
    print(to, table[4], b"\n")
}

fn main(rt: HostRuntime) -> ExitCode {
    fields::status(&rt, run(&mut rt.stdin(), &mut rt.stdout()))
}
