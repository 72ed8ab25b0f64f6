// The names of the error codes by Table 6: each a part of one string, and put into a lent output.
#![tactic(auto)]

ghost use Rattle.std.specs.Prelude.{◌≡◌, length};
ghost use Rattle.element.specs.Output.{written, output_after};
ghost use Rattle.errors.specs.Table6.{names, part_of};
ghost use Rattle.errors.specs.Naming.{naming, named_in};

use element::{Reason, Refusal};

// All of the names, one behind another, by their codes.
pub const NAMES: [u8; 239] =
    *b"UnrecognizedMINUnrecognizedESNMSID/HLRMismatchOperationSequenceProblem\
    ResourceShortageOperationNotSupportedTrunkUnavailableParameterErrorSystemFailure\
    UnrecognizedParameterValueFeatureInactiveMissingParameterUnrecognizedTMSITMSI/VLRMismatch";

// Where the name of each code from 129 on starts, and where the last one ends.
const STARTS: [u8; 15] = [
    0, 15, 30, 46, 70, 86, 107, 123, 137, 150, 176, 191, 207, 223, 239,
];

// A part of the names.
#[derive(Clone, Copy, Debug, PartialEq, Eq)]
pub struct Part {
    pub start: usize,
    pub size: usize,
}

// The names as a value.
pub fn names() -> [u8; 239]
    ensures { result ≡ names }
{
    NAMES
}

// The part of the names that is the name of a code; the empty part at 0 where the code is reserved.
pub fn name(code: u8) -> Part
    ensures { result ≡ part_of code }
{
    if code < 129 || 142 < code {
        return Part { start: 0, size: 0 };
    }
    let line = usize::from(code - 129);
    let start = usize::from(STARTS[line]);
    let end = usize::from(STARTS[line + 1]);
    Part {
        start,
        size: end - start,
    }
}

// The name of a code, at the start of a lent output: how many octets it has, or where there is no room for them the
// refusal that says so.
pub fn put_name(code: u8, out: &mut [u8]) -> Result<usize, Refusal>
    ensures { (named_in result ≡ written (naming code (length out.old)))
        × (out.new ≡ output_after out.old (naming code (length out.old))) }
{
    let Part { start, size } = name(code);
    // a reserved code: no call that copies nothing
    if size == 0 {
        return Ok(0);
    }
    if out.len() < size {
        return Err(Reason::Output.at(size as u32));
    }
    let end = start + size;
    out[..size].copy_from_slice(&NAMES[start..end]);
    Ok(size)
}
