// Table 2 of 002: which package carries which component of which operation.
ghost use Rattle.std.specs.Prelude.{◌≡◌, ◌≤◌, ◌||◌, Some};
ghost use Rattle.std.specs.Option.{is_some};
ghost use Rattle.element.specs.Octets.{if};
ghost use Rattle.package.specs.Carriage.{by, column, carrier};
ghost use Rattle.package.specs.Reading.{carries};

use operation::Outline;

// A line of the table: the package that carries a component of this type, 0 where there is none.
fn pick(kind: u8, invoke: u8, res: u8, error: u8, reject: u8) -> u8
    ensures { result ≡ column kind (by invoke res error reject) }
{
    match kind {
        0xE9 => invoke,
        0xEA => res,
        0xEB => error,
        _ => reject,
    }
}

// The package that carries a component of this type and operation, 0 where there is none.
pub fn carried_by(kind: u8, operation: u8) -> u8
    ensures { result ≡ carrier kind operation }
{
    match operation {
        2 => pick(kind, 0xE2, 0xE5, 0xE4, 0xE4),
        3 => pick(kind, 0xE4, 0, 0, 0),
        36 => pick(kind, 0xE2, 0xE5, 0xE4, 0xE4),
        50 => pick(kind, 0xE6, 0xE5, 0xE5, 0xE5),
        58 => pick(kind, 0xE6, 0xE5, 0xE5, 0xE5),
        65 => pick(kind, 0xE5, 0, 0xE5, 0xE5),
        66 => pick(kind, 0xE6, 0, 0xE5, 0xE5),
        67 => pick(kind, 0xE6, 0, 0xE5, 0xE5),
        69 => pick(kind, 0xE5, 0xE4, 0xE4, 0xE4),
        71 => pick(kind, 0xE6, 0, 0xE5, 0xE5),
        73 => pick(kind, 0xE2, 0xE6, 0xE4, 0xE4),
        74 => pick(kind, 0xE6, 0xE5, 0xE4, 0xE4),
        78 => pick(kind, 0xE1, 0, 0, 0),
        _ => pick(kind, 0xE2, 0xE4, 0xE4, 0xE4),
    }
}

// Whether a package carries a component of this type, whose own code and whose specifier of the eight are these.
fn is_carried(packet: u8, kind: u8, code: u8, given: u8) -> bool
    ensures { result ≡ carries packet kind code given }
{
    let operation = if kind == 0xE9 { code } else { given };
    carried_by(kind, operation) == packet
}

// The place of the first component that the package does not carry, where there is one: of this, at `at`, if none before
// it was `wrong`.
pub(crate) fn first_wrong(
    packet: u8,
    outline: Outline,
    given: u8,
    at: usize,
    wrong: Option<u32>,
) -> Option<u32>
    requires { at ≤ 4096 }
    ensures { result ≡ if (is_some wrong || carries packet outline.kind outline.code.first given)
        wrong (Some at) }
{
    if wrong.is_some() || is_carried(packet, outline.kind, outline.code.first, given) {
        return wrong;
    }
    Some(at as u32)
}
