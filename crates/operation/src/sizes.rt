// The sizes of the paper, in octets: of an identifier, so for all rows alike. Each key that has one is of the first
// word.
ghost use Rattle.std.specs.Prelude.{◌≡◌, not};
ghost use Rattle.operation.specs.Row.{allows};
ghost use Rattle.operation.specs.Rows.{sizes};
ghost use Rattle.operation.specs.inner.Coded.{Missizes};

use super::names;

// The keys that have a size.
const SIZED: u64 = names::ESN
    + names::MIN
    + names::MSCID
    + names::INTER_MSC_CIRCUIT_ID
    + names::SERVING_CELL_ID
    + names::TARGET_CELL_ID
    + names::SYSTEM_MY_TYPE_CODE
    + names::CHANNEL_DATA;

// Those of them that may not have this one. By a `match` the compiler looks it up.
fn others(size: u16) -> u64
    ensures { Missizes result size }
{
    match size {
        0 => SIZED - names::CHANNEL_DATA,
        1 => SIZED - names::SYSTEM_MY_TYPE_CODE,
        2 => SIZED - names::INTER_MSC_CIRCUIT_ID - names::SERVING_CELL_ID - names::TARGET_CELL_ID,
        3 => SIZED - names::MSCID - names::CHANNEL_DATA,
        4 => SIZED - names::ESN,
        5 => SIZED - names::MIN,
        _ => SIZED,
    }
}

// Whether a key may not have this size.
pub(crate) fn missized(key: u64, size: u16) -> bool
    ensures { result ≡ not (allows (sizes key) size) }
{
    if key < 64 {
        return (others(size) >> key) % 2 == 1;
    }
    false
}
