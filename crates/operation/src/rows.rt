// The register and the rows of the paper, and the row that an operation asks.
ghost use Rattle.std.specs.Prelude.{◌≡◌, [], ◌∷◌};
ghost use Rattle.operation.specs.inner.Coded.{verdict, judged_in, NoneOf};
ghost use Rattle.component.specs.Kinds.{octet_of};
ghost use Rattle.operation.specs.inner.Run.{run};

use super::engine::{Row, RowFault, judge};
use super::names;
use super::table::Entries;
use component::Kind;

// ---- the register: the number twice, for all are primitive

pub(crate) const BILLING_ID: u16 = 2;

pub(crate) const SERVING_CELL_ID: u16 = 4;

pub(crate) const TARGET_CELL_ID: u16 = 6;

pub(crate) const DIGITS: u16 = 8;

pub(crate) const CHANNEL_DATA: u16 = 10;

pub(crate) const INTER_MSC_CIRCUIT_ID: u16 = 12;

pub(crate) const MIN: u16 = 16;

pub(crate) const ESN: u16 = 18;

pub(crate) const QUALIFICATION_INFORMATION_CODE: u16 = 34;

pub(crate) const MSCID: u16 = 42;

pub(crate) const SYSTEM_MY_TYPE_CODE: u16 = 44;

pub(crate) const PC_SSN: u16 = 64;

pub(crate) const SMS_BEARER_DATA: u16 = 210;

pub(crate) const SMS_TELESERVICE_IDENTIFIER: u16 = 232;

pub(crate) const TRANSACTION_CAPABILITY: u16 = 246;

pub(crate) const SMS_CAUSE_CODE: u16 = 306;

pub(crate) const NETWORK_TMSI: u16 = 466;

pub(crate) const IMSI: u16 = 484;

// ---- the rows. A set is a word for 64 keys, so for 32 numbers, from number 0 on, and no word is behind the last that
// is not 0. What a row must be here that was changed in the definitions is told by `harness/rows`.

// What a row with no choice has in place of its members.
const NONE: u16 = 0;

const HANDOFF_BACK: Row<5, 0, 1> = Row {
    must: [
        CHANNEL_DATA,
        INTER_MSC_CIRCUIT_ID,
        MIN,
        SERVING_CELL_ID,
        TARGET_CELL_ID,
    ],
    group: [],
    one: NONE,
    other: NONE,
    names: [
        names::CHANNEL_DATA
            + names::INTER_MSC_CIRCUIT_ID
            + names::MIN
            + names::SERVING_CELL_ID
            + names::TARGET_CELL_ID
            + names::BILLING_ID,
    ],
};

const HANDOFF_BACK_RESULT: Row<1, 0, 1> = Row {
    must: [CHANNEL_DATA],
    group: [],
    one: NONE,
    other: NONE,
    names: [names::CHANNEL_DATA],
};

const REGISTRATION_NOTIFICATION: Row<5, 0, 8> = Row {
    must: [
        ESN,
        MIN,
        MSCID,
        QUALIFICATION_INFORMATION_CODE,
        SYSTEM_MY_TYPE_CODE,
    ],
    group: [],
    one: MIN,
    other: IMSI,
    names: [
        names::ESN
            + names::MIN
            + names::MSCID
            + names::QUALIFICATION_INFORMATION_CODE
            + names::SYSTEM_MY_TYPE_CODE,
        names::PC_SSN,
        0,
        names::TRANSACTION_CAPABILITY,
        0,
        0,
        0,
        names::IMSI,
    ],
};

const REGISTRATION_NOTIFICATION_RESULT: Row<1, 0, 1> = Row {
    must: [SYSTEM_MY_TYPE_CODE],
    group: [],
    one: NONE,
    other: NONE,
    names: [names::SYSTEM_MY_TYPE_CODE],
};

const REGISTRATION_CANCELLATION_RESULT: Row<0, 0, 0> = Row {
    must: [],
    group: [],
    one: NONE,
    other: NONE,
    names: [],
};

const LOCATION_REQUEST: Row<4, 0, 4> = Row {
    must: [BILLING_ID, DIGITS, MSCID, SYSTEM_MY_TYPE_CODE],
    group: [],
    one: NONE,
    other: NONE,
    names: [
        names::BILLING_ID + names::DIGITS + names::MSCID + names::SYSTEM_MY_TYPE_CODE,
        names::PC_SSN,
        0,
        names::TRANSACTION_CAPABILITY,
    ],
};

const FLASH_REQUEST_RESULT: Row<0, 0, 0> = Row {
    must: [],
    group: [],
    one: NONE,
    other: NONE,
    names: [],
};

const INTER_SYSTEM_PAGE: Row<2, 3, 8> = Row {
    must: [BILLING_ID, ESN],
    group: [MIN, IMSI, NETWORK_TMSI],
    one: NONE,
    other: NONE,
    names: [
        names::BILLING_ID + names::ESN + names::MIN + names::MSCID + names::SYSTEM_MY_TYPE_CODE,
        names::PC_SSN,
        0,
        0,
        0,
        0,
        0,
        names::IMSI + names::NETWORK_TMSI,
    ],
};

const HANDOFF_BACK2: Row<3, 0, 8> = Row {
    must: [BILLING_ID, INTER_MSC_CIRCUIT_ID, SERVING_CELL_ID],
    group: [],
    one: NONE,
    other: NONE,
    names: [
        names::BILLING_ID + names::INTER_MSC_CIRCUIT_ID + names::SERVING_CELL_ID,
        0,
        0,
        0,
        0,
        0,
        0,
        names::IMSI,
    ],
};

const ANALYZED_INFORMATION_RESULT: Row<0, 0, 1> = Row {
    must: [],
    group: [],
    one: NONE,
    other: NONE,
    names: [names::DIGITS],
};

const INTER_SYSTEM_SMS_PAGE: Row<2, 3, 8> = Row {
    must: [SMS_BEARER_DATA, SMS_TELESERVICE_IDENTIFIER],
    group: [MIN, IMSI, NETWORK_TMSI],
    one: NONE,
    other: NONE,
    names: [
        names::MIN + names::ESN,
        0,
        0,
        names::SMS_BEARER_DATA + names::SMS_TELESERVICE_IDENTIFIER,
        0,
        0,
        0,
        names::IMSI + names::NETWORK_TMSI,
    ],
};

const INTER_SYSTEM_SMS_PAGE_RESULT: Row<0, 0, 5> = Row {
    must: [],
    group: [],
    one: NONE,
    other: NONE,
    names: [0, 0, 0, names::SMS_BEARER_DATA, names::SMS_CAUSE_CODE],
};

// ---- the row of an operation

// What the row of an invoke says of entries.
fn judge_invoke(specifier: u8, entries: Entries<'_>) -> Result<usize, RowFault>
    ensures { judged_in result ≡ verdict 0xE9 specifier (run entries.entry) }
{
    match specifier {
        4 => judge(HANDOFF_BACK, entries),
        13 => judge(REGISTRATION_NOTIFICATION, entries),
        15 => judge(LOCATION_REQUEST, entries),
        37 => judge(HANDOFF_BACK2, entries),
        _ => judge_page(specifier, entries),
    }
}

// The same of the invokes whose rows have a group. They stand apart: as arms among the others they would cost the
// reading by another row a jump more.
fn judge_page(specifier: u8, entries: Entries<'_>) -> Result<usize, RowFault>
    requires { NoneOf specifier (37 ∷ 15 ∷ 13 ∷ 4 ∷ []) }
    ensures { judged_in result ≡ verdict 0xE9 specifier (run entries.entry) }
{
    match specifier {
        32 => judge(INTER_SYSTEM_PAGE, entries),
        101 => judge(INTER_SYSTEM_SMS_PAGE, entries),
        _ => Err(RowFault::NoRow),
    }
}

// The same of a return result.
fn judge_result(specifier: u8, entries: Entries<'_>) -> Result<usize, RowFault>
    ensures { judged_in result ≡ verdict 0xEA specifier (run entries.entry) }
{
    match specifier {
        4 => judge(HANDOFF_BACK_RESULT, entries),
        13 => judge(REGISTRATION_NOTIFICATION_RESULT, entries),
        14 => judge(REGISTRATION_CANCELLATION_RESULT, entries),
        26 => judge(FLASH_REQUEST_RESULT, entries),
        64 => judge(ANALYZED_INFORMATION_RESULT, entries),
        101 => judge(INTER_SYSTEM_SMS_PAGE_RESULT, entries),
        _ => Err(RowFault::NoRow),
    }
}

// What the row of an operation says of entries: nothing of an ERROR and a REJECT, which have none.
pub(crate) fn judge_operation(
    kind: Kind,
    operation: u8,
    entries: Entries<'_>,
) -> Result<usize, RowFault>
    ensures { judged_in result ≡ verdict (octet_of kind) operation (run entries.entry) }
{
    match kind {
        Kind::Invoke => judge_invoke(operation, entries),
        Kind::Result => judge_result(operation, entries),
        Kind::Error => Ok(0),
        Kind::Reject => Ok(0),
    }
}

// The same for a reader, which asks nothing of an ERROR and a REJECT: most of what such a reading cost here was the
// call.
pub(crate) fn judge_sheet(
    kind: Kind,
    operation: u8,
    entries: Entries<'_>,
) -> Result<usize, RowFault>
    ensures { judged_in result ≡ verdict (octet_of kind) operation (run entries.entry) }
{
    match kind {
        Kind::Error | Kind::Reject => Ok(0),
        _ => judge_operation(kind, operation, entries),
    }
}
