// The register as a set names it: the bit of a key in its word. 64 keys to a word, so 32 numbers.
use super::rows;

// ---- word 0: numbers 0 to 31

pub(crate) const BILLING_ID: u64 = 1 << (rows::BILLING_ID % 64);

pub(crate) const SERVING_CELL_ID: u64 = 1 << (rows::SERVING_CELL_ID % 64);

pub(crate) const TARGET_CELL_ID: u64 = 1 << (rows::TARGET_CELL_ID % 64);

pub(crate) const DIGITS: u64 = 1 << (rows::DIGITS % 64);

pub(crate) const CHANNEL_DATA: u64 = 1 << (rows::CHANNEL_DATA % 64);

pub(crate) const INTER_MSC_CIRCUIT_ID: u64 = 1 << (rows::INTER_MSC_CIRCUIT_ID % 64);

pub(crate) const MIN: u64 = 1 << (rows::MIN % 64);

pub(crate) const ESN: u64 = 1 << (rows::ESN % 64);

pub(crate) const QUALIFICATION_INFORMATION_CODE: u64 = 1
    << (rows::QUALIFICATION_INFORMATION_CODE % 64);

pub(crate) const MSCID: u64 = 1 << (rows::MSCID % 64);

pub(crate) const SYSTEM_MY_TYPE_CODE: u64 = 1 << (rows::SYSTEM_MY_TYPE_CODE % 64);

// ---- word 1: numbers 32 to 63

pub(crate) const PC_SSN: u64 = 1 << (rows::PC_SSN % 64);

// ---- word 3: numbers 96 to 127

pub(crate) const SMS_BEARER_DATA: u64 = 1 << (rows::SMS_BEARER_DATA % 64);

pub(crate) const SMS_TELESERVICE_IDENTIFIER: u64 = 1 << (rows::SMS_TELESERVICE_IDENTIFIER % 64);

pub(crate) const TRANSACTION_CAPABILITY: u64 = 1 << (rows::TRANSACTION_CAPABILITY % 64);

// ---- word 4: numbers 128 to 159

pub(crate) const SMS_CAUSE_CODE: u64 = 1 << (rows::SMS_CAUSE_CODE % 64);

// ---- word 7: numbers 224 to 255

pub(crate) const NETWORK_TMSI: u64 = 1 << (rows::NETWORK_TMSI % 64);

pub(crate) const IMSI: u64 = 1 << (rows::IMSI % 64);
