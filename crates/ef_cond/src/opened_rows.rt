// Rows that are opened ahead: what begins with a rule begins with that rule's row.

use crate::parts as part;
use crate::rows::{Action, RuleName};
use ef_grammar::Row;

pub const ORELSE: &[Row<RuleName, Action>] = &[
    Row {
        at: 0x70,
        right: part::UNARY_1,
        then: part::BEHIND_UNARY_IN_ORELSE,
    },
    Row {
        at: 0x4,
        right: part::MAX_1,
        then: part::BEHIND_MAX_IN_ORELSE,
    },
    Row {
        at: 0x8,
        right: part::MAX_2,
        then: part::BEHIND_MAX_IN_ORELSE,
    },
    Row {
        at: 0x1,
        right: part::MAX_3,
        then: part::BEHIND_MAX_IN_ORELSE,
    },
];

pub const ANDALSO: &[Row<RuleName, Action>] = &[
    Row {
        at: 0x70,
        right: part::UNARY_1,
        then: part::BEHIND_UNARY_IN_ANDALSO,
    },
    Row {
        at: 0x4,
        right: part::MAX_1,
        then: part::BEHIND_MAX_IN_ANDALSO,
    },
    Row {
        at: 0x8,
        right: part::MAX_2,
        then: part::BEHIND_MAX_IN_ANDALSO,
    },
    Row {
        at: 0x1,
        right: part::MAX_3,
        then: part::BEHIND_MAX_IN_ANDALSO,
    },
];

pub const COMPARISON: &[Row<RuleName, Action>] = &[
    Row {
        at: 0x70,
        right: part::UNARY_1,
        then: part::BEHIND_UNARY_IN_COMPARISON,
    },
    Row {
        at: 0x4,
        right: part::MAX_1,
        then: part::BEHIND_MAX_IN_COMPARISON,
    },
    Row {
        at: 0x8,
        right: part::MAX_2,
        then: part::BEHIND_MAX_IN_COMPARISON,
    },
    Row {
        at: 0x1,
        right: part::MAX_3,
        then: part::BEHIND_MAX_IN_COMPARISON,
    },
];

pub const ADD: &[Row<RuleName, Action>] = &[
    Row {
        at: 0x70,
        right: part::UNARY_1,
        then: part::BEHIND_UNARY_IN_ADD,
    },
    Row {
        at: 0x4,
        right: part::MAX_1,
        then: part::BEHIND_MAX_IN_ADD,
    },
    Row {
        at: 0x8,
        right: part::MAX_2,
        then: part::BEHIND_MAX_IN_ADD,
    },
    Row {
        at: 0x1,
        right: part::MAX_3,
        then: part::BEHIND_MAX_IN_ADD,
    },
];

pub const MUL: &[Row<RuleName, Action>] = &[
    Row {
        at: 0x70,
        right: part::UNARY_1,
        then: part::BEHIND_UNARY_IN_MUL,
    },
    Row {
        at: 0x4,
        right: part::MAX_1,
        then: part::BEHIND_MAX_IN_MUL,
    },
    Row {
        at: 0x8,
        right: part::MAX_2,
        then: part::BEHIND_MAX_IN_MUL,
    },
    Row {
        at: 0x1,
        right: part::MAX_3,
        then: part::BEHIND_MAX_IN_MUL,
    },
];

pub const UNARY: &[Row<RuleName, Action>] = &[
    Row {
        at: 0x70,
        right: part::UNARY_1,
        then: part::NOTHING,
    },
    Row {
        at: 0x4,
        right: part::MAX_1,
        then: part::NOTHING,
    },
    Row {
        at: 0x8,
        right: part::MAX_2,
        then: part::NOTHING,
    },
    Row {
        at: 0x1,
        right: part::MAX_3,
        then: part::NOTHING,
    },
];
