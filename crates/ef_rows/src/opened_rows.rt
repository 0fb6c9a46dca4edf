// Rows that are opened ahead: what begins with a rule begins with that rule's row.

use crate::parts as part;
use crate::rows::{Action, RuleName};
use ef_grammar::Row;

pub const EXPRESSION: &[Row<RuleName, Action>] = &[
    Row {
        at: 0x300000000000,
        right: part::EXPRESSION_1,
        then: part::NOTHING,
    },
    Row {
        at: 0x118000000,
        right: part::UNARY_1,
        then: part::BEHIND_UNARY_IN_EXPRESSION,
    },
    Row {
        at: 0x80000,
        right: part::UNARY_2,
        then: part::BEHIND_UNARY_IN_EXPRESSION,
    },
    Row {
        at: 0xf800000000,
        right: part::MAX_1,
        then: part::BEHIND_MAX_IN_EXPRESSION,
    },
    Row {
        at: 0x10000000000,
        right: part::MAX_2,
        then: part::BEHIND_MAX_IN_EXPRESSION,
    },
    Row {
        at: 0x1,
        right: part::MAX_3,
        then: part::BEHIND_MAX_IN_EXPRESSION,
    },
    Row {
        at: 0x4,
        right: part::MAX_4,
        then: part::BEHIND_MAX_IN_EXPRESSION,
    },
    Row {
        at: 0x10,
        right: part::MAX_5,
        then: part::BEHIND_MAX_IN_EXPRESSION,
    },
    Row {
        at: 0x40,
        right: part::MAX_6,
        then: part::BEHIND_MAX_IN_EXPRESSION,
    },
    Row {
        at: 0x40000000000,
        right: part::MAX_7,
        then: part::BEHIND_MAX_IN_EXPRESSION,
    },
    Row {
        at: 0x2000000000000,
        right: part::MAX_8,
        then: part::BEHIND_MAX_IN_EXPRESSION,
    },
    Row {
        at: 0x80000000000,
        right: part::MAX_9,
        then: part::BEHIND_MAX_IN_EXPRESSION,
    },
    Row {
        at: 0x10000000000000,
        right: part::MAX_10,
        then: part::BEHIND_MAX_IN_EXPRESSION,
    },
    Row {
        at: 0x20000000000000,
        right: part::MAX_11,
        then: part::BEHIND_MAX_IN_EXPRESSION,
    },
    Row {
        at: 0x4000000000000,
        right: part::MAX_12,
        then: part::BEHIND_MAX_IN_EXPRESSION,
    },
    Row {
        at: 0x1000000000000,
        right: part::MAX_13,
        then: part::BEHIND_MAX_IN_EXPRESSION,
    },
];

pub const MATCH: &[Row<RuleName, Action>] = &[
    Row {
        at: 0x118000000,
        right: part::UNARY_1,
        then: part::BEHIND_UNARY_IN_MATCH,
    },
    Row {
        at: 0x80000,
        right: part::UNARY_2,
        then: part::BEHIND_UNARY_IN_MATCH,
    },
    Row {
        at: 0xf800000000,
        right: part::MAX_1,
        then: part::BEHIND_MAX_IN_MATCH,
    },
    Row {
        at: 0x10000000000,
        right: part::MAX_2,
        then: part::BEHIND_MAX_IN_MATCH,
    },
    Row {
        at: 0x1,
        right: part::MAX_3,
        then: part::BEHIND_MAX_IN_MATCH,
    },
    Row {
        at: 0x4,
        right: part::MAX_4,
        then: part::BEHIND_MAX_IN_MATCH,
    },
    Row {
        at: 0x10,
        right: part::MAX_5,
        then: part::BEHIND_MAX_IN_MATCH,
    },
    Row {
        at: 0x40,
        right: part::MAX_6,
        then: part::BEHIND_MAX_IN_MATCH,
    },
    Row {
        at: 0x40000000000,
        right: part::MAX_7,
        then: part::BEHIND_MAX_IN_MATCH,
    },
    Row {
        at: 0x2000000000000,
        right: part::MAX_8,
        then: part::BEHIND_MAX_IN_MATCH,
    },
    Row {
        at: 0x80000000000,
        right: part::MAX_9,
        then: part::BEHIND_MAX_IN_MATCH,
    },
    Row {
        at: 0x10000000000000,
        right: part::MAX_10,
        then: part::BEHIND_MAX_IN_MATCH,
    },
    Row {
        at: 0x20000000000000,
        right: part::MAX_11,
        then: part::BEHIND_MAX_IN_MATCH,
    },
    Row {
        at: 0x4000000000000,
        right: part::MAX_12,
        then: part::BEHIND_MAX_IN_MATCH,
    },
    Row {
        at: 0x1000000000000,
        right: part::MAX_13,
        then: part::BEHIND_MAX_IN_MATCH,
    },
];

pub const ORELSE: &[Row<RuleName, Action>] = &[
    Row {
        at: 0x118000000,
        right: part::UNARY_1,
        then: part::BEHIND_UNARY_IN_ORELSE,
    },
    Row {
        at: 0x80000,
        right: part::UNARY_2,
        then: part::BEHIND_UNARY_IN_ORELSE,
    },
    Row {
        at: 0xf800000000,
        right: part::MAX_1,
        then: part::BEHIND_MAX_IN_ORELSE,
    },
    Row {
        at: 0x10000000000,
        right: part::MAX_2,
        then: part::BEHIND_MAX_IN_ORELSE,
    },
    Row {
        at: 0x1,
        right: part::MAX_3,
        then: part::BEHIND_MAX_IN_ORELSE,
    },
    Row {
        at: 0x4,
        right: part::MAX_4,
        then: part::BEHIND_MAX_IN_ORELSE,
    },
    Row {
        at: 0x10,
        right: part::MAX_5,
        then: part::BEHIND_MAX_IN_ORELSE,
    },
    Row {
        at: 0x40,
        right: part::MAX_6,
        then: part::BEHIND_MAX_IN_ORELSE,
    },
    Row {
        at: 0x40000000000,
        right: part::MAX_7,
        then: part::BEHIND_MAX_IN_ORELSE,
    },
    Row {
        at: 0x2000000000000,
        right: part::MAX_8,
        then: part::BEHIND_MAX_IN_ORELSE,
    },
    Row {
        at: 0x80000000000,
        right: part::MAX_9,
        then: part::BEHIND_MAX_IN_ORELSE,
    },
    Row {
        at: 0x10000000000000,
        right: part::MAX_10,
        then: part::BEHIND_MAX_IN_ORELSE,
    },
    Row {
        at: 0x20000000000000,
        right: part::MAX_11,
        then: part::BEHIND_MAX_IN_ORELSE,
    },
    Row {
        at: 0x4000000000000,
        right: part::MAX_12,
        then: part::BEHIND_MAX_IN_ORELSE,
    },
    Row {
        at: 0x1000000000000,
        right: part::MAX_13,
        then: part::BEHIND_MAX_IN_ORELSE,
    },
];

pub const ANDALSO: &[Row<RuleName, Action>] = &[
    Row {
        at: 0x118000000,
        right: part::UNARY_1,
        then: part::BEHIND_UNARY_IN_ANDALSO,
    },
    Row {
        at: 0x80000,
        right: part::UNARY_2,
        then: part::BEHIND_UNARY_IN_ANDALSO,
    },
    Row {
        at: 0xf800000000,
        right: part::MAX_1,
        then: part::BEHIND_MAX_IN_ANDALSO,
    },
    Row {
        at: 0x10000000000,
        right: part::MAX_2,
        then: part::BEHIND_MAX_IN_ANDALSO,
    },
    Row {
        at: 0x1,
        right: part::MAX_3,
        then: part::BEHIND_MAX_IN_ANDALSO,
    },
    Row {
        at: 0x4,
        right: part::MAX_4,
        then: part::BEHIND_MAX_IN_ANDALSO,
    },
    Row {
        at: 0x10,
        right: part::MAX_5,
        then: part::BEHIND_MAX_IN_ANDALSO,
    },
    Row {
        at: 0x40,
        right: part::MAX_6,
        then: part::BEHIND_MAX_IN_ANDALSO,
    },
    Row {
        at: 0x40000000000,
        right: part::MAX_7,
        then: part::BEHIND_MAX_IN_ANDALSO,
    },
    Row {
        at: 0x2000000000000,
        right: part::MAX_8,
        then: part::BEHIND_MAX_IN_ANDALSO,
    },
    Row {
        at: 0x80000000000,
        right: part::MAX_9,
        then: part::BEHIND_MAX_IN_ANDALSO,
    },
    Row {
        at: 0x10000000000000,
        right: part::MAX_10,
        then: part::BEHIND_MAX_IN_ANDALSO,
    },
    Row {
        at: 0x20000000000000,
        right: part::MAX_11,
        then: part::BEHIND_MAX_IN_ANDALSO,
    },
    Row {
        at: 0x4000000000000,
        right: part::MAX_12,
        then: part::BEHIND_MAX_IN_ANDALSO,
    },
    Row {
        at: 0x1000000000000,
        right: part::MAX_13,
        then: part::BEHIND_MAX_IN_ANDALSO,
    },
];

pub const CMP: &[Row<RuleName, Action>] = &[
    Row {
        at: 0x118000000,
        right: part::UNARY_1,
        then: part::BEHIND_UNARY_IN_CMP,
    },
    Row {
        at: 0x80000,
        right: part::UNARY_2,
        then: part::BEHIND_UNARY_IN_CMP,
    },
    Row {
        at: 0xf800000000,
        right: part::MAX_1,
        then: part::BEHIND_MAX_IN_CMP,
    },
    Row {
        at: 0x10000000000,
        right: part::MAX_2,
        then: part::BEHIND_MAX_IN_CMP,
    },
    Row {
        at: 0x1,
        right: part::MAX_3,
        then: part::BEHIND_MAX_IN_CMP,
    },
    Row {
        at: 0x4,
        right: part::MAX_4,
        then: part::BEHIND_MAX_IN_CMP,
    },
    Row {
        at: 0x10,
        right: part::MAX_5,
        then: part::BEHIND_MAX_IN_CMP,
    },
    Row {
        at: 0x40,
        right: part::MAX_6,
        then: part::BEHIND_MAX_IN_CMP,
    },
    Row {
        at: 0x40000000000,
        right: part::MAX_7,
        then: part::BEHIND_MAX_IN_CMP,
    },
    Row {
        at: 0x2000000000000,
        right: part::MAX_8,
        then: part::BEHIND_MAX_IN_CMP,
    },
    Row {
        at: 0x80000000000,
        right: part::MAX_9,
        then: part::BEHIND_MAX_IN_CMP,
    },
    Row {
        at: 0x10000000000000,
        right: part::MAX_10,
        then: part::BEHIND_MAX_IN_CMP,
    },
    Row {
        at: 0x20000000000000,
        right: part::MAX_11,
        then: part::BEHIND_MAX_IN_CMP,
    },
    Row {
        at: 0x4000000000000,
        right: part::MAX_12,
        then: part::BEHIND_MAX_IN_CMP,
    },
    Row {
        at: 0x1000000000000,
        right: part::MAX_13,
        then: part::BEHIND_MAX_IN_CMP,
    },
];

pub const LIST: &[Row<RuleName, Action>] = &[
    Row {
        at: 0x118000000,
        right: part::UNARY_1,
        then: part::BEHIND_UNARY_IN_LIST,
    },
    Row {
        at: 0x80000,
        right: part::UNARY_2,
        then: part::BEHIND_UNARY_IN_LIST,
    },
    Row {
        at: 0xf800000000,
        right: part::MAX_1,
        then: part::BEHIND_MAX_IN_LIST,
    },
    Row {
        at: 0x10000000000,
        right: part::MAX_2,
        then: part::BEHIND_MAX_IN_LIST,
    },
    Row {
        at: 0x1,
        right: part::MAX_3,
        then: part::BEHIND_MAX_IN_LIST,
    },
    Row {
        at: 0x4,
        right: part::MAX_4,
        then: part::BEHIND_MAX_IN_LIST,
    },
    Row {
        at: 0x10,
        right: part::MAX_5,
        then: part::BEHIND_MAX_IN_LIST,
    },
    Row {
        at: 0x40,
        right: part::MAX_6,
        then: part::BEHIND_MAX_IN_LIST,
    },
    Row {
        at: 0x40000000000,
        right: part::MAX_7,
        then: part::BEHIND_MAX_IN_LIST,
    },
    Row {
        at: 0x2000000000000,
        right: part::MAX_8,
        then: part::BEHIND_MAX_IN_LIST,
    },
    Row {
        at: 0x80000000000,
        right: part::MAX_9,
        then: part::BEHIND_MAX_IN_LIST,
    },
    Row {
        at: 0x10000000000000,
        right: part::MAX_10,
        then: part::BEHIND_MAX_IN_LIST,
    },
    Row {
        at: 0x20000000000000,
        right: part::MAX_11,
        then: part::BEHIND_MAX_IN_LIST,
    },
    Row {
        at: 0x4000000000000,
        right: part::MAX_12,
        then: part::BEHIND_MAX_IN_LIST,
    },
    Row {
        at: 0x1000000000000,
        right: part::MAX_13,
        then: part::BEHIND_MAX_IN_LIST,
    },
];

pub const ADD: &[Row<RuleName, Action>] = &[
    Row {
        at: 0x118000000,
        right: part::UNARY_1,
        then: part::BEHIND_UNARY_IN_ADD,
    },
    Row {
        at: 0x80000,
        right: part::UNARY_2,
        then: part::BEHIND_UNARY_IN_ADD,
    },
    Row {
        at: 0xf800000000,
        right: part::MAX_1,
        then: part::BEHIND_MAX_IN_ADD,
    },
    Row {
        at: 0x10000000000,
        right: part::MAX_2,
        then: part::BEHIND_MAX_IN_ADD,
    },
    Row {
        at: 0x1,
        right: part::MAX_3,
        then: part::BEHIND_MAX_IN_ADD,
    },
    Row {
        at: 0x4,
        right: part::MAX_4,
        then: part::BEHIND_MAX_IN_ADD,
    },
    Row {
        at: 0x10,
        right: part::MAX_5,
        then: part::BEHIND_MAX_IN_ADD,
    },
    Row {
        at: 0x40,
        right: part::MAX_6,
        then: part::BEHIND_MAX_IN_ADD,
    },
    Row {
        at: 0x40000000000,
        right: part::MAX_7,
        then: part::BEHIND_MAX_IN_ADD,
    },
    Row {
        at: 0x2000000000000,
        right: part::MAX_8,
        then: part::BEHIND_MAX_IN_ADD,
    },
    Row {
        at: 0x80000000000,
        right: part::MAX_9,
        then: part::BEHIND_MAX_IN_ADD,
    },
    Row {
        at: 0x10000000000000,
        right: part::MAX_10,
        then: part::BEHIND_MAX_IN_ADD,
    },
    Row {
        at: 0x20000000000000,
        right: part::MAX_11,
        then: part::BEHIND_MAX_IN_ADD,
    },
    Row {
        at: 0x4000000000000,
        right: part::MAX_12,
        then: part::BEHIND_MAX_IN_ADD,
    },
    Row {
        at: 0x1000000000000,
        right: part::MAX_13,
        then: part::BEHIND_MAX_IN_ADD,
    },
];

pub const MUL: &[Row<RuleName, Action>] = &[
    Row {
        at: 0x118000000,
        right: part::UNARY_1,
        then: part::BEHIND_UNARY_IN_MUL,
    },
    Row {
        at: 0x80000,
        right: part::UNARY_2,
        then: part::BEHIND_UNARY_IN_MUL,
    },
    Row {
        at: 0xf800000000,
        right: part::MAX_1,
        then: part::BEHIND_MAX_IN_MUL,
    },
    Row {
        at: 0x10000000000,
        right: part::MAX_2,
        then: part::BEHIND_MAX_IN_MUL,
    },
    Row {
        at: 0x1,
        right: part::MAX_3,
        then: part::BEHIND_MAX_IN_MUL,
    },
    Row {
        at: 0x4,
        right: part::MAX_4,
        then: part::BEHIND_MAX_IN_MUL,
    },
    Row {
        at: 0x10,
        right: part::MAX_5,
        then: part::BEHIND_MAX_IN_MUL,
    },
    Row {
        at: 0x40,
        right: part::MAX_6,
        then: part::BEHIND_MAX_IN_MUL,
    },
    Row {
        at: 0x40000000000,
        right: part::MAX_7,
        then: part::BEHIND_MAX_IN_MUL,
    },
    Row {
        at: 0x2000000000000,
        right: part::MAX_8,
        then: part::BEHIND_MAX_IN_MUL,
    },
    Row {
        at: 0x80000000000,
        right: part::MAX_9,
        then: part::BEHIND_MAX_IN_MUL,
    },
    Row {
        at: 0x10000000000000,
        right: part::MAX_10,
        then: part::BEHIND_MAX_IN_MUL,
    },
    Row {
        at: 0x20000000000000,
        right: part::MAX_11,
        then: part::BEHIND_MAX_IN_MUL,
    },
    Row {
        at: 0x4000000000000,
        right: part::MAX_12,
        then: part::BEHIND_MAX_IN_MUL,
    },
    Row {
        at: 0x1000000000000,
        right: part::MAX_13,
        then: part::BEHIND_MAX_IN_MUL,
    },
];

pub const UNARY: &[Row<RuleName, Action>] = &[
    Row {
        at: 0x118000000,
        right: part::UNARY_1,
        then: part::NOTHING,
    },
    Row {
        at: 0x80000,
        right: part::UNARY_2,
        then: part::NOTHING,
    },
    Row {
        at: 0xf800000000,
        right: part::MAX_1,
        then: part::BEHIND_MAX_IN_UNARY,
    },
    Row {
        at: 0x10000000000,
        right: part::MAX_2,
        then: part::BEHIND_MAX_IN_UNARY,
    },
    Row {
        at: 0x1,
        right: part::MAX_3,
        then: part::BEHIND_MAX_IN_UNARY,
    },
    Row {
        at: 0x4,
        right: part::MAX_4,
        then: part::BEHIND_MAX_IN_UNARY,
    },
    Row {
        at: 0x10,
        right: part::MAX_5,
        then: part::BEHIND_MAX_IN_UNARY,
    },
    Row {
        at: 0x40,
        right: part::MAX_6,
        then: part::BEHIND_MAX_IN_UNARY,
    },
    Row {
        at: 0x40000000000,
        right: part::MAX_7,
        then: part::BEHIND_MAX_IN_UNARY,
    },
    Row {
        at: 0x2000000000000,
        right: part::MAX_8,
        then: part::BEHIND_MAX_IN_UNARY,
    },
    Row {
        at: 0x80000000000,
        right: part::MAX_9,
        then: part::BEHIND_MAX_IN_UNARY,
    },
    Row {
        at: 0x10000000000000,
        right: part::MAX_10,
        then: part::BEHIND_MAX_IN_UNARY,
    },
    Row {
        at: 0x20000000000000,
        right: part::MAX_11,
        then: part::BEHIND_MAX_IN_UNARY,
    },
    Row {
        at: 0x4000000000000,
        right: part::MAX_12,
        then: part::BEHIND_MAX_IN_UNARY,
    },
    Row {
        at: 0x1000000000000,
        right: part::MAX_13,
        then: part::BEHIND_MAX_IN_UNARY,
    },
];
