// The rows of the grammar: condition.

use crate::classes;
use crate::parts::NOTHING;
use crate::rows::{Action, RuleName};
use ef_grammar::Row;
use ef_grammar::Symbol::{Act, Rule, Token};

pub const ORELSE_TAIL: &[Row<RuleName, Action>] = &[
    Row {
        at: 0x800,
        right: &[
            Token(1 << classes::ORELSE),
            Rule(RuleName::Orelse),
            Act(Action::OrElse),
        ],
        then: NOTHING,
    },
    Row {
        at: 0x2002,
        right: &[],
        then: NOTHING,
    },
];

pub const ANDALSO_TAIL: &[Row<RuleName, Action>] = &[
    Row {
        at: 0x400,
        right: &[
            Token(1 << classes::ANDALSO),
            Rule(RuleName::Andalso),
            Act(Action::AndAlso),
        ],
        then: NOTHING,
    },
    Row {
        at: 0x2802,
        right: &[],
        then: NOTHING,
    },
];

pub const COMPARISON_TAIL: &[Row<RuleName, Action>] = &[
    Row {
        at: 0x200,
        right: &[
            Token(1 << classes::CMP_OP),
            Rule(RuleName::Add),
            Act(Action::Binary),
        ],
        then: NOTHING,
    },
    Row {
        at: 0x2c02,
        right: &[],
        then: NOTHING,
    },
];

pub const ADD_TAIL: &[Row<RuleName, Action>] = &[
    Row {
        at: 0x130,
        right: &[
            Token(classes::ADD_OP),
            Rule(RuleName::Mul),
            Act(Action::Binary),
            Rule(RuleName::AddTail),
        ],
        then: NOTHING,
    },
    Row {
        at: 0x2e02,
        right: &[],
        then: NOTHING,
    },
];

pub const MUL_TAIL: &[Row<RuleName, Action>] = &[
    Row {
        at: 0x80,
        right: &[
            Token(1 << classes::MUL_OP),
            Rule(RuleName::Unary),
            Act(Action::Binary),
            Rule(RuleName::MulTail),
        ],
        then: NOTHING,
    },
    Row {
        at: 0x2f32,
        right: &[],
        then: NOTHING,
    },
];

pub const MAX: &[Row<RuleName, Action>] = &[
    Row {
        at: 0x4,
        right: &[Token(1 << classes::INT)],
        then: NOTHING,
    },
    Row {
        at: 0x8,
        right: &[Token(1 << classes::ATOM)],
        then: NOTHING,
    },
    Row {
        at: 0x1,
        right: &[
            Token(1 << classes::LEFT_PAREN),
            Rule(RuleName::Orelse),
            Token(1 << classes::RIGHT_PAREN),
            Act(Action::Parens),
        ],
        then: NOTHING,
    },
];
