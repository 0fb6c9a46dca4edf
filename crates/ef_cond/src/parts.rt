// Parts that rows share.

use crate::classes;
use crate::rows::{Action, RuleName};
use ef_grammar::Symbol::{Act, Rule, Token};
use ef_grammar::{Piece, Symbol};

pub const NOTHING: Piece<'static, RuleName, Action> = Piece {
    symbols: &[],
    pass: 0,
};

pub const UNARY_1: &[Symbol<RuleName, Action>] = &[
    Token(classes::UNARY_OP),
    Rule(RuleName::Unary),
    Act(Action::Unary),
];

pub const BEHIND_UNARY_IN_ORELSE: Piece<'static, RuleName, Action> = Piece {
    symbols: &[
        Rule(RuleName::MulTail),
        Rule(RuleName::AddTail),
        Rule(RuleName::ComparisonTail),
        Rule(RuleName::AndalsoTail),
        Rule(RuleName::OrelseTail),
    ],
    pass: 0x2002,
};

pub const MAX_1: &[Symbol<RuleName, Action>] = &[Token(1 << classes::INT)];

pub const BEHIND_MAX_IN_ORELSE: Piece<'static, RuleName, Action> = Piece {
    symbols: &[
        Rule(RuleName::MulTail),
        Rule(RuleName::AddTail),
        Rule(RuleName::ComparisonTail),
        Rule(RuleName::AndalsoTail),
        Rule(RuleName::OrelseTail),
    ],
    pass: 0x2002,
};

pub const MAX_2: &[Symbol<RuleName, Action>] = &[Token(1 << classes::ATOM)];

pub const MAX_3: &[Symbol<RuleName, Action>] = &[
    Token(1 << classes::LEFT_PAREN),
    Rule(RuleName::Orelse),
    Token(1 << classes::RIGHT_PAREN),
    Act(Action::Parens),
];

pub const BEHIND_UNARY_IN_ANDALSO: Piece<'static, RuleName, Action> = Piece {
    symbols: &[
        Rule(RuleName::MulTail),
        Rule(RuleName::AddTail),
        Rule(RuleName::ComparisonTail),
        Rule(RuleName::AndalsoTail),
    ],
    pass: 0x2802,
};

pub const BEHIND_MAX_IN_ANDALSO: Piece<'static, RuleName, Action> = Piece {
    symbols: &[
        Rule(RuleName::MulTail),
        Rule(RuleName::AddTail),
        Rule(RuleName::ComparisonTail),
        Rule(RuleName::AndalsoTail),
    ],
    pass: 0x2802,
};

pub const BEHIND_UNARY_IN_COMPARISON: Piece<'static, RuleName, Action> = Piece {
    symbols: &[
        Rule(RuleName::MulTail),
        Rule(RuleName::AddTail),
        Rule(RuleName::ComparisonTail),
    ],
    pass: 0x2c02,
};

pub const BEHIND_MAX_IN_COMPARISON: Piece<'static, RuleName, Action> = Piece {
    symbols: &[
        Rule(RuleName::MulTail),
        Rule(RuleName::AddTail),
        Rule(RuleName::ComparisonTail),
    ],
    pass: 0x2c02,
};

pub const BEHIND_UNARY_IN_ADD: Piece<'static, RuleName, Action> = Piece {
    symbols: &[Rule(RuleName::MulTail), Rule(RuleName::AddTail)],
    pass: 0x2e02,
};

pub const BEHIND_MAX_IN_ADD: Piece<'static, RuleName, Action> = Piece {
    symbols: &[Rule(RuleName::MulTail), Rule(RuleName::AddTail)],
    pass: 0x2e02,
};

pub const BEHIND_UNARY_IN_MUL: Piece<'static, RuleName, Action> = Piece {
    symbols: &[Rule(RuleName::MulTail)],
    pass: 0x2f32,
};

pub const BEHIND_MAX_IN_MUL: Piece<'static, RuleName, Action> = Piece {
    symbols: &[Rule(RuleName::MulTail)],
    pass: 0x2f32,
};
