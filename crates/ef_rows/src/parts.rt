// Parts that rows share.

use crate::classes;
use crate::rows::{Action, RuleName};
use ef_grammar::Symbol::{Act, Rule, Token};
use ef_grammar::{Piece, Symbol};

pub const NOTHING: Piece<'static, RuleName, Action> = Piece {
    symbols: &[],
    pass: 0,
};

pub const EXPRESSION_1: &[Symbol<RuleName, Action>] = &[
    Token(classes::ANY_CATCH),
    Rule(RuleName::Expression),
    Act(Action::Catching),
];

pub const UNARY_1: &[Symbol<RuleName, Action>] = &[
    Token(classes::UNARY_OP),
    Rule(RuleName::Unary),
    Act(Action::Unary),
];

pub const BEHIND_UNARY_IN_EXPRESSION: Piece<'static, RuleName, Action> = Piece {
    symbols: &[
        Rule(RuleName::MulTail),
        Rule(RuleName::AddTail),
        Rule(RuleName::ListTail),
        Rule(RuleName::CmpTail),
        Rule(RuleName::AndalsoTail),
        Rule(RuleName::OrelseTail),
        Rule(RuleName::MatchTail),
    ],
    pass: 0x148f2000087e9aa,
};

pub const UNARY_2: &[Symbol<RuleName, Action>] = &[
    Token(1 << classes::HASH),
    Token(1 << classes::ATOM),
    Rule(RuleName::RecordNew),
    Rule(RuleName::RecordMore),
];

pub const MAX_1: &[Symbol<RuleName, Action>] = &[Token(classes::SINGLE), Act(Action::Leaf)];

pub const BEHIND_MAX_IN_EXPRESSION: Piece<'static, RuleName, Action> = Piece {
    symbols: &[
        Rule(RuleName::MaxTail),
        Rule(RuleName::MulTail),
        Rule(RuleName::AddTail),
        Rule(RuleName::ListTail),
        Rule(RuleName::CmpTail),
        Rule(RuleName::AndalsoTail),
        Rule(RuleName::OrelseTail),
        Rule(RuleName::MatchTail),
    ],
    pass: 0x148f2000087e9aa,
};

pub const MAX_2: &[Symbol<RuleName, Action>] = &[
    Token(1 << classes::STR),
    Act(Action::Leaf),
    Rule(RuleName::Strings),
];

pub const MAX_3: &[Symbol<RuleName, Action>] = &[
    Token(1 << classes::LEFT_PAREN),
    Rule(RuleName::Expression),
    Token(1 << classes::RIGHT_PAREN),
    Act(Action::Parens),
];

pub const MAX_4: &[Symbol<RuleName, Action>] = &[
    Token(1 << classes::LEFT_BRACKET),
    Act(Action::None),
    Rule(RuleName::ListRest),
];

pub const MAX_5: &[Symbol<RuleName, Action>] = &[
    Token(1 << classes::LEFT_BRACE),
    Act(Action::None),
    Rule(RuleName::TupleRest),
];

pub const MAX_6: &[Symbol<RuleName, Action>] = &[
    Token(1 << classes::LEFT_BITS),
    Act(Action::NoSegments),
    Rule(RuleName::BinRest),
];

pub const MAX_7: &[Symbol<RuleName, Action>] = &[
    Token(1 << classes::BEGIN),
    Rule(RuleName::Body),
    Token(1 << classes::END),
    Act(Action::Block),
];

pub const MAX_8: &[Symbol<RuleName, Action>] = &[
    Token(1 << classes::IF),
    Rule(RuleName::IfClauses),
    Token(1 << classes::END),
    Act(Action::IfOf),
];

pub const MAX_9: &[Symbol<RuleName, Action>] = &[
    Token(1 << classes::CASE),
    Rule(RuleName::Expression),
    Token(1 << classes::OF),
    Rule(RuleName::Clauses),
    Token(1 << classes::END),
    Act(Action::CaseOf),
];

pub const MAX_10: &[Symbol<RuleName, Action>] = &[
    Token(1 << classes::RECEIVE),
    Rule(RuleName::ReceiveRest),
];

pub const MAX_11: &[Symbol<RuleName, Action>] = &[
    Token(1 << classes::TRY),
    Rule(RuleName::Body),
    Rule(RuleName::TryOf),
];

pub const MAX_12: &[Symbol<RuleName, Action>] = &[
    Token(1 << classes::MAYBE),
    Act(Action::NoSteps),
    Rule(RuleName::Step),
    Rule(RuleName::StepsMore),
    Rule(RuleName::MaybeElse),
];

pub const MAX_13: &[Symbol<RuleName, Action>] = &[
    Token(1 << classes::FUN),
    Act(Action::NoClauses),
    Rule(RuleName::FunRest),
];

pub const BEHIND_UNARY_IN_MATCH: Piece<'static, RuleName, Action> = Piece {
    symbols: &[
        Rule(RuleName::MulTail),
        Rule(RuleName::AddTail),
        Rule(RuleName::ListTail),
        Rule(RuleName::CmpTail),
        Rule(RuleName::AndalsoTail),
        Rule(RuleName::OrelseTail),
        Rule(RuleName::MatchTail),
    ],
    pass: 0x148f2000087e9aa,
};

pub const BEHIND_MAX_IN_MATCH: Piece<'static, RuleName, Action> = Piece {
    symbols: &[
        Rule(RuleName::MaxTail),
        Rule(RuleName::MulTail),
        Rule(RuleName::AddTail),
        Rule(RuleName::ListTail),
        Rule(RuleName::CmpTail),
        Rule(RuleName::AndalsoTail),
        Rule(RuleName::OrelseTail),
        Rule(RuleName::MatchTail),
    ],
    pass: 0x148f2000087e9aa,
};

pub const BEHIND_UNARY_IN_ORELSE: Piece<'static, RuleName, Action> = Piece {
    symbols: &[
        Rule(RuleName::MulTail),
        Rule(RuleName::AddTail),
        Rule(RuleName::ListTail),
        Rule(RuleName::CmpTail),
        Rule(RuleName::AndalsoTail),
        Rule(RuleName::OrelseTail),
    ],
    pass: 0x148f20000f7e9aa,
};

pub const BEHIND_MAX_IN_ORELSE: Piece<'static, RuleName, Action> = Piece {
    symbols: &[
        Rule(RuleName::MaxTail),
        Rule(RuleName::MulTail),
        Rule(RuleName::AddTail),
        Rule(RuleName::ListTail),
        Rule(RuleName::CmpTail),
        Rule(RuleName::AndalsoTail),
        Rule(RuleName::OrelseTail),
    ],
    pass: 0x148f20000f7e9aa,
};

pub const BEHIND_UNARY_IN_ANDALSO: Piece<'static, RuleName, Action> = Piece {
    symbols: &[
        Rule(RuleName::MulTail),
        Rule(RuleName::AddTail),
        Rule(RuleName::ListTail),
        Rule(RuleName::CmpTail),
        Rule(RuleName::AndalsoTail),
    ],
    pass: 0x148f20400f7e9aa,
};

pub const BEHIND_MAX_IN_ANDALSO: Piece<'static, RuleName, Action> = Piece {
    symbols: &[
        Rule(RuleName::MaxTail),
        Rule(RuleName::MulTail),
        Rule(RuleName::AddTail),
        Rule(RuleName::ListTail),
        Rule(RuleName::CmpTail),
        Rule(RuleName::AndalsoTail),
    ],
    pass: 0x148f20400f7e9aa,
};

pub const BEHIND_UNARY_IN_CMP: Piece<'static, RuleName, Action> = Piece {
    symbols: &[
        Rule(RuleName::MulTail),
        Rule(RuleName::AddTail),
        Rule(RuleName::ListTail),
        Rule(RuleName::CmpTail),
    ],
    pass: 0x148f20600f7e9aa,
};

pub const BEHIND_MAX_IN_CMP: Piece<'static, RuleName, Action> = Piece {
    symbols: &[
        Rule(RuleName::MaxTail),
        Rule(RuleName::MulTail),
        Rule(RuleName::AddTail),
        Rule(RuleName::ListTail),
        Rule(RuleName::CmpTail),
    ],
    pass: 0x148f20600f7e9aa,
};

pub const BEHIND_UNARY_IN_LIST: Piece<'static, RuleName, Action> = Piece {
    symbols: &[
        Rule(RuleName::MulTail),
        Rule(RuleName::AddTail),
        Rule(RuleName::ListTail),
    ],
    pass: 0x148f20602f7e9aa,
};

pub const BEHIND_MAX_IN_LIST: Piece<'static, RuleName, Action> = Piece {
    symbols: &[
        Rule(RuleName::MaxTail),
        Rule(RuleName::MulTail),
        Rule(RuleName::AddTail),
        Rule(RuleName::ListTail),
    ],
    pass: 0x148f20602f7e9aa,
};

pub const BEHIND_UNARY_IN_ADD: Piece<'static, RuleName, Action> = Piece {
    symbols: &[Rule(RuleName::MulTail), Rule(RuleName::AddTail)],
    pass: 0x148f20606f7e9aa,
};

pub const BEHIND_MAX_IN_ADD: Piece<'static, RuleName, Action> = Piece {
    symbols: &[
        Rule(RuleName::MaxTail),
        Rule(RuleName::MulTail),
        Rule(RuleName::AddTail),
    ],
    pass: 0x148f20606f7e9aa,
};

pub const BEHIND_UNARY_IN_MUL: Piece<'static, RuleName, Action> = Piece {
    symbols: &[Rule(RuleName::MulTail)],
    pass: 0x148f2063ef7e9aa,
};

pub const BEHIND_MAX_IN_MUL: Piece<'static, RuleName, Action> = Piece {
    symbols: &[Rule(RuleName::MaxTail), Rule(RuleName::MulTail)],
    pass: 0x148f2063ef7e9aa,
};

pub const BEHIND_MAX_IN_UNARY: Piece<'static, RuleName, Action> = Piece {
    symbols: &[Rule(RuleName::MaxTail)],
    pass: 0x148f206fef7e9aa,
};
