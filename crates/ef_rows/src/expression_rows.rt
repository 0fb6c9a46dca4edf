// The rows of the grammar: expression.

use crate::classes;
use crate::parts::NOTHING;
use crate::rows::{Action, RuleName};
use ef_grammar::Row;
use ef_grammar::Symbol::{Act, Rule, Token};

pub const MATCH_TAIL: &[Row<RuleName, Action>] = &[
    Row {
        at: 0x100000,
        right: &[
            Token(1 << classes::EQUALS),
            Rule(RuleName::Expression),
            Act(Action::Matching),
        ],
        then: NOTHING,
    },
    Row {
        at: 0x200000,
        right: &[
            Token(1 << classes::BANG),
            Rule(RuleName::Expression),
            Act(Action::Binary),
        ],
        then: NOTHING,
    },
    Row {
        at: 0x148f2000087e9aa,
        right: &[],
        then: NOTHING,
    },
];

pub const ORELSE_TAIL: &[Row<RuleName, Action>] = &[
    Row {
        at: 0x400000000,
        right: &[
            Token(1 << classes::ORELSE),
            Rule(RuleName::Orelse),
            Act(Action::OrElse),
        ],
        then: NOTHING,
    },
    Row {
        at: 0x148f20000f7e9aa,
        right: &[],
        then: NOTHING,
    },
];

pub const ANDALSO_TAIL: &[Row<RuleName, Action>] = &[
    Row {
        at: 0x200000000,
        right: &[
            Token(1 << classes::ANDALSO),
            Rule(RuleName::Andalso),
            Act(Action::AndAlso),
        ],
        then: NOTHING,
    },
    Row {
        at: 0x148f20400f7e9aa,
        right: &[],
        then: NOTHING,
    },
];

pub const CMP_TAIL: &[Row<RuleName, Action>] = &[
    Row {
        at: 0x2000000,
        right: &[
            Token(1 << classes::CMP_OP),
            Rule(RuleName::List),
            Act(Action::Binary),
        ],
        then: NOTHING,
    },
    Row {
        at: 0x148f20600f7e9aa,
        right: &[],
        then: NOTHING,
    },
];

pub const LIST_TAIL: &[Row<RuleName, Action>] = &[
    Row {
        at: 0x4000000,
        right: &[
            Token(1 << classes::LIST_OP),
            Rule(RuleName::List),
            Act(Action::Binary),
        ],
        then: NOTHING,
    },
    Row {
        at: 0x148f20602f7e9aa,
        right: &[],
        then: NOTHING,
    },
];

pub const ADD_TAIL: &[Row<RuleName, Action>] = &[
    Row {
        at: 0x38000000,
        right: &[
            Token(classes::ADD_OP),
            Rule(RuleName::Mul),
            Act(Action::Binary),
            Rule(RuleName::AddTail),
        ],
        then: NOTHING,
    },
    Row {
        at: 0x148f20606f7e9aa,
        right: &[],
        then: NOTHING,
    },
];

pub const MUL_TAIL: &[Row<RuleName, Action>] = &[
    Row {
        at: 0xc0000000,
        right: &[
            Token(classes::MUL_OP),
            Rule(RuleName::Unary),
            Act(Action::Binary),
            Rule(RuleName::MulTail),
        ],
        then: NOTHING,
    },
    Row {
        at: 0x148f2063ef7e9aa,
        right: &[],
        then: NOTHING,
    },
];

pub const MAX_TAIL: &[Row<RuleName, Action>] = &[
    Row {
        at: 0x1,
        right: &[
            Token(1 << classes::LEFT_PAREN),
            Act(Action::None),
            Rule(RuleName::Args),
            Act(Action::Call),
            Rule(RuleName::TraceTail),
        ],
        then: NOTHING,
    },
    Row {
        at: 0x200,
        right: &[
            Token(1 << classes::COLON),
            Rule(RuleName::Max),
            Token(1 << classes::LEFT_PAREN),
            Act(Action::None),
            Rule(RuleName::Args),
            Act(Action::Remote),
            Rule(RuleName::TraceTail),
        ],
        then: NOTHING,
    },
    Row {
        at: 0x400,
        right: &[
            Token(1 << classes::COLON_END),
            Token(classes::VARIABLE),
            Act(Action::Trace),
        ],
        then: NOTHING,
    },
    Row {
        at: 0x80000,
        right: &[
            Token(1 << classes::HASH),
            Token(1 << classes::ATOM),
            Rule(RuleName::RecordUse),
            Rule(RuleName::RecordMore),
        ],
        then: NOTHING,
    },
    Row {
        at: 0x148f206fef7e9aa,
        right: &[],
        then: NOTHING,
    },
];

pub const RECORD_MORE: &[Row<RuleName, Action>] = &[
    Row {
        at: 0x80000,
        right: &[
            Token(1 << classes::HASH),
            Token(1 << classes::ATOM),
            Rule(RuleName::RecordUse),
            Rule(RuleName::RecordMore),
        ],
        then: NOTHING,
    },
    Row {
        at: 0x148f206fef7efaa,
        right: &[Rule(RuleName::TraceTail)],
        then: NOTHING,
    },
];

pub const RECORD_NEW: &[Row<RuleName, Action>] = &[
    Row {
        at: 0x10,
        right: &[
            Token(1 << classes::LEFT_BRACE),
            Rule(RuleName::Fields),
            Act(Action::RecordNew),
        ],
        then: NOTHING,
    },
    Row {
        at: 0x1000,
        right: &[
            Token(1 << classes::POINT),
            Token(1 << classes::ATOM),
            Act(Action::RecordIndex),
        ],
        then: NOTHING,
    },
];

pub const RECORD_USE: &[Row<RuleName, Action>] = &[
    Row {
        at: 0x10,
        right: &[
            Token(1 << classes::LEFT_BRACE),
            Rule(RuleName::Fields),
            Act(Action::RecordUpdate),
        ],
        then: NOTHING,
    },
    Row {
        at: 0x1000,
        right: &[
            Token(1 << classes::POINT),
            Token(1 << classes::ATOM),
            Act(Action::RecordField),
        ],
        then: NOTHING,
    },
];

pub const FIELDS: &[Row<RuleName, Action>] = &[Row {
    at: 0x2800000020,
    right: &[Act(Action::NoFields), Rule(RuleName::FieldsRest)],
    then: NOTHING,
}];

pub const FIELDS_REST: &[Row<RuleName, Action>] = &[
    Row {
        at: 0x20,
        right: &[Token(1 << classes::RIGHT_BRACE)],
        then: NOTHING,
    },
    Row {
        at: 0x2800000000,
        right: &[Rule(RuleName::Field), Rule(RuleName::FieldsMore)],
        then: NOTHING,
    },
];

pub const FIELDS_MORE: &[Row<RuleName, Action>] = &[
    Row {
        at: 0x100,
        right: &[
            Token(1 << classes::COMMA),
            Rule(RuleName::Field),
            Rule(RuleName::FieldsMore),
        ],
        then: NOTHING,
    },
    Row {
        at: 0x20,
        right: &[Token(1 << classes::RIGHT_BRACE)],
        then: NOTHING,
    },
];

pub const FIELD: &[Row<RuleName, Action>] = &[
    Row {
        at: 0x800000000,
        right: &[
            Token(1 << classes::ATOM),
            Token(1 << classes::EQUALS),
            Rule(RuleName::Expression),
            Act(Action::Field),
        ],
        then: NOTHING,
    },
    Row {
        at: 0x2000000000,
        right: &[
            Token(1 << classes::ANY),
            Token(1 << classes::EQUALS),
            Rule(RuleName::Expression),
            Act(Action::Field),
        ],
        then: NOTHING,
    },
];

pub const TRACE_TAIL: &[Row<RuleName, Action>] = &[
    Row {
        at: 0x400,
        right: &[
            Act(Action::MayTrace),
            Token(1 << classes::COLON_END),
            Token(classes::VARIABLE),
            Act(Action::Trace),
        ],
        then: NOTHING,
    },
    Row {
        at: 0x200,
        right: &[
            Act(Action::MayTrace),
            Token(1 << classes::COLON),
            Token(classes::VARIABLE),
            Act(Action::Refuse),
        ],
        then: NOTHING,
    },
    Row {
        at: 0x148f206fef7e9aa,
        right: &[],
        then: NOTHING,
    },
];

pub const MAX: &[Row<RuleName, Action>] = &[
    Row {
        at: 0xf800000000,
        right: &[Token(classes::SINGLE), Act(Action::Leaf)],
        then: NOTHING,
    },
    Row {
        at: 0x10000000000,
        right: &[
            Token(1 << classes::STR),
            Act(Action::Leaf),
            Rule(RuleName::Strings),
        ],
        then: NOTHING,
    },
    Row {
        at: 0x1,
        right: &[
            Token(1 << classes::LEFT_PAREN),
            Rule(RuleName::Expression),
            Token(1 << classes::RIGHT_PAREN),
            Act(Action::Parens),
        ],
        then: NOTHING,
    },
    Row {
        at: 0x4,
        right: &[
            Token(1 << classes::LEFT_BRACKET),
            Act(Action::None),
            Rule(RuleName::ListRest),
        ],
        then: NOTHING,
    },
    Row {
        at: 0x10,
        right: &[
            Token(1 << classes::LEFT_BRACE),
            Act(Action::None),
            Rule(RuleName::TupleRest),
        ],
        then: NOTHING,
    },
    Row {
        at: 0x40,
        right: &[
            Token(1 << classes::LEFT_BITS),
            Act(Action::NoSegments),
            Rule(RuleName::BinRest),
        ],
        then: NOTHING,
    },
    Row {
        at: 0x40000000000,
        right: &[
            Token(1 << classes::BEGIN),
            Rule(RuleName::Body),
            Token(1 << classes::END),
            Act(Action::Block),
        ],
        then: NOTHING,
    },
    Row {
        at: 0x2000000000000,
        right: &[
            Token(1 << classes::IF),
            Rule(RuleName::IfClauses),
            Token(1 << classes::END),
            Act(Action::IfOf),
        ],
        then: NOTHING,
    },
    Row {
        at: 0x80000000000,
        right: &[
            Token(1 << classes::CASE),
            Rule(RuleName::Expression),
            Token(1 << classes::OF),
            Rule(RuleName::Clauses),
            Token(1 << classes::END),
            Act(Action::CaseOf),
        ],
        then: NOTHING,
    },
    Row {
        at: 0x10000000000000,
        right: &[Token(1 << classes::RECEIVE), Rule(RuleName::ReceiveRest)],
        then: NOTHING,
    },
    Row {
        at: 0x20000000000000,
        right: &[
            Token(1 << classes::TRY),
            Rule(RuleName::Body),
            Rule(RuleName::TryOf),
        ],
        then: NOTHING,
    },
    Row {
        at: 0x4000000000000,
        right: &[
            Token(1 << classes::MAYBE),
            Act(Action::NoSteps),
            Rule(RuleName::Step),
            Rule(RuleName::StepsMore),
            Rule(RuleName::MaybeElse),
        ],
        then: NOTHING,
    },
    Row {
        at: 0x1000000000000,
        right: &[
            Token(1 << classes::FUN),
            Act(Action::NoClauses),
            Rule(RuleName::FunRest),
        ],
        then: NOTHING,
    },
];

pub const STRINGS: &[Row<RuleName, Action>] = &[
    Row {
        at: 0x10000000000,
        right: &[
            Token(1 << classes::STR),
            Act(Action::Join),
            Rule(RuleName::Strings),
        ],
        then: NOTHING,
    },
    Row {
        at: 0x148f206ffffefab,
        right: &[],
        then: NOTHING,
    },
];

pub const LIST_REST: &[Row<RuleName, Action>] = &[
    Row {
        at: 0x8,
        right: &[Token(1 << classes::RIGHT_BRACKET), Act(Action::List)],
        then: NOTHING,
    },
    Row {
        at: 0x373df918080055,
        right: &[Rule(RuleName::Expression), Rule(RuleName::ListFirst)],
        then: NOTHING,
    },
];

pub const LIST_FIRST: &[Row<RuleName, Action>] = &[
    Row {
        at: 0x40000,
        right: &[
            Token(1 << classes::DOUBLE_BAR),
            Rule(RuleName::Qualifiers),
            Token(1 << classes::RIGHT_BRACKET),
            Act(Action::ListComp),
        ],
        then: NOTHING,
    },
    Row {
        at: 0x20108,
        right: &[Act(Action::Add), Rule(RuleName::ListMore)],
        then: NOTHING,
    },
];

pub const LIST_MORE: &[Row<RuleName, Action>] = &[
    Row {
        at: 0x100,
        right: &[
            Token(1 << classes::COMMA),
            Rule(RuleName::Expression),
            Act(Action::Add),
            Rule(RuleName::ListMore),
        ],
        then: NOTHING,
    },
    Row {
        at: 0x20000,
        right: &[
            Token(1 << classes::BAR),
            Rule(RuleName::Expression),
            Token(1 << classes::RIGHT_BRACKET),
            Act(Action::ListTo),
        ],
        then: NOTHING,
    },
    Row {
        at: 0x8,
        right: &[Token(1 << classes::RIGHT_BRACKET), Act(Action::List)],
        then: NOTHING,
    },
];

pub const TUPLE_REST: &[Row<RuleName, Action>] = &[
    Row {
        at: 0x20,
        right: &[Token(1 << classes::RIGHT_BRACE), Act(Action::Tuple)],
        then: NOTHING,
    },
    Row {
        at: 0x373df918080055,
        right: &[
            Rule(RuleName::Expression),
            Act(Action::Add),
            Rule(RuleName::TupleMore),
        ],
        then: NOTHING,
    },
];

pub const TUPLE_MORE: &[Row<RuleName, Action>] = &[
    Row {
        at: 0x100,
        right: &[
            Token(1 << classes::COMMA),
            Rule(RuleName::Expression),
            Act(Action::Add),
            Rule(RuleName::TupleMore),
        ],
        then: NOTHING,
    },
    Row {
        at: 0x20,
        right: &[Token(1 << classes::RIGHT_BRACE), Act(Action::Tuple)],
        then: NOTHING,
    },
];

pub const ARGS: &[Row<RuleName, Action>] = &[
    Row {
        at: 0x2,
        right: &[Token(1 << classes::RIGHT_PAREN)],
        then: NOTHING,
    },
    Row {
        at: 0x373df918080055,
        right: &[
            Rule(RuleName::Expression),
            Act(Action::Add),
            Rule(RuleName::ArgsMore),
        ],
        then: NOTHING,
    },
];

pub const ARGS_MORE: &[Row<RuleName, Action>] = &[
    Row {
        at: 0x100,
        right: &[
            Token(1 << classes::COMMA),
            Rule(RuleName::Expression),
            Act(Action::Add),
            Rule(RuleName::ArgsMore),
        ],
        then: NOTHING,
    },
    Row {
        at: 0x2,
        right: &[Token(1 << classes::RIGHT_PAREN)],
        then: NOTHING,
    },
];

pub const BODY: &[Row<RuleName, Action>] = &[Row {
    at: 0x373df918080055,
    right: &[
        Act(Action::None),
        Rule(RuleName::Expression),
        Act(Action::Add),
        Rule(RuleName::BodyMore),
    ],
    then: NOTHING,
}];

pub const BODY_MORE: &[Row<RuleName, Action>] = &[
    Row {
        at: 0x100,
        right: &[
            Token(1 << classes::COMMA),
            Rule(RuleName::Expression),
            Act(Action::Add),
            Rule(RuleName::BodyMore),
        ],
        then: NOTHING,
    },
    Row {
        at: 0x108b2000001e000,
        right: &[],
        then: NOTHING,
    },
];
