// The rows of the grammar: construct.

use crate::classes;
use crate::parts::NOTHING;
use crate::rows::{Action, RuleName};
use ef_grammar::Row;
use ef_grammar::Symbol::{Act, Rule, Token};

pub const BIN_REST: &[Row<RuleName, Action>] = &[
    Row {
        at: 0x80,
        right: &[Token(1 << classes::RIGHT_BITS), Act(Action::Bin)],
        then: NOTHING,
    },
    Row {
        at: 0x118000000,
        right: &[
            Token(classes::UNARY_OP),
            Rule(RuleName::Max),
            Act(Action::Unary),
            Rule(RuleName::SegmentRest),
            Rule(RuleName::SegmentsMore),
        ],
        then: NOTHING,
    },
    Row {
        at: 0x370df800000055,
        right: &[Rule(RuleName::Max), Rule(RuleName::BinFirst)],
        then: NOTHING,
    },
];

pub const BIN_FIRST: &[Row<RuleName, Action>] = &[
    Row {
        at: 0x40000,
        right: &[
            Token(1 << classes::DOUBLE_BAR),
            Rule(RuleName::Qualifiers),
            Token(1 << classes::RIGHT_BITS),
            Act(Action::BinComp),
        ],
        then: NOTHING,
    },
    Row {
        at: 0x40000780,
        right: &[Rule(RuleName::SegmentRest), Rule(RuleName::SegmentsMore)],
        then: NOTHING,
    },
];

pub const SEGMENTS_MORE: &[Row<RuleName, Action>] = &[
    Row {
        at: 0x100,
        right: &[
            Token(1 << classes::COMMA),
            Rule(RuleName::Segment),
            Rule(RuleName::SegmentsMore),
        ],
        then: NOTHING,
    },
    Row {
        at: 0x80,
        right: &[Token(1 << classes::RIGHT_BITS), Act(Action::Bin)],
        then: NOTHING,
    },
];

pub const SEGMENT: &[Row<RuleName, Action>] = &[
    Row {
        at: 0x118000000,
        right: &[
            Token(classes::UNARY_OP),
            Rule(RuleName::Max),
            Act(Action::Unary),
            Rule(RuleName::SegmentRest),
        ],
        then: NOTHING,
    },
    Row {
        at: 0x370df800000055,
        right: &[Rule(RuleName::Max), Rule(RuleName::SegmentRest)],
        then: NOTHING,
    },
];

pub const SEGMENT_REST: &[Row<RuleName, Action>] = &[Row {
    at: 0x40000780,
    right: &[
        Act(Action::Segment),
        Rule(RuleName::SegmentSize),
        Rule(RuleName::SegmentTypes),
        Act(Action::AddSegment),
    ],
    then: NOTHING,
}];

pub const SEGMENT_SIZE: &[Row<RuleName, Action>] = &[
    Row {
        at: 0x600,
        right: &[
            Token(classes::ANY_COLON),
            Rule(RuleName::Max),
            Act(Action::Size),
        ],
        then: NOTHING,
    },
    Row {
        at: 0x40000180,
        right: &[],
        then: NOTHING,
    },
];

pub const SEGMENT_TYPES: &[Row<RuleName, Action>] = &[
    Row {
        at: 0x40000000,
        right: &[
            Token(1 << classes::SLASH),
            Rule(RuleName::Word),
            Rule(RuleName::WordsMore),
        ],
        then: NOTHING,
    },
    Row {
        at: 0x180,
        right: &[],
        then: NOTHING,
    },
];

pub const WORDS_MORE: &[Row<RuleName, Action>] = &[
    Row {
        at: 0x10000000,
        right: &[
            Token(1 << classes::MINUS),
            Rule(RuleName::Word),
            Rule(RuleName::WordsMore),
        ],
        then: NOTHING,
    },
    Row {
        at: 0x180,
        right: &[],
        then: NOTHING,
    },
];

pub const WORD: &[Row<RuleName, Action>] = &[Row {
    at: 0x800000000,
    right: &[Token(1 << classes::ATOM), Rule(RuleName::WordNumber)],
    then: NOTHING,
}];

pub const WORD_NUMBER: &[Row<RuleName, Action>] = &[
    Row {
        at: 0x600,
        right: &[
            Token(classes::ANY_COLON),
            Token(1 << classes::INT),
            Act(Action::WordNumber),
        ],
        then: NOTHING,
    },
    Row {
        at: 0x10000180,
        right: &[Act(Action::Word)],
        then: NOTHING,
    },
];

pub const QUALIFIERS: &[Row<RuleName, Action>] = &[Row {
    at: 0x373df918080055,
    right: &[
        Act(Action::NoQualifiers),
        Rule(RuleName::Qualifier),
        Rule(RuleName::QualifiersMore),
    ],
    then: NOTHING,
}];

pub const QUALIFIERS_MORE: &[Row<RuleName, Action>] = &[
    Row {
        at: 0x100,
        right: &[
            Token(1 << classes::COMMA),
            Rule(RuleName::Qualifier),
            Rule(RuleName::QualifiersMore),
        ],
        then: NOTHING,
    },
    Row {
        at: 0x88,
        right: &[],
        then: NOTHING,
    },
];

pub const QUALIFIER: &[Row<RuleName, Action>] = &[
    Row {
        at: 0x300000000000,
        right: &[
            Token(classes::ANY_CATCH),
            Rule(RuleName::Expression),
            Act(Action::Catching),
            Rule(RuleName::QualifierTail),
        ],
        then: NOTHING,
    },
    Row {
        at: 0x118000000,
        right: &[
            Token(classes::UNARY_OP),
            Rule(RuleName::Unary),
            Act(Action::Unary),
            Rule(RuleName::UnaryMore),
            Rule(RuleName::QualifierTail),
        ],
        then: NOTHING,
    },
    Row {
        at: 0x80000,
        right: &[
            Token(1 << classes::HASH),
            Token(1 << classes::ATOM),
            Rule(RuleName::RecordNew),
            Rule(RuleName::RecordMore),
            Rule(RuleName::UnaryMore),
            Rule(RuleName::QualifierTail),
        ],
        then: NOTHING,
    },
    Row {
        at: 0x370df800000055,
        right: &[Rule(RuleName::Max), Rule(RuleName::QualifierMax)],
        then: NOTHING,
    },
];

pub const QUALIFIER_MAX: &[Row<RuleName, Action>] = &[
    Row {
        at: 0x1000000,
        right: &[
            Token(1 << classes::BITS_ARROW),
            Rule(RuleName::Expression),
            Act(Action::From),
        ],
        then: NOTHING,
    },
    Row {
        at: 0x148f206feffefab,
        right: &[
            Rule(RuleName::MaxTail),
            Rule(RuleName::UnaryMore),
            Rule(RuleName::QualifierTail),
        ],
        then: NOTHING,
    },
];

pub const QUALIFIER_TAIL: &[Row<RuleName, Action>] = &[
    Row {
        at: 0x800000,
        right: &[
            Token(1 << classes::LIST_ARROW),
            Rule(RuleName::Expression),
            Act(Action::From),
        ],
        then: NOTHING,
    },
    Row {
        at: 0x188,
        right: &[Act(Action::Filter)],
        then: NOTHING,
    },
];

pub const UNARY_MORE: &[Row<RuleName, Action>] = &[Row {
    at: 0x148f206fef7e9aa,
    right: &[
        Rule(RuleName::MulTail),
        Rule(RuleName::AddTail),
        Rule(RuleName::ListTail),
        Rule(RuleName::CmpTail),
        Rule(RuleName::AndalsoTail),
        Rule(RuleName::OrelseTail),
        Rule(RuleName::MatchTail),
    ],
    then: NOTHING,
}];

pub const GUARD_OPT: &[Row<RuleName, Action>] = &[
    Row {
        at: 0x40000000000000,
        right: &[Token(1 << classes::WHEN), Rule(RuleName::Guard)],
        then: NOTHING,
    },
    Row {
        at: 0x10000,
        right: &[Act(Action::NoGuard)],
        then: NOTHING,
    },
];

pub const GUARD: &[Row<RuleName, Action>] = &[Row {
    at: 0x373df918080055,
    right: &[
        Act(Action::NoGuard),
        Rule(RuleName::Body),
        Act(Action::AddGuard),
        Rule(RuleName::GuardMore),
    ],
    then: NOTHING,
}];

pub const GUARD_MORE: &[Row<RuleName, Action>] = &[
    Row {
        at: 0xc000,
        right: &[
            Token(classes::ANY_SEMI),
            Rule(RuleName::Body),
            Act(Action::AddGuard),
            Rule(RuleName::GuardMore),
        ],
        then: NOTHING,
    },
    Row {
        at: 0x10000,
        right: &[],
        then: NOTHING,
    },
];

pub const IF_CLAUSES: &[Row<RuleName, Action>] = &[Row {
    at: 0x373df918080055,
    right: &[
        Act(Action::NoClauses),
        Rule(RuleName::IfClause),
        Rule(RuleName::IfMore),
    ],
    then: NOTHING,
}];

pub const IF_MORE: &[Row<RuleName, Action>] = &[
    Row {
        at: 0xc000,
        right: &[
            Token(classes::ANY_SEMI),
            Rule(RuleName::IfClause),
            Rule(RuleName::IfMore),
        ],
        then: NOTHING,
    },
    Row {
        at: 0x800000000000,
        right: &[],
        then: NOTHING,
    },
];

pub const IF_CLAUSE: &[Row<RuleName, Action>] = &[Row {
    at: 0x373df918080055,
    right: &[
        Rule(RuleName::Guard),
        Token(1 << classes::ARROW),
        Rule(RuleName::Body),
        Act(Action::IfClause),
    ],
    then: NOTHING,
}];

pub const CLAUSES: &[Row<RuleName, Action>] = &[Row {
    at: 0x373df918080055,
    right: &[
        Act(Action::NoClauses),
        Rule(RuleName::Clause),
        Rule(RuleName::ClausesMore),
    ],
    then: NOTHING,
}];

pub const CLAUSES_MORE: &[Row<RuleName, Action>] = &[
    Row {
        at: 0xc000,
        right: &[
            Token(classes::ANY_SEMI),
            Rule(RuleName::Clause),
            Rule(RuleName::ClausesMore),
        ],
        then: NOTHING,
    },
    Row {
        at: 0xb20000000000,
        right: &[],
        then: NOTHING,
    },
];

pub const CLAUSE: &[Row<RuleName, Action>] = &[Row {
    at: 0x373df918080055,
    right: &[
        Rule(RuleName::Expression),
        Rule(RuleName::GuardOpt),
        Token(1 << classes::ARROW),
        Rule(RuleName::Body),
        Act(Action::Clause),
    ],
    then: NOTHING,
}];

pub const RECEIVE_REST: &[Row<RuleName, Action>] = &[
    Row {
        at: 0x373df918080055,
        right: &[Rule(RuleName::Clauses), Rule(RuleName::ReceiveAfter)],
        then: NOTHING,
    },
    Row {
        at: 0x20000000000,
        right: &[
            Act(Action::NoClauses),
            Token(1 << classes::AFTER),
            Rule(RuleName::Expression),
            Token(1 << classes::ARROW),
            Rule(RuleName::Body),
            Token(1 << classes::END),
            Act(Action::ReceiveAfter),
        ],
        then: NOTHING,
    },
];

pub const RECEIVE_AFTER: &[Row<RuleName, Action>] = &[
    Row {
        at: 0x20000000000,
        right: &[
            Token(1 << classes::AFTER),
            Rule(RuleName::Expression),
            Token(1 << classes::ARROW),
            Rule(RuleName::Body),
            Token(1 << classes::END),
            Act(Action::ReceiveAfter),
        ],
        then: NOTHING,
    },
    Row {
        at: 0x800000000000,
        right: &[Token(1 << classes::END), Act(Action::ReceiveOf)],
        then: NOTHING,
    },
];

pub const TRY_OF: &[Row<RuleName, Action>] = &[
    Row {
        at: 0x8000000000000,
        right: &[
            Token(1 << classes::OF),
            Rule(RuleName::Clauses),
            Act(Action::NoCatches),
            Rule(RuleName::TryRest),
        ],
        then: NOTHING,
    },
    Row {
        at: 0x320000000000,
        right: &[
            Act(Action::NoClauses),
            Act(Action::NoCatches),
            Rule(RuleName::TryRest),
        ],
        then: NOTHING,
    },
];

pub const TRY_REST: &[Row<RuleName, Action>] = &[
    Row {
        at: 0x100000000000,
        right: &[
            Token(1 << classes::CATCH),
            Act(Action::Forget),
            Act(Action::Unclassed),
            Rule(RuleName::CatchClause),
            Rule(RuleName::CatchesMore),
            Rule(RuleName::TryAfter),
        ],
        then: NOTHING,
    },
    Row {
        at: 0x200000000000,
        right: &[
            Token(1 << classes::CATCH_NAMED),
            Act(Action::Forget),
            Rule(RuleName::Class),
            Rule(RuleName::CatchClause),
            Rule(RuleName::CatchesMore),
            Rule(RuleName::TryAfter),
        ],
        then: NOTHING,
    },
    Row {
        at: 0x20000000000,
        right: &[
            Token(1 << classes::AFTER),
            Rule(RuleName::Body),
            Token(1 << classes::END),
            Act(Action::TryOf),
        ],
        then: NOTHING,
    },
];

pub const TRY_AFTER: &[Row<RuleName, Action>] = &[
    Row {
        at: 0x20000000000,
        right: &[
            Token(1 << classes::AFTER),
            Rule(RuleName::Body),
            Token(1 << classes::END),
            Act(Action::TryOf),
        ],
        then: NOTHING,
    },
    Row {
        at: 0x800000000000,
        right: &[
            Act(Action::None),
            Token(1 << classes::END),
            Act(Action::TryOf),
        ],
        then: NOTHING,
    },
];

pub const CATCHES_MORE: &[Row<RuleName, Action>] = &[
    Row {
        at: 0x4000,
        right: &[
            Token(1 << classes::SEMI),
            Act(Action::Unclassed),
            Rule(RuleName::CatchClause),
            Rule(RuleName::CatchesMore),
        ],
        then: NOTHING,
    },
    Row {
        at: 0x8000,
        right: &[
            Token(1 << classes::SEMI_NAMED),
            Rule(RuleName::Class),
            Rule(RuleName::CatchClause),
            Rule(RuleName::CatchesMore),
        ],
        then: NOTHING,
    },
    Row {
        at: 0x820000000000,
        right: &[],
        then: NOTHING,
    },
];

pub const CLASS: &[Row<RuleName, Action>] = &[Row {
    at: 0x3800000000,
    right: &[
        Token(classes::NAME),
        Token(classes::ANY_COLON),
        Act(Action::Class),
    ],
    then: NOTHING,
}];

pub const CATCH_CLAUSE: &[Row<RuleName, Action>] = &[Row {
    at: 0x373df918080055,
    right: &[
        Rule(RuleName::Expression),
        Act(Action::CaughtPattern),
        Rule(RuleName::GuardOpt),
        Token(1 << classes::ARROW),
        Rule(RuleName::Body),
        Act(Action::CatchClause),
    ],
    then: NOTHING,
}];

pub const STEPS_MORE: &[Row<RuleName, Action>] = &[
    Row {
        at: 0x100,
        right: &[
            Token(1 << classes::COMMA),
            Rule(RuleName::Step),
            Rule(RuleName::StepsMore),
        ],
        then: NOTHING,
    },
    Row {
        at: 0xc00000000000,
        right: &[],
        then: NOTHING,
    },
];

pub const STEP: &[Row<RuleName, Action>] = &[
    Row {
        at: 0x300000000000,
        right: &[
            Token(classes::ANY_CATCH),
            Rule(RuleName::Expression),
            Act(Action::Catching),
            Act(Action::Step),
        ],
        then: NOTHING,
    },
    Row {
        at: 0x370df918080055,
        right: &[Rule(RuleName::Orelse), Rule(RuleName::StepTail)],
        then: NOTHING,
    },
];

pub const STEP_TAIL: &[Row<RuleName, Action>] = &[
    Row {
        at: 0x400000,
        right: &[
            Token(1 << classes::MAYBE_MATCH),
            Rule(RuleName::Expression),
            Act(Action::StepMatch),
        ],
        then: NOTHING,
    },
    Row {
        at: 0x148f20000b7e9aa,
        right: &[Rule(RuleName::MatchTail), Act(Action::Step)],
        then: NOTHING,
    },
];

pub const MAYBE_ELSE: &[Row<RuleName, Action>] = &[
    Row {
        at: 0x400000000000,
        right: &[
            Token(1 << classes::ELSE),
            Rule(RuleName::Clauses),
            Token(1 << classes::END),
            Act(Action::MaybeOf),
        ],
        then: NOTHING,
    },
    Row {
        at: 0x800000000000,
        right: &[
            Act(Action::NoClauses),
            Token(1 << classes::END),
            Act(Action::MaybeOf),
        ],
        then: NOTHING,
    },
];

pub const FUN_REST: &[Row<RuleName, Action>] = &[
    Row {
        at: 0x800000000,
        right: &[Token(1 << classes::ATOM), Rule(RuleName::FunAtom)],
        then: NOTHING,
    },
    Row {
        at: 0x3000000000,
        right: &[Token(classes::VARIABLE), Rule(RuleName::FunVar)],
        then: NOTHING,
    },
    Row {
        at: 0x1,
        right: &[
            Rule(RuleName::FunClause),
            Act(Action::FunClause),
            Rule(RuleName::FunClausesMore),
            Token(1 << classes::END),
            Act(Action::FunOf),
        ],
        then: NOTHING,
    },
];

pub const FUN_ATOM: &[Row<RuleName, Action>] = &[
    Row {
        at: 0x40000000,
        right: &[
            Token(1 << classes::SLASH),
            Token(1 << classes::INT),
            Act(Action::FunLocal),
        ],
        then: NOTHING,
    },
    Row {
        at: 0x600,
        right: &[Rule(RuleName::FunRemote)],
        then: NOTHING,
    },
];

pub const FUN_VAR: &[Row<RuleName, Action>] = &[
    Row {
        at: 0x1,
        right: &[
            Rule(RuleName::FunClause),
            Act(Action::NamedClause),
            Rule(RuleName::NamedClausesMore),
            Token(1 << classes::END),
            Act(Action::FunOf),
        ],
        then: NOTHING,
    },
    Row {
        at: 0x600,
        right: &[Rule(RuleName::FunRemote)],
        then: NOTHING,
    },
];

pub const FUN_REMOTE: &[Row<RuleName, Action>] = &[Row {
    at: 0x600,
    right: &[
        Token(classes::ANY_COLON),
        Rule(RuleName::Name),
        Token(1 << classes::SLASH),
        Rule(RuleName::Arity),
        Act(Action::FunRemote),
    ],
    then: NOTHING,
}];

pub const NAME: &[Row<RuleName, Action>] = &[Row {
    at: 0x3800000000,
    right: &[Token(classes::NAME), Act(Action::Leaf)],
    then: NOTHING,
}];

pub const ARITY: &[Row<RuleName, Action>] = &[
    Row {
        at: 0x4000000000,
        right: &[Token(1 << classes::INT), Act(Action::Leaf)],
        then: NOTHING,
    },
    Row {
        at: 0x3000000000,
        right: &[Token(classes::VARIABLE), Act(Action::Leaf)],
        then: NOTHING,
    },
];

pub const FUN_CLAUSE: &[Row<RuleName, Action>] = &[Row {
    at: 0x1,
    right: &[
        Token(1 << classes::LEFT_PAREN),
        Act(Action::None),
        Rule(RuleName::Args),
        Rule(RuleName::GuardOpt),
        Token(1 << classes::ARROW),
        Rule(RuleName::Body),
    ],
    then: NOTHING,
}];

pub const FUN_CLAUSES_MORE: &[Row<RuleName, Action>] = &[
    Row {
        at: 0xc000,
        right: &[
            Token(classes::ANY_SEMI),
            Rule(RuleName::FunClause),
            Act(Action::FunClause),
            Rule(RuleName::FunClausesMore),
        ],
        then: NOTHING,
    },
    Row {
        at: 0x800000000000,
        right: &[],
        then: NOTHING,
    },
];

pub const NAMED_CLAUSES_MORE: &[Row<RuleName, Action>] = &[
    Row {
        at: 0xc000,
        right: &[
            Token(classes::ANY_SEMI),
            Token(classes::VARIABLE),
            Rule(RuleName::FunClause),
            Act(Action::NamedClause),
            Rule(RuleName::NamedClausesMore),
        ],
        then: NOTHING,
    },
    Row {
        at: 0x800000000000,
        right: &[],
        then: NOTHING,
    },
];
