// The rows of the grammar: form.

use crate::classes;
use crate::parts::NOTHING;
use crate::rows::{Action, RuleName};
use ef_grammar::Row;
use ef_grammar::Symbol::{Act, Rule, Token};

pub const FUNCTION: &[Row<RuleName, Action>] = &[Row {
    at: 0x800000000,
    right: &[
        Act(Action::NoClauses),
        Token(1 << classes::ATOM),
        Rule(RuleName::FunClause),
        Act(Action::FunctionClause),
        Rule(RuleName::FunctionMore),
    ],
    then: NOTHING,
}];

pub const FUNCTION_MORE: &[Row<RuleName, Action>] = &[
    Row {
        at: 0xc000,
        right: &[
            Token(classes::ANY_SEMI),
            Token(1 << classes::ATOM),
            Rule(RuleName::FunClause),
            Act(Action::FunctionClause),
            Rule(RuleName::FunctionMore),
        ],
        then: NOTHING,
    },
    Row {
        at: 0x100000000002000,
        right: &[],
        then: NOTHING,
    },
];

pub const FORM_FUNCTION: &[Row<RuleName, Action>] = &[Row {
    at: 0x800000000,
    right: &[
        Rule(RuleName::Function),
        Token(1 << classes::DOT),
        Act(Action::Function),
    ],
    then: NOTHING,
}];

pub const FORM_MODULE: &[Row<RuleName, Action>] = &[Row {
    at: 0x10000000,
    right: &[
        Token(1 << classes::MINUS),
        Token(1 << classes::ATOM),
        Token(1 << classes::LEFT_PAREN),
        Token(1 << classes::ATOM),
        Token(1 << classes::RIGHT_PAREN),
        Token(1 << classes::DOT),
        Act(Action::ModuleName),
    ],
    then: NOTHING,
}];

pub const FORM_EXPORT: &[Row<RuleName, Action>] = &[Row {
    at: 0x10000000,
    right: &[
        Token(1 << classes::MINUS),
        Token(1 << classes::ATOM),
        Token(1 << classes::LEFT_PAREN),
        Token(1 << classes::LEFT_BRACKET),
        Rule(RuleName::References),
        Token(1 << classes::RIGHT_PAREN),
        Token(1 << classes::DOT),
        Act(Action::Export),
    ],
    then: NOTHING,
}];

pub const FORM_IMPORT: &[Row<RuleName, Action>] = &[Row {
    at: 0x10000000,
    right: &[
        Token(1 << classes::MINUS),
        Token(1 << classes::ATOM),
        Token(1 << classes::LEFT_PAREN),
        Token(1 << classes::ATOM),
        Token(1 << classes::COMMA),
        Token(1 << classes::LEFT_BRACKET),
        Rule(RuleName::References),
        Token(1 << classes::RIGHT_PAREN),
        Token(1 << classes::DOT),
        Act(Action::Import),
    ],
    then: NOTHING,
}];

pub const FORM_RECORD: &[Row<RuleName, Action>] = &[Row {
    at: 0x10000000,
    right: &[
        Token(1 << classes::MINUS),
        Token(1 << classes::ATOM),
        Token(1 << classes::LEFT_PAREN),
        Token(1 << classes::ATOM),
        Token(1 << classes::COMMA),
        Token(1 << classes::LEFT_BRACE),
        Rule(RuleName::Definitions),
        Token(1 << classes::RIGHT_PAREN),
        Token(1 << classes::DOT),
        Act(Action::RecordOf),
    ],
    then: NOTHING,
}];

pub const FORM_DROPPED: &[Row<RuleName, Action>] = &[Row {
    at: 0x10000000,
    right: &[
        Token(1 << classes::MINUS),
        Token(1 << classes::ATOM),
        Rule(RuleName::Balanced),
        Token(1 << classes::DOT),
        Act(Action::Dropped),
    ],
    then: NOTHING,
}];

pub const FORM_OTHER: &[Row<RuleName, Action>] = &[Row {
    at: 0x10000000,
    right: &[
        Token(1 << classes::MINUS),
        Token(1 << classes::ATOM),
        Token(1 << classes::LEFT_PAREN),
        Rule(RuleName::Constant),
        Token(1 << classes::RIGHT_PAREN),
        Token(1 << classes::DOT),
        Act(Action::Attribute),
    ],
    then: NOTHING,
}];

pub const REFERENCES: &[Row<RuleName, Action>] = &[Row {
    at: 0x800000008,
    right: &[Act(Action::NoReferences), Rule(RuleName::ReferencesRest)],
    then: NOTHING,
}];

pub const REFERENCES_REST: &[Row<RuleName, Action>] = &[
    Row {
        at: 0x8,
        right: &[Token(1 << classes::RIGHT_BRACKET)],
        then: NOTHING,
    },
    Row {
        at: 0x800000000,
        right: &[Rule(RuleName::Reference), Rule(RuleName::ReferencesMore)],
        then: NOTHING,
    },
];

pub const REFERENCES_MORE: &[Row<RuleName, Action>] = &[
    Row {
        at: 0x100,
        right: &[
            Token(1 << classes::COMMA),
            Rule(RuleName::Reference),
            Rule(RuleName::ReferencesMore),
        ],
        then: NOTHING,
    },
    Row {
        at: 0x8,
        right: &[Token(1 << classes::RIGHT_BRACKET)],
        then: NOTHING,
    },
];

pub const REFERENCE: &[Row<RuleName, Action>] = &[Row {
    at: 0x800000000,
    right: &[
        Token(1 << classes::ATOM),
        Token(1 << classes::SLASH),
        Token(1 << classes::INT),
        Act(Action::Reference),
    ],
    then: NOTHING,
}];

pub const DEFINITIONS: &[Row<RuleName, Action>] = &[Row {
    at: 0x800000020,
    right: &[Act(Action::NoDefinitions), Rule(RuleName::DefinitionsRest)],
    then: NOTHING,
}];

pub const DEFINITIONS_REST: &[Row<RuleName, Action>] = &[
    Row {
        at: 0x20,
        right: &[Token(1 << classes::RIGHT_BRACE)],
        then: NOTHING,
    },
    Row {
        at: 0x800000000,
        right: &[Rule(RuleName::Definition), Rule(RuleName::DefinitionsMore)],
        then: NOTHING,
    },
];

pub const DEFINITIONS_MORE: &[Row<RuleName, Action>] = &[
    Row {
        at: 0x100,
        right: &[
            Token(1 << classes::COMMA),
            Rule(RuleName::Definition),
            Rule(RuleName::DefinitionsMore),
        ],
        then: NOTHING,
    },
    Row {
        at: 0x20,
        right: &[Token(1 << classes::RIGHT_BRACE)],
        then: NOTHING,
    },
];

pub const DEFINITION: &[Row<RuleName, Action>] = &[Row {
    at: 0x800000000,
    right: &[Token(1 << classes::ATOM), Rule(RuleName::DefinitionRest)],
    then: NOTHING,
}];

pub const DEFINITION_REST: &[Row<RuleName, Action>] = &[
    Row {
        at: 0x100000,
        right: &[
            Token(1 << classes::EQUALS),
            Rule(RuleName::Expression),
            Act(Action::DefinitionWith),
            Rule(RuleName::DefinitionType),
        ],
        then: NOTHING,
    },
    Row {
        at: 0x920,
        right: &[Act(Action::Definition), Rule(RuleName::DefinitionType)],
        then: NOTHING,
    },
];

pub const DEFINITION_TYPE: &[Row<RuleName, Action>] = &[
    Row {
        at: 0x800,
        right: &[Token(1 << classes::DOUBLE_COLON), Rule(RuleName::Types)],
        then: NOTHING,
    },
    Row {
        at: 0x120,
        right: &[],
        then: NOTHING,
    },
];

pub const TYPES: &[Row<RuleName, Action>] = &[
    Row {
        at: 0xc8c2060057de00,
        right: &[Token(classes::LOOSE_BARE), Rule(RuleName::Types)],
        then: NOTHING,
    },
    Row {
        at: 0x373df9ffa80000,
        right: &[
            Token(classes::LOOSE_KEPT),
            Act(Action::Forget),
            Rule(RuleName::Types),
        ],
        then: NOTHING,
    },
    Row {
        at: 0x1,
        right: &[
            Token(1 << classes::LEFT_PAREN),
            Act(Action::Forget),
            Rule(RuleName::Balanced),
            Token(1 << classes::RIGHT_PAREN),
            Rule(RuleName::Types),
        ],
        then: NOTHING,
    },
    Row {
        at: 0x4,
        right: &[
            Token(1 << classes::LEFT_BRACKET),
            Act(Action::Forget),
            Rule(RuleName::Balanced),
            Token(1 << classes::RIGHT_BRACKET),
            Rule(RuleName::Types),
        ],
        then: NOTHING,
    },
    Row {
        at: 0x10,
        right: &[
            Token(1 << classes::LEFT_BRACE),
            Act(Action::Forget),
            Rule(RuleName::Balanced),
            Token(1 << classes::RIGHT_BRACE),
            Rule(RuleName::Types),
        ],
        then: NOTHING,
    },
    Row {
        at: 0x40,
        right: &[
            Token(1 << classes::LEFT_BITS),
            Act(Action::Forget),
            Rule(RuleName::Balanced),
            Token(1 << classes::RIGHT_BITS),
            Rule(RuleName::Types),
        ],
        then: NOTHING,
    },
    Row {
        at: 0x120,
        right: &[],
        then: NOTHING,
    },
];

pub const BALANCED: &[Row<RuleName, Action>] = &[
    Row {
        at: 0xc8c2060057de00,
        right: &[Token(classes::LOOSE_BARE), Rule(RuleName::Balanced)],
        then: NOTHING,
    },
    Row {
        at: 0x100,
        right: &[Token(1 << classes::COMMA), Rule(RuleName::Balanced)],
        then: NOTHING,
    },
    Row {
        at: 0x373df9ffa80000,
        right: &[
            Token(classes::LOOSE_KEPT),
            Act(Action::Forget),
            Rule(RuleName::Balanced),
        ],
        then: NOTHING,
    },
    Row {
        at: 0x1,
        right: &[
            Token(1 << classes::LEFT_PAREN),
            Act(Action::Forget),
            Rule(RuleName::Balanced),
            Token(1 << classes::RIGHT_PAREN),
            Rule(RuleName::Balanced),
        ],
        then: NOTHING,
    },
    Row {
        at: 0x4,
        right: &[
            Token(1 << classes::LEFT_BRACKET),
            Act(Action::Forget),
            Rule(RuleName::Balanced),
            Token(1 << classes::RIGHT_BRACKET),
            Rule(RuleName::Balanced),
        ],
        then: NOTHING,
    },
    Row {
        at: 0x10,
        right: &[
            Token(1 << classes::LEFT_BRACE),
            Act(Action::Forget),
            Rule(RuleName::Balanced),
            Token(1 << classes::RIGHT_BRACE),
            Rule(RuleName::Balanced),
        ],
        then: NOTHING,
    },
    Row {
        at: 0x40,
        right: &[
            Token(1 << classes::LEFT_BITS),
            Act(Action::Forget),
            Rule(RuleName::Balanced),
            Token(1 << classes::RIGHT_BITS),
            Rule(RuleName::Balanced),
        ],
        then: NOTHING,
    },
    Row {
        at: 0x20aa,
        right: &[],
        then: NOTHING,
    },
];

pub const CONSTANT: &[Row<RuleName, Action>] = &[
    Row {
        at: 0x18000000,
        right: &[
            Token(classes::SIGN),
            Token(1 << classes::INT),
            Act(Action::Leaf),
            Act(Action::Unary),
        ],
        then: NOTHING,
    },
    Row {
        at: 0x4000000000,
        right: &[Token(1 << classes::INT), Act(Action::Leaf)],
        then: NOTHING,
    },
    Row {
        at: 0x8000000000,
        right: &[Token(1 << classes::CHAR), Act(Action::Leaf)],
        then: NOTHING,
    },
    Row {
        at: 0x10000000000,
        right: &[
            Token(1 << classes::STR),
            Act(Action::Leaf),
            Rule(RuleName::Strings),
        ],
        then: NOTHING,
    },
    Row {
        at: 0x800000000,
        right: &[Token(1 << classes::ATOM), Rule(RuleName::ConstantAtom)],
        then: NOTHING,
    },
    Row {
        at: 0x4,
        right: &[
            Token(1 << classes::LEFT_BRACKET),
            Act(Action::None),
            Rule(RuleName::ConstantList),
        ],
        then: NOTHING,
    },
    Row {
        at: 0x10,
        right: &[
            Token(1 << classes::LEFT_BRACE),
            Act(Action::None),
            Rule(RuleName::ConstantTuple),
        ],
        then: NOTHING,
    },
    Row {
        at: 0x40,
        right: &[
            Token(1 << classes::LEFT_BITS),
            Act(Action::NoSegments),
            Rule(RuleName::ConstantBin),
        ],
        then: NOTHING,
    },
];

pub const CONSTANT_ATOM: &[Row<RuleName, Action>] = &[
    Row {
        at: 0x40000000,
        right: &[
            Token(1 << classes::SLASH),
            Token(1 << classes::INT),
            Act(Action::NameArity),
        ],
        then: NOTHING,
    },
    Row {
        at: 0x2012a,
        right: &[Act(Action::Leaf)],
        then: NOTHING,
    },
];

pub const CONSTANT_LIST: &[Row<RuleName, Action>] = &[
    Row {
        at: 0x8,
        right: &[Token(1 << classes::RIGHT_BRACKET), Act(Action::List)],
        then: NOTHING,
    },
    Row {
        at: 0x1c818000054,
        right: &[
            Rule(RuleName::Constant),
            Act(Action::Add),
            Rule(RuleName::ConstantListMore),
        ],
        then: NOTHING,
    },
];

pub const CONSTANT_LIST_MORE: &[Row<RuleName, Action>] = &[
    Row {
        at: 0x100,
        right: &[
            Token(1 << classes::COMMA),
            Rule(RuleName::Constant),
            Act(Action::Add),
            Rule(RuleName::ConstantListMore),
        ],
        then: NOTHING,
    },
    Row {
        at: 0x20000,
        right: &[
            Token(1 << classes::BAR),
            Rule(RuleName::Constant),
            Token(1 << classes::RIGHT_BRACKET),
            Act(Action::ListTo),
        ],
        then: NOTHING,
    },
    Row {
        at: 0x8,
        right: &[Token(1 << classes::RIGHT_BRACKET), Act(Action::List)],
        then: NOTHING,
    },
];

pub const CONSTANT_TUPLE: &[Row<RuleName, Action>] = &[
    Row {
        at: 0x20,
        right: &[Token(1 << classes::RIGHT_BRACE), Act(Action::Tuple)],
        then: NOTHING,
    },
    Row {
        at: 0x1c818000054,
        right: &[
            Rule(RuleName::Constant),
            Act(Action::Add),
            Rule(RuleName::ConstantTupleMore),
        ],
        then: NOTHING,
    },
];

pub const CONSTANT_TUPLE_MORE: &[Row<RuleName, Action>] = &[
    Row {
        at: 0x100,
        right: &[
            Token(1 << classes::COMMA),
            Rule(RuleName::Constant),
            Act(Action::Add),
            Rule(RuleName::ConstantTupleMore),
        ],
        then: NOTHING,
    },
    Row {
        at: 0x20,
        right: &[Token(1 << classes::RIGHT_BRACE), Act(Action::Tuple)],
        then: NOTHING,
    },
];

pub const CONSTANT_BIN: &[Row<RuleName, Action>] = &[
    Row {
        at: 0x80,
        right: &[Token(1 << classes::RIGHT_BITS), Act(Action::Bin)],
        then: NOTHING,
    },
    Row {
        at: 0x14000000000,
        right: &[
            Rule(RuleName::ConstantSegment),
            Rule(RuleName::ConstantBinMore),
        ],
        then: NOTHING,
    },
];

pub const CONSTANT_BIN_MORE: &[Row<RuleName, Action>] = &[
    Row {
        at: 0x100,
        right: &[
            Token(1 << classes::COMMA),
            Rule(RuleName::ConstantSegment),
            Rule(RuleName::ConstantBinMore),
        ],
        then: NOTHING,
    },
    Row {
        at: 0x80,
        right: &[Token(1 << classes::RIGHT_BITS), Act(Action::Bin)],
        then: NOTHING,
    },
];

pub const CONSTANT_SEGMENT: &[Row<RuleName, Action>] = &[
    Row {
        at: 0x4000000000,
        right: &[
            Token(1 << classes::INT),
            Act(Action::Leaf),
            Act(Action::Segment),
            Act(Action::AddSegment),
        ],
        then: NOTHING,
    },
    Row {
        at: 0x10000000000,
        right: &[
            Token(1 << classes::STR),
            Act(Action::Leaf),
            Rule(RuleName::Strings),
            Act(Action::Segment),
            Act(Action::AddSegment),
        ],
        then: NOTHING,
    },
];
