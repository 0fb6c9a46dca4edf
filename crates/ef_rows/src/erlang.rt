// The grammar of Erlang, as the parser of the rows takes it.
ghost use Rattle.std.specs.Prelude.{◌≡◌, ◌<◌, ◌≤◌, IfOk, length, drop, map};
ghost use Rattle.ef_grammar.specs.Shown.{acted, row};
ghost use Rattle.ef_build.specs.Values as v;
ghost use Rattle.ef_rows.specs.Erlang as e;
ghost use Rattle.ef_rows.specs.Sound as laws;
ghost use Rattle.ef_rows.specs.Tables as tables;

use crate::look::look;
use crate::rows::{Action, RuleName, rows};
use ef_base::Names;
use ef_build as build;
use ef_build::Read;
use ef_grammar::{Grammar, Row};
use ef_token::Token;
use std::alloc::{AllocError, Global};

/// The grammar over the names of a table, by which `_` is told from other variables.
#[derive(Clone, Copy)]
pub struct Erlang<'a> {
    pub names: &'a Names,
}

impl<'a> Grammar for Erlang<'a> {
    type Token = Token;

    type State = Read;

    type Rule = RuleName;

    type Action = Action;

    ghost Value = { v.Read };

    ghost value = { v.shown };

    ghost grammar = { λ s. e.grammar s.names.now };

    ghost table = { tables.table };

    fn look(&self, tokens: &[Token], at: usize) -> u8 {
        look(self.names, tokens, at)
    }

    fn push(&self, alloc: Global, token: &Token, read: &mut Read) -> Result<(), AllocError> {
        build::push_token(alloc, self.names, token, read)
    }

    fn act(&self, alloc: Global, action: Action, read: &mut Read) -> Result<bool, AllocError> {
        act(alloc, action, read)
    }

    fn rows(&self, rule: RuleName) -> &'static [Row<RuleName, Action>] {
        rows(rule)
    }

    ghost sound = { laws.sound };

    ghost rows_are = { λ s. laws.rows_are };
}

fn act(alloc: Global, action: Action, read: &mut Read) -> Result<bool, AllocError>
    ensures { IfOk result (λ ok. acted ok (v.shown read.new) ≡ e.act action (v.shown read.old)) }
{
    match action {
        Action::Catching => build::catching(alloc, read),
        Action::Matching => build::matching(alloc, read),
        Action::Binary => build::binary(alloc, read),
        Action::OrElse => build::or_else(alloc, read),
        Action::AndAlso => build::and_also(alloc, read),
        Action::Unary => build::unary(alloc, read),
        Action::None => build::none(alloc, read),
        Action::Call => build::call(alloc, read),
        Action::Remote => build::remote(alloc, read),
        Action::Trace => build::trace(read),
        Action::RecordNew => build::record_new(read),
        Action::RecordIndex => build::record_index(read),
        Action::RecordUpdate => build::record_update(alloc, read),
        Action::RecordField => build::record_field(alloc, read),
        Action::NoFields => build::no_fields(alloc, read),
        Action::Field => build::field(read),
        Action::MayTrace => build::may_trace(read),
        Action::Refuse => Ok(false),
        Action::Leaf => build::on_leaf(read),
        Action::Parens => build::parens(read),
        Action::NoSegments => build::no_segments(alloc, read),
        Action::Block => build::block(read),
        Action::IfOf => build::if_of(read),
        Action::CaseOf => build::case_of(alloc, read),
        Action::NoSteps => build::no_steps(alloc, read),
        Action::NoClauses => build::no_clauses(alloc, read),
        Action::Join => build::join(read),
        Action::List => build::list(read),
        Action::ListComp => build::list_comp(alloc, read),
        Action::Add => build::add(read),
        Action::ListTo => build::list_to(alloc, read),
        Action::Tuple => build::tuple(read),
        Action::Bin => build::bin(read),
        Action::BinComp => build::bin_comp(alloc, read),
        Action::Segment => build::segment(alloc, read),
        Action::AddSegment => build::add_segment(read),
        Action::Size => build::size(alloc, read),
        Action::WordNumber => build::word_number(read),
        Action::Word => build::word(read),
        Action::NoQualifiers => build::no_qualifiers(alloc, read),
        Action::From => build::from(read),
        Action::Filter => build::filter(read),
        Action::NoGuard => build::no_guard(alloc, read),
        Action::AddGuard => build::add_guard(read),
        Action::IfClause => build::if_clause(alloc, read),
        Action::Clause => build::clause(alloc, read),
        Action::ReceiveAfter => build::receive_after(alloc, read),
        Action::ReceiveOf => build::receive_of(read),
        Action::NoCatches => build::no_catches(alloc, read),
        Action::Forget => build::forget(read),
        Action::Unclassed => build::unclassed(read),
        Action::TryOf => build::try_of(read),
        Action::Class => build::class(read),
        Action::CaughtPattern => build::caught_pattern(alloc, read),
        Action::CatchClause => build::catch_clause(read),
        Action::Step => build::step(read),
        Action::StepMatch => build::step_match(read),
        Action::MaybeOf => build::maybe_of(read),
        Action::FunClause => build::fun_clause(alloc, read),
        Action::FunOf => build::fun_of(read),
        Action::FunLocal => build::fun_local(read),
        Action::NamedClause => build::named_clause(alloc, read),
        Action::FunRemote => build::fun_remote(alloc, read),
        Action::FunctionClause => build::function_clause(alloc, read),
        Action::Function => build::function(read),
        Action::ModuleName => build::module_name(read),
        Action::Export => build::export(read),
        Action::Import => build::import(read),
        Action::RecordOf => build::record_of(read),
        Action::Dropped => build::dropped(read),
        Action::Attribute => build::attribute(read),
        Action::NoReferences => build::no_references(alloc, read),
        Action::Reference => build::reference(read),
        Action::NoDefinitions => build::no_definitions(alloc, read),
        Action::DefinitionWith => build::definition_with(read),
        Action::Definition => build::definition(read),
        Action::NameArity => build::name_arity(alloc, read),
    }
}
