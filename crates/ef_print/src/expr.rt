// Expressions behind what was printed so far.
ghost use Rattle.std.specs.Prelude.{◌≡◌, true, ◌++◌, map};
ghost use Rattle.ef_core.specs.Layout.{all_pieces, def_of, defs_pieces, let_of, pieces, steps_pieces, values_pieces, vars_pieces};
ghost use Rattle.ef_core.specs.OfTable.{CoreOf, CoresOf, DefOf, Each, StepsOf, VarOf};
ghost use Rattle.ef_core.specs.Pieces.{put_sym, put_word};
ghost use Rattle.ef_core.specs.Plain.{plain, plain_all, plain_clauses, plain_def, plain_defs, plain_list, plain_segments, plain_steps};
ghost use Rattle.ef_core.specs.Tree.{a_fun, bin, case_of, do_then, letrec, lets, receive, tuple};
ghost use Rattle.ef_print.specs.Prints.{Prints};

use crate::call::{print_apply, print_call, print_primop};
use crate::clause::print_clauses;
use crate::functions::print_fname;
use crate::lexeme::{print_break, print_symbol, print_word};
use crate::literal::print_lit;
use crate::segment::print_segments;
use crate::vars::{print_params, print_var, print_vars};
use ef_base::Names;
use ef_core::{CoreClause, CoreDef, CoreExpr, CoreSegment, CoreVar, Last, LetStep, Symbol, Word};
use ef_io::{Failed, Sink};

/// Prints an expression.
#[cycle(expr)]
pub fn print_expr<G: Sink>(
    names: &Names,
    sink: &mut G,
    so_far: Result<Last, Failed>,
    expr: &CoreExpr,
) -> Result<Last, Failed>
    requires is_open { (G.seen sink.old).is_open ≡ true }
    requires named { CoreOf names.now (plain expr.now) }
    ensures is_open { (G.seen sink.new).is_open ≡ true }
    ensures prints { Prints (G.seen sink.old) so_far (pieces names.now (plain expr.now)) (G.seen sink.new) result }
{
    match expr {
        CoreExpr::Var(var) => print_var(names, sink, so_far, *var),
        CoreExpr::Lit(literal) => print_lit(names, sink, so_far, literal),
        CoreExpr::FunName(function) => print_fname(names, sink, so_far, *function),
        CoreExpr::Fun { params, body } => print_fun(names, sink, so_far, params, body),
        CoreExpr::ValueList(values) => print_values(names, sink, so_far, values),
        CoreExpr::Tuple(items) => print_tuple(names, sink, so_far, items),
        CoreExpr::List { items, tail } => print_list(names, sink, so_far, items, tail),
        CoreExpr::Bin(segments) => print_bin(names, sink, so_far, segments),
        CoreExpr::Lets { steps, body } => print_lets(names, sink, so_far, steps, body),
        CoreExpr::Letrec { defs, body } => print_letrec(names, sink, so_far, defs, body),
        CoreExpr::Case { arg, clauses } => print_case(names, sink, so_far, arg, clauses),
        CoreExpr::Apply { target, args } => print_apply(names, sink, so_far, target, args),
        CoreExpr::Call {
            module,
            function,
            args,
        } => print_call(names, sink, so_far, module, function, args),
        CoreExpr::Primop { name, args } => print_primop(names, sink, so_far, *name, args),
        CoreExpr::Do { first, second } => print_do(names, sink, so_far, first, second),
        CoreExpr::Receive {
            clauses,
            timeout,
            body,
        } => print_receive(names, sink, so_far, clauses, timeout, body),
        CoreExpr::Try {
            arg,
            vars,
            body,
            catch_vars,
            handler,
        } => {
            let so_far = print_word(sink, so_far, Word::Try);
            let so_far = print_expr(names, sink, so_far, arg);
            let so_far = print_branch(names, sink, so_far, Word::Of, vars, body);
            print_branch(names, sink, so_far, Word::Catch, catch_vars, handler)
        }
    }
}

// `fun (V, ..) -> Body`
#[cycle(expr)]
fn print_fun<G: Sink>(
    names: &Names,
    sink: &mut G,
    so_far: Result<Last, Failed>,
    params: &[CoreVar],
    body: &CoreExpr,
) -> Result<Last, Failed>
    requires is_open { (G.seen sink.old).is_open ≡ true }
    requires named { CoreOf names.now (a_fun params.now (plain body.now)) }
    ensures is_open { (G.seen sink.new).is_open ≡ true }
    ensures prints { Prints (G.seen sink.old) so_far (pieces names.now (a_fun params.now (plain body.now))) (G.seen sink.new) result }
{
    let so_far = print_params(names, sink, so_far, params);
    print_expr(names, sink, so_far, body)
}

// One value alone, any other number between `<` and `>`.
#[cycle(expr)]
fn print_values<G: Sink>(
    names: &Names,
    sink: &mut G,
    so_far: Result<Last, Failed>,
    values: &[CoreExpr],
) -> Result<Last, Failed>
    requires is_open { (G.seen sink.old).is_open ≡ true }
    requires named { CoresOf names.now (plain_all values.now) }
    ensures is_open { (G.seen sink.new).is_open ≡ true }
    ensures prints { Prints (G.seen sink.old) so_far (values_pieces names.now (plain_all values.now)) (G.seen sink.new) result }
{
    if values.len() == 1 {
        return print_expr(names, sink, so_far, &values[0]);
    }
    let so_far = print_symbol(sink, so_far, Symbol::Less);
    let so_far = print_all(names, sink, so_far, values);
    print_symbol(sink, so_far, Symbol::Greater)
}

// `{Item, ..}`
#[cycle(expr)]
fn print_tuple<G: Sink>(
    names: &Names,
    sink: &mut G,
    so_far: Result<Last, Failed>,
    items: &[CoreExpr],
) -> Result<Last, Failed>
    requires is_open { (G.seen sink.old).is_open ≡ true }
    requires named { CoreOf names.now (tuple (plain_all items.now)) }
    ensures is_open { (G.seen sink.new).is_open ≡ true }
    ensures prints { Prints (G.seen sink.old) so_far (pieces names.now (tuple (plain_all items.now))) (G.seen sink.new) result }
{
    let so_far = print_symbol(sink, so_far, Symbol::LeftBrace);
    let so_far = print_all(names, sink, so_far, items);
    print_symbol(sink, so_far, Symbol::RightBrace)
}

// `[Item, ..]`, or `[Item, ..|Tail]`
#[cycle(expr)]
fn print_list<G: Sink>(
    names: &Names,
    sink: &mut G,
    so_far: Result<Last, Failed>,
    items: &[CoreExpr],
    tail: &Option<Box<CoreExpr>>,
) -> Result<Last, Failed>
    requires is_open { (G.seen sink.old).is_open ≡ true }
    requires named { CoreOf names.now (plain_list items.now tail.now) }
    ensures is_open { (G.seen sink.new).is_open ≡ true }
    ensures prints { Prints (G.seen sink.old) so_far (pieces names.now (plain_list items.now tail.now)) (G.seen sink.new) result }
{
    let so_far = print_symbol(sink, so_far, Symbol::LeftBracket);
    let so_far = print_all(names, sink, so_far, items);
    match tail {
        None => print_symbol(sink, so_far, Symbol::RightBracket),
        Some(tail) => {
            let so_far = print_symbol(sink, so_far, Symbol::Bar);
            let so_far = print_expr(names, sink, so_far, tail);
            print_symbol(sink, so_far, Symbol::RightBracket)
        }
    }
}

/// Prints expressions with commas between.
#[cycle(expr)]
pub fn print_all<G: Sink>(
    names: &Names,
    sink: &mut G,
    so_far: Result<Last, Failed>,
    exprs: &[CoreExpr],
) -> Result<Last, Failed>
    requires is_open { (G.seen sink.old).is_open ≡ true }
    requires named { CoresOf names.now (plain_all exprs.now) }
    ensures is_open { (G.seen sink.new).is_open ≡ true }
    ensures prints { Prints (G.seen sink.old) so_far (all_pieces names.now (plain_all exprs.now)) (G.seen sink.new) result }
{
    match exprs {
        [] => so_far,
        [first, rest @ ..] => {
            let mut so_far = print_expr(names, sink, so_far, first);
            for expr in rest {
                so_far = print_symbol(sink, so_far, Symbol::Comma);
                so_far = print_expr(names, sink, so_far, expr);
            }
            so_far
        }
    }
}

// `#{Segment, ..}#`
#[cycle(expr)]
fn print_bin<G: Sink>(
    names: &Names,
    sink: &mut G,
    so_far: Result<Last, Failed>,
    segments: &[CoreSegment],
) -> Result<Last, Failed>
    requires is_open { (G.seen sink.old).is_open ≡ true }
    requires named { CoreOf names.now (bin (plain_segments segments.now)) }
    ensures is_open { (G.seen sink.new).is_open ≡ true }
    ensures prints { Prints (G.seen sink.old) so_far (pieces names.now (bin (plain_segments segments.now))) (G.seen sink.new) result }
{
    let so_far = print_symbol(sink, so_far, Symbol::BinBegin);
    let so_far = print_segments(names, sink, so_far, segments);
    print_symbol(sink, so_far, Symbol::BinEnd)
}

// A run of lets, and the body behind it.
#[cycle(expr)]
fn print_lets<G: Sink>(
    names: &Names,
    sink: &mut G,
    so_far: Result<Last, Failed>,
    steps: &[LetStep],
    body: &CoreExpr,
) -> Result<Last, Failed>
    requires is_open { (G.seen sink.old).is_open ≡ true }
    requires named { CoreOf names.now (lets (plain_steps steps.now) (plain body.now)) }
    ensures is_open { (G.seen sink.new).is_open ≡ true }
    ensures prints { Prints (G.seen sink.old) so_far (pieces names.now (lets (plain_steps steps.now) (plain body.now))) (G.seen sink.new) result }
{
    let so_far = print_steps(names, sink, so_far, steps);
    print_expr(names, sink, so_far, body)
}

// A run of lets, each on a line of its own.
#[cycle(expr)]
fn print_steps<G: Sink>(
    names: &Names,
    sink: &mut G,
    so_far: Result<Last, Failed>,
    steps: &[LetStep],
) -> Result<Last, Failed>
    requires is_open { (G.seen sink.old).is_open ≡ true }
    requires named { StepsOf names.now (plain_steps steps.now) }
    ensures is_open { (G.seen sink.new).is_open ≡ true }
    ensures prints { Prints (G.seen sink.old) so_far (steps_pieces names.now (plain_steps steps.now)) (G.seen sink.new) result }
{
    let mut so_far = so_far;
    for step in steps {
        so_far = print_step(names, sink, so_far, step);
    }
    so_far
}

// One let, which ends its line.
#[cycle(expr)]
fn print_step<G: Sink>(
    names: &Names,
    sink: &mut G,
    so_far: Result<Last, Failed>,
    step: &LetStep,
) -> Result<Last, Failed>
    requires is_open { (G.seen sink.old).is_open ≡ true }
    requires vars_named { Each (VarOf names.now) step.now.vars.items }
    requires value_named { CoreOf names.now (plain step.now.value) }
    ensures is_open { (G.seen sink.new).is_open ≡ true }
    ensures prints { Prints (G.seen sink.old) so_far (let_of names.now step.now.vars.items (pieces names.now (plain step.now.value))) (G.seen sink.new) result }
{
    let so_far = print_word(sink, so_far, Word::Let);
    let so_far = print_vars(names, sink, so_far, &step.vars);
    let so_far = print_symbol(sink, so_far, Symbol::Equals);
    let so_far = print_expr(names, sink, so_far, &step.value);
    let so_far = print_word(sink, so_far, Word::In);
    print_break(so_far)
}

// `letrec Functions in`, which ends its line, and the body.
#[cycle(expr)]
fn print_letrec<G: Sink>(
    names: &Names,
    sink: &mut G,
    so_far: Result<Last, Failed>,
    defs: &[CoreDef],
    body: &CoreExpr,
) -> Result<Last, Failed>
    requires is_open { (G.seen sink.old).is_open ≡ true }
    requires named { CoreOf names.now (letrec (plain_defs defs.now) (plain body.now)) }
    ensures is_open { (G.seen sink.new).is_open ≡ true }
    ensures prints { Prints (G.seen sink.old) so_far (pieces names.now (letrec (plain_defs defs.now) (plain body.now))) (G.seen sink.new) result }
{
    let so_far = print_word(sink, so_far, Word::Letrec);
    let so_far = print_defs(names, sink, so_far, defs);
    let so_far = print_word(sink, so_far, Word::In);
    let so_far = print_break(so_far);
    print_expr(names, sink, so_far, body)
}

// The functions of a `letrec`.
#[cycle(expr)]
fn print_defs<G: Sink>(
    names: &Names,
    sink: &mut G,
    so_far: Result<Last, Failed>,
    defs: &[CoreDef],
) -> Result<Last, Failed>
    requires is_open { (G.seen sink.old).is_open ≡ true }
    requires named { Each (DefOf names.now) (map plain_def defs.now) }
    ensures is_open { (G.seen sink.new).is_open ≡ true }
    ensures prints { Prints (G.seen sink.old) so_far (defs_pieces names.now (plain_defs defs.now)) (G.seen sink.new) result }
{
    let mut so_far = so_far;
    for def in defs {
        so_far = print_def(names, sink, so_far, def);
    }
    so_far
}

/// Prints a function with its name.
#[cycle(expr)]
pub fn print_def<G: Sink>(
    names: &Names,
    sink: &mut G,
    so_far: Result<Last, Failed>,
    def: &CoreDef,
) -> Result<Last, Failed>
    requires is_open { (G.seen sink.old).is_open ≡ true }
    requires named { DefOf names.now (plain_def def.now) }
    ensures is_open { (G.seen sink.new).is_open ≡ true }
    ensures prints { Prints (G.seen sink.old) so_far (def_of names.now def.now.name def.now.params.items (pieces names.now (plain def.now.body))) (G.seen sink.new) result }
{
    let so_far = print_fname(names, sink, so_far, def.name);
    let so_far = print_symbol(sink, so_far, Symbol::Equals);
    let so_far = print_params(names, sink, so_far, &def.params);
    print_expr(names, sink, so_far, &def.body)
}

// `case Arg of Clauses end`
#[cycle(expr)]
fn print_case<G: Sink>(
    names: &Names,
    sink: &mut G,
    so_far: Result<Last, Failed>,
    arg: &CoreExpr,
    clauses: &[CoreClause],
) -> Result<Last, Failed>
    requires is_open { (G.seen sink.old).is_open ≡ true }
    requires named { CoreOf names.now (case_of (plain arg.now) (plain_clauses clauses.now)) }
    ensures is_open { (G.seen sink.new).is_open ≡ true }
    ensures prints { Prints (G.seen sink.old) so_far (pieces names.now (case_of (plain arg.now) (plain_clauses clauses.now))) (G.seen sink.new) result }
{
    let so_far = print_word(sink, so_far, Word::Case);
    let so_far = print_expr(names, sink, so_far, arg);
    let so_far = print_word(sink, so_far, Word::Of);
    let so_far = print_clauses(names, sink, so_far, clauses);
    print_word(sink, so_far, Word::End)
}

// `do First Second`
#[cycle(expr)]
fn print_do<G: Sink>(
    names: &Names,
    sink: &mut G,
    so_far: Result<Last, Failed>,
    first: &CoreExpr,
    second: &CoreExpr,
) -> Result<Last, Failed>
    requires is_open { (G.seen sink.old).is_open ≡ true }
    requires named { CoreOf names.now (do_then (plain first.now) (plain second.now)) }
    ensures is_open { (G.seen sink.new).is_open ≡ true }
    ensures prints { Prints (G.seen sink.old) so_far (pieces names.now (do_then (plain first.now) (plain second.now))) (G.seen sink.new) result }
{
    let so_far = print_word(sink, so_far, Word::Do);
    let so_far = print_expr(names, sink, so_far, first);
    print_expr(names, sink, so_far, second)
}

// `receive Clauses after Timeout -> Body`
#[cycle(expr)]
fn print_receive<G: Sink>(
    names: &Names,
    sink: &mut G,
    so_far: Result<Last, Failed>,
    clauses: &[CoreClause],
    timeout: &CoreExpr,
    body: &CoreExpr,
) -> Result<Last, Failed>
    requires is_open { (G.seen sink.old).is_open ≡ true }
    requires named { CoreOf names.now (receive (plain_clauses clauses.now) (plain timeout.now) (plain body.now)) }
    ensures is_open { (G.seen sink.new).is_open ≡ true }
    ensures prints { Prints (G.seen sink.old) so_far (pieces names.now (receive (plain_clauses clauses.now) (plain timeout.now) (plain body.now))) (G.seen sink.new) result }
{
    let so_far = print_word(sink, so_far, Word::Receive);
    let so_far = print_clauses(names, sink, so_far, clauses);
    let so_far = print_word(sink, so_far, Word::After);
    let so_far = print_expr(names, sink, so_far, timeout);
    let so_far = print_symbol(sink, so_far, Symbol::Arrow);
    print_expr(names, sink, so_far, body)
}

// A branch of a `try`: `of Vars -> Body`, or the same with `catch`.
#[cycle(expr)]
fn print_branch<G: Sink>(
    names: &Names,
    sink: &mut G,
    so_far: Result<Last, Failed>,
    word: Word,
    vars: &[CoreVar],
    body: &CoreExpr,
) -> Result<Last, Failed>
    requires is_open { (G.seen sink.old).is_open ≡ true }
    requires vars_named { Each (VarOf names.now) vars.now }
    requires body_named { CoreOf names.now (plain body.now) }
    ensures is_open { (G.seen sink.new).is_open ≡ true }
    ensures prints { Prints (G.seen sink.old) so_far (put_word word ++ (vars_pieces names.now vars.now ++ (put_sym Symbol.Arrow ++ pieces names.now (plain body.now)))) (G.seen sink.new) result }
{
    let so_far = print_word(sink, so_far, word);
    let so_far = print_vars(names, sink, so_far, vars);
    let so_far = print_symbol(sink, so_far, Symbol::Arrow);
    print_expr(names, sink, so_far, body)
}
