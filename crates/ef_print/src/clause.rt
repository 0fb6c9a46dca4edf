// Clauses behind what was printed so far.
ghost use Rattle.std.specs.Prelude.{◌≡◌, true};
ghost use Rattle.ef_core.specs.Everywhere.{ClausesHold, PatsHold};
ghost use Rattle.ef_core.specs.Layout.{clause_of, clauses_pieces, pats_pieces, pieces};
ghost use Rattle.ef_core.specs.OfTable.{CoreOf, of_table};
ghost use Rattle.ef_core.specs.Plain.{plain, plain_clauses, plain_pats};
ghost use Rattle.ef_print.specs.Prints.{Prints};

use crate::expr::print_expr;
use crate::lexeme::{print_break, print_symbol, print_word};
use crate::pattern::print_pats;
use ef_base::Names;
use ef_core::{CoreClause, Last, Symbol, Word};
use ef_io::{Failed, Sink};

/// Prints clauses, each on a line of its own.
#[cycle(expr)]
pub fn print_clauses<G: Sink>(
    names: &Names,
    sink: &mut G,
    so_far: Result<Last, Failed>,
    clauses: &[CoreClause],
) -> Result<Last, Failed>
    requires is_open { (G.seen sink.old).is_open ≡ true }
    requires named { ClausesHold (of_table names.now) (plain_clauses clauses.now) }
    ensures is_open { (G.seen sink.new).is_open ≡ true }
    ensures prints { Prints (G.seen sink.old) so_far (clauses_pieces names.now (plain_clauses clauses.now)) (G.seen sink.new) result }
{
    let mut so_far = so_far;
    for clause in clauses {
        so_far = print_clause(names, sink, so_far, clause);
    }
    so_far
}

// A clause: its patterns, its guard and its body.
#[cycle(expr)]
fn print_clause<G: Sink>(
    names: &Names,
    sink: &mut G,
    so_far: Result<Last, Failed>,
    clause: &CoreClause,
) -> Result<Last, Failed>
    requires is_open { (G.seen sink.old).is_open ≡ true }
    requires pats_named { PatsHold (of_table names.now) (plain_pats clause.now.pats.items) }
    requires guard_named { CoreOf names.now (plain clause.now.guard) }
    requires body_named { CoreOf names.now (plain clause.now.body) }
    ensures is_open { (G.seen sink.new).is_open ≡ true }
    ensures prints { Prints (G.seen sink.old) so_far (clause_of names.now (pats_pieces names.now (plain_pats clause.now.pats.items)) (pieces names.now (plain clause.now.guard)) (pieces names.now (plain clause.now.body))) (G.seen sink.new) result }
{
    let so_far = print_break(so_far);
    let so_far = print_pats(names, sink, so_far, &clause.pats);
    let so_far = print_word(sink, so_far, Word::When);
    let so_far = print_expr(names, sink, so_far, &clause.guard);
    let so_far = print_symbol(sink, so_far, Symbol::Arrow);
    print_expr(names, sink, so_far, &clause.body)
}
