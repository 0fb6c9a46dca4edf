// Depths and weights of trees, and let form.
use ef_base::Place;
use ef_core::{CoreExpr, CoreLit, CoreVar, LetStep, core_depth, core_weight, is_let_form};
use ef_forms::{Expr, Node, depth, weight};
use std::alloc::Global;
use std::test::Fail;

const HERE: Place = Place {
    file: 0,
    line: 1,
    column: 1,
};

fn expr(node: Node) -> Expr {
    Expr { place: HERE, node }
}

// Depth and weight.
fn measured(expr: Expr) -> (u32, u64) {
    let both = (depth(&expr), weight(&expr, &[]));
    drop(expr);
    both
}

#[test]
fn parts_of_a_source_are_counted(rt: HostRuntime) -> Result<(), Fail> {
    let alloc = rt.alloc();
    assert_eq!(rt; measured(expr(Node::Int(1))), (1, 1));
    let parts = vec![in alloc; expr(Node::Any)]?;
    assert_eq!(rt; measured(expr(Node::Tuple(parts))), (2, 2));
    Ok(())
}

// `{{.. {} ..}}`, of so many tuples.
fn nested(alloc: Global, tuples: u32) -> Result<CoreExpr, Fail> {
    let mut expr = CoreExpr::Tuple(Vec::new(alloc));
    for _ in 1..tuples {
        expr = CoreExpr::Tuple(vec![in alloc; expr]?);
    }
    Ok(expr)
}

// `let _0 = value in _0`
fn lets(alloc: Global, value: CoreExpr) -> Result<CoreExpr, Fail> {
    let var = CoreVar::Numbered(0);
    let step = LetStep {
        vars: vec![in alloc; var]?,
        value,
    };
    Ok(CoreExpr::Lets {
        steps: vec![in alloc; step]?,
        body: Box::new(alloc, CoreExpr::Var(var))?,
    })
}

#[test]
fn parts_of_core_are_counted(rt: HostRuntime) -> Result<(), Fail> {
    let alloc = rt.alloc();
    let one = CoreExpr::Lit(CoreLit::Int(1));
    assert_eq!(rt; (core_depth(&one), core_weight(&one)), (1, 1));
    let run = lets(alloc, one)?;
    assert_eq!(rt; (core_depth(&run), core_weight(&run)), (2, 4));
    let deep = nested(alloc, 2049)?;
    assert_eq!(rt; (core_depth(&deep), core_weight(&deep)), (2049, 2049));
    Ok(())
}

#[test]
fn items_of_let_form_are_variables_or_literals(rt: HostRuntime) -> Result<(), Fail> {
    let alloc = rt.alloc();
    assert!(rt; is_let_form(&nested(alloc, 1)?));
    assert!(rt; !is_let_form(&nested(alloc, 2)?));
    assert!(rt; is_let_form(&lets(alloc, nested(alloc, 1)?)?));
    assert!(rt; !is_let_form(&lets(alloc, nested(alloc, 2)?)?));
    Ok(())
}
