// Segments of binaries behind what was printed so far.
ghost use Rattle.std.specs.Prelude.{◌≡◌, true, [], ◌∷◌};
ghost use Rattle.ef_core.specs.Everywhere.{PatHolds};
ghost use Rattle.ef_core.specs.Layout.{pat_pieces, pat_segments_pieces, pieces, segment_of, segments_pieces};
ghost use Rattle.ef_core.specs.OfTable.{CoreOf, LitOf, of_table};
ghost use Rattle.ef_core.specs.Plain.{plain, plain_lit, plain_pat, plain_pat_segments, plain_segments};
ghost use Rattle.ef_core.specs.Tree.{bin, pat_bin};
ghost use Rattle.ef_base.specs.Texts.{HasName};
ghost use Rattle.ef_print.specs.Prints.{Prints};
ghost use Rattle.ef_print.specs.Segments.{form_pieces};

use crate::expr::print_expr;
use crate::lexeme::{print_atom, print_int, print_symbol};
use crate::literal::print_lit;
use crate::pattern::print_pat;
use ef_base::{Name, Names};
use ef_core::{CoreLit, CorePatSegment, CoreSegment, Last, Symbol};
use ef_io::{Failed, Sink};

/// Prints the segments of a binary, with commas between.
#[cycle(expr)]
pub fn print_segments<G: Sink>(
    names: &Names,
    sink: &mut G,
    so_far: Result<Last, Failed>,
    segments: &[CoreSegment],
) -> Result<Last, Failed>
    requires is_open { (G.seen sink.old).is_open ≡ true }
    requires named { CoreOf names.now (bin (plain_segments segments.now)) }
    ensures is_open { (G.seen sink.new).is_open ≡ true }
    ensures prints { Prints (G.seen sink.old) so_far (segments_pieces names.now (plain_segments segments.now)) (G.seen sink.new) result }
{
    match segments {
        [] => so_far,
        [first, rest @ ..] => {
            let mut so_far = print_segment(names, sink, so_far, first);
            for segment in rest {
                so_far = print_symbol(sink, so_far, Symbol::Comma);
                so_far = print_segment(names, sink, so_far, segment);
            }
            so_far
        }
    }
}

// `#<Value>(Size, Unit, Kind, Flags)`
#[cycle(expr)]
fn print_segment<G: Sink>(
    names: &Names,
    sink: &mut G,
    so_far: Result<Last, Failed>,
    segment: &CoreSegment,
) -> Result<Last, Failed>
    requires is_open { (G.seen sink.old).is_open ≡ true }
    requires named { CoreOf names.now (bin (plain_segments (segment.now ∷ []))) }
    ensures is_open { (G.seen sink.new).is_open ≡ true }
    ensures prints { Prints (G.seen sink.old) so_far (segment_of names.now (pieces names.now (plain segment.now.value)) (pieces names.now (plain segment.now.size)) segment.now.unit segment.now.kind (plain_lit segment.now.flags)) (G.seen sink.new) result }
{
    let so_far = print_symbol(sink, so_far, Symbol::SegmentBegin);
    let so_far = print_expr(names, sink, so_far, &segment.value);
    let so_far = print_symbol(sink, so_far, Symbol::Greater);
    let so_far = print_symbol(sink, so_far, Symbol::LeftParen);
    let so_far = print_expr(names, sink, so_far, &segment.size);
    let so_far = print_form(
        names,
        sink,
        so_far,
        segment.unit,
        segment.kind,
        &segment.flags,
    );
    print_symbol(sink, so_far, Symbol::RightParen)
}

/// Prints the segments of a binary pattern, with commas between.
#[cycle(expr)]
pub fn print_pat_segments<G: Sink>(
    names: &Names,
    sink: &mut G,
    so_far: Result<Last, Failed>,
    segments: &[CorePatSegment],
) -> Result<Last, Failed>
    requires is_open { (G.seen sink.old).is_open ≡ true }
    requires named { PatHolds (of_table names.now) (pat_bin (plain_pat_segments segments.now)) }
    ensures is_open { (G.seen sink.new).is_open ≡ true }
    ensures prints { Prints (G.seen sink.old) so_far (pat_segments_pieces names.now (plain_pat_segments segments.now)) (G.seen sink.new) result }
{
    match segments {
        [] => so_far,
        [first, rest @ ..] => {
            let mut so_far = print_pat_segment(names, sink, so_far, first);
            for segment in rest {
                so_far = print_symbol(sink, so_far, Symbol::Comma);
                so_far = print_pat_segment(names, sink, so_far, segment);
            }
            so_far
        }
    }
}

// The same, with a pattern for the value.
#[cycle(expr)]
fn print_pat_segment<G: Sink>(
    names: &Names,
    sink: &mut G,
    so_far: Result<Last, Failed>,
    segment: &CorePatSegment,
) -> Result<Last, Failed>
    requires is_open { (G.seen sink.old).is_open ≡ true }
    requires named { PatHolds (of_table names.now) (pat_bin (plain_pat_segments (segment.now ∷ []))) }
    ensures is_open { (G.seen sink.new).is_open ≡ true }
    ensures prints { Prints (G.seen sink.old) so_far (segment_of names.now (pat_pieces names.now (plain_pat segment.now.value)) (pieces names.now (plain segment.now.size)) segment.now.unit segment.now.kind (plain_lit segment.now.flags)) (G.seen sink.new) result }
{
    let so_far = print_symbol(sink, so_far, Symbol::SegmentBegin);
    let so_far = print_pat(names, sink, so_far, &segment.value);
    let so_far = print_symbol(sink, so_far, Symbol::Greater);
    let so_far = print_symbol(sink, so_far, Symbol::LeftParen);
    let so_far = print_expr(names, sink, so_far, &segment.size);
    let so_far = print_form(
        names,
        sink,
        so_far,
        segment.unit,
        segment.kind,
        &segment.flags,
    );
    print_symbol(sink, so_far, Symbol::RightParen)
}

// `, Unit, Kind, Flags`, behind a size.
fn print_form<G: Sink>(
    names: &Names,
    sink: &mut G,
    so_far: Result<Last, Failed>,
    unit: i128,
    kind: Name,
    flags: &CoreLit,
) -> Result<Last, Failed>
    requires is_open { (G.seen sink.old).is_open ≡ true }
    requires kind_named { HasName names.now kind }
    requires flags_named { LitOf names.now (plain_lit flags.now) }
    ensures is_open { (G.seen sink.new).is_open ≡ true }
    ensures prints { Prints (G.seen sink.old) so_far (form_pieces names.now unit kind (plain_lit flags.now)) (G.seen sink.new) result }
{
    let so_far = print_symbol(sink, so_far, Symbol::Comma);
    let so_far = print_int(sink, so_far, unit);
    let so_far = print_symbol(sink, so_far, Symbol::Comma);
    let so_far = print_atom(names, sink, so_far, kind);
    let so_far = print_symbol(sink, so_far, Symbol::Comma);
    print_lit(names, sink, so_far, flags)
}
