//! The call of this crate, `page`: the next items of a map behind a key.
ghost use Rattle.std.specs.Prelude.{IfErr, IfOk};
ghost use Rattle.std.specs.FinMap as map;
ghost use Rattle.ledger_spec.specs.Pages.{IsPageOf, heard_from};
ghost use Rattle.path_proof.specs.Paths.{held_nodes};
ghost use Rattle.path_proof.specs.Sources.{AreHeld, LeavesSource, RoseIf};
ghost use Rattle.map_cursor.specs.Shown.{items_in, HasFurther};
ghost use Rattle.map_cursor.specs.Visits.{Refused, TellsPage};

use crate::Page;
use crate::visits::{Query, visit};
use half_hash::{Hash32, NodeHash, known_half};
use nib_path::NodeId;
use path_proof::{NodeSource, ReadFault, known_key};
use shamap_node::Kind;
use std::alloc::Global;

/// The first `n` items with keys greater than `after` of the map below the root, all of them where there
/// are fewer, with each node that was read. The first place that is wanted and can't be passed is the
/// answer else: nothing is held for it, or what is held breaks a rule there.
pub fn page<H: NodeHash, S: NodeSource<H>>(
    alloc: Global,
    source: &mut S,
    root: &Hash32,
    kind: Kind,
    after: &Hash32,
    n: usize,
) -> Result<Page, ReadFault>
    ensures tells { IfOk result (TellsPage H.half kind root.now after.now n S.tells (map.get (S.stored source.old))) }
    ensures cause { IfErr result
        (Refused H.half kind S.tells (map.get (S.stored source.old)) (heard_from H.half kind root.now after.now) n) }
    ensures source { LeavesSource S.tells S.stored S.rest S.faults (RoseIf ReadFault.Fault) source.old source.new result }
{
    known_key(after);
    known_half::<H>();
    read_page::<H, S>(alloc, source, root, kind, after, n)
}

// The same as `page`.
fn read_page<H: NodeHash, S: NodeSource<H>>(
    alloc: Global,
    source: &mut S,
    root: &Hash32,
    kind: Kind,
    after: &Hash32,
    n: usize,
) -> Result<Page, ReadFault>
    ensures page { IfOk result (λ p. IsPageOf H.half kind root.now after.now n (held_nodes p.used.items) (items_in p.leaves.items)) }
    ensures leaves { IfOk result (HasFurther after.now) }
    ensures held { IfOk result (λ p. AreHeld H.half S.tells (map.get (S.stored source.old)) (held_nodes p.used.items)) }
    ensures cause { IfErr result
        (Refused H.half kind S.tells (map.get (S.stored source.old)) (heard_from H.half kind root.now after.now) n) }
    ensures source { LeavesSource S.tells S.stored S.rest S.faults (RoseIf ReadFault.Fault) source.old source.new result }
{
    let mut page = Page::new(alloc);
    let query = Query {
        kind,
        after: *after,
        most: n,
    };
    visit::<H, S>(
        alloc,
        source,
        &query,
        None,
        &NodeId::root(),
        root,
        &mut page,
    )?;
    Ok(page)
}
