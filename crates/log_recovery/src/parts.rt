//! The parts of a store over a shelf of logs: what a stop leaves of them, and that no stored form is lost.
ghost use Rattle.std.specs.Prelude.{◌≡◌, None, IsTrue, IfOk};
ghost use Rattle.std.specs.Option.{option_map};
ghost use Rattle.rotating_store.specs.Stores.{nodes_of};
ghost use Rattle.log_shelf.specs.Shelves.{WasStopped};
ghost use Rattle.log_shelf.specs.Stops.{held_of};
ghost use Rattle.log_shelf.specs.Images.{files_in, images_of as images_in, AreOnShelf};
ghost use Rattle.log_recovery.specs.Parts.{backends_of, LosesNoForm};

use half_hash::{Memory, NodeHash, known_half};
use log_shelf::{LogShelf, MemRoom, Room, a_stop_loses_no_pair, images_of};
use rotating_store::{Parts, RotStore};
use std::alloc::Global;

/// The parts of a store, which hold what it does. It tells a proof that over any files that a stop left of them each stored form is
/// recovered.
pub fn a_stop_loses_no_form<H: NodeHash, R: Room + Send>(
    store: &RotStore<LogShelf<R>>,
) -> Parts<'_, LogShelf<R>>
where
    R::D: Send,
    ensures on { let bs = backends_of result.archive.now result.writable.now (option_map (λ b. b.now) result.ready) in
        AreOnShelf result.shelf.now bs }
    ensures kept { let bs = backends_of result.archive.now result.writable.now (option_map (λ b. b.now) result.ready) in
        LosesNoForm H.half result.shelf.now bs (nodes_of store.now) }
    ensures maps { (held_of result.writable.now ≡ store.now.writable) × (held_of result.archive.now ≡ store.now.archive) }
{
    known_half::<H>();
    let parts = store.parts();
    a_stop_loses_no_pair(parts.shelf);
    parts
}

/// A room without a stop that has what a stop may leave of a store's disks: without the writes since the last sync (0), with all of them
/// (1), or with their ranges filled by FF (any other pick).
pub fn images(
    alloc: Global,
    parts: &Parts<'_, LogShelf<MemRoom>>,
    pick: u8,
) -> Result<MemRoom, Memory>
    ensures files { let bs = backends_of parts.now.archive.now parts.now.writable.now (option_map (λ b. b.now) parts.now.ready) in
        IfOk result (λ room. files_in room ≡ images_in pick parts.now.shelf.now bs) }
    ensures stop { IfOk result (λ room. room.stop ≡ None) }
    ensures stopped { let bs = backends_of parts.now.archive.now parts.now.writable.now (option_map (λ b. b.now) parts.now.ready) in
        AreOnShelf parts.now.shelf.now bs → IfOk result (λ room. WasStopped parts.now.shelf.now bs (files_in room)) }
{
    match parts.ready {
        None => images_of(alloc, parts.shelf, &[parts.archive, parts.writable], pick),
        Some(ready) => images_of(
            alloc,
            parts.shelf,
            &[parts.archive, parts.writable, ready],
            pick,
        ),
    }
}
