//! What a session closes into: the next ledger's header, its hash, and the forms that its maps have made.
ghost use Rattle.std.specs.Prelude.{◌∷◌, [], IfErr, IfOk};
ghost use Rattle.edit_session.specs.Closing.{header_form, EndsWith};
ghost use Rattle.cow_map.specs.Sealing.{AreNamed, first_zero, IsSealFault, NamesZero};

use cow_map::{FormOf, MapFault};
use half_hash::{Blob, Hash32, NodeHash};
use ledger_header::Header;
use std::alloc::Global;

/// What a close is told of the new ledger.
#[derive(Clone, Copy, Debug, PartialEq, Eq)]
pub struct Fields {
    /// All drops that there are.
    pub drops: u64,
    /// When the ledger closed.
    pub close: u32,
    /// To how many seconds the close time was rounded.
    pub resolution: u8,
    /// The close flags.
    pub flags: u8,
}

/// A new ledger: its header and hash, and the forms to store, in their order.
#[derive(Drop)]
pub struct Closed {
    pub header: Header,
    pub hash: Hash32,
    /// The forms that were made here: the account state's, the transactions', then the header's.
    pub forms: Vec<FormOf>,
}

// The ledger with this header, after the forms of its two maps, unless the hash is zero.
pub(crate) fn closed_with<H: NodeHash>(
    alloc: Global,
    header: Header,
    mut forms: Vec<FormOf>,
    mut txs: Vec<FormOf>,
) -> Result<Closed, MapFault>
    requires named { AreNamed H.half forms.items × AreNamed H.half txs.items }
    ensures ends { IfOk result (EndsWith H.half header forms.items txs.items) }
    ensures zero { NamesZero (first_zero H.half (header_form header ∷ [])) result }
    ensures cause { IfErr result IsSealFault }
{
    let hash = header.hash::<H>();
    let form = Blob::from_slice(alloc, &header.form())?;
    if hash.is_zero() {
        return Err(MapFault::ZeroHash(form));
    }
    forms.append(&mut txs)?;
    match forms.push(FormOf { hash, form }) {
        Ok(()) => Ok(Closed {
            header,
            hash,
            forms,
        }),
        Err(_) => Err(MapFault::Memory),
    }
}
