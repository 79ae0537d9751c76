//! What a form names is shaded, read in place: no list of it is made.
ghost use Rattle.std.specs.Prelude.{◌∷◌, [], IsTrue, is_some};
ghost use Rattle.std.specs.List.{filter};
ghost use Rattle.ledger_spec.specs.Bytes.{is_nonzero};
ghost use Rattle.ledger_spec.specs.Forms.{inner_of};
ghost use Rattle.ledger_spec.specs.Reach.{kids};
ghost use Rattle.copy_walk.specs.Calls.{ShadesEach};

use crate::walk::CopyWalk;
use half_hash::{Hash32, Memory};
use ledger_header::Header;
use shamap_node::{inner_branch, is_inner_form};

impl CopyWalk {
    /// Has what a form names taken, the zero hash left out: an inner node's branches, or a header's roots.
    pub(crate) fn shade_kids(&mut self, form: &[u8]) -> Result<(), Memory>
        ensures { ShadesEach self.old (kids form.now) result self.new }
    {
        if is_inner_form(form) {
            return self.shade_branches(form);
        }
        if let Some(header) = Header::from_form(form) {
            return self.shade_roots(&header);
        }
        Ok(())
    }

    // The branches that aren't empty of an inner node's form.
    fn shade_branches(&mut self, form: &[u8]) -> Result<(), Memory>
        requires { IsTrue (is_some (inner_of form.now)) }
        ensures { ShadesEach self.old (kids form.now) result self.new }
    {
        for b in 0..16u8 {
            self.shade_unless_zero(&inner_branch(form, b))?;
        }
        Ok(())
    }

    // The roots of the maps that aren't empty.
    fn shade_roots(&mut self, header: &Header) -> Result<(), Memory>
        ensures { ShadesEach self.old (filter is_nonzero (header.now.state_root ∷ header.now.tx_root ∷ [])) result self.new }
    {
        self.shade_unless_zero(&header.state_root)?;
        self.shade_unless_zero(&header.tx_root)?;
        Ok(())
    }

    // A hash, unless it is zero, as where a branch or a map is empty.
    fn shade_unless_zero(&mut self, h: &Hash32) -> Result<(), Memory>
        ensures { ShadesEach self.old (filter is_nonzero (h.now ∷ [])) result self.new }
    {
        if h.is_zero() {
            return Ok(());
        }
        self.shade(h)?;
        Ok(())
    }
}
