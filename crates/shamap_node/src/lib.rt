//! Nodes of a SHAMap, the hash tree of an XRP Ledger's entries and transactions, and their prefix
//! forms: the bytes that are hashed and stored (XRP Ledger documentation, "Ledger data formats" and
//! "Hash prefixes").
//!
//! A tree of two items, whose keys begin with the nibbles 2 6 and 2 B:
//!
//!     []        inner node, the root: branch 2 has a hash, the other fifteen are zero
//!      └ [2]       inner node: branches 6 and B have hashes
//!          ├ [2 6]    leaf: the item with the key 26..
//!          └ [2 B]    leaf: the item with the key 2B..
//!
//! An inner node keeps the hashes of the nodes below it, and so its own hash says what all of them are. A leaf stands at the shortest
//! path that no other key begins with.
#![tactic(auto)]

mod forms;
mod leaves;
mod making;
mod parts;
mod shapes;

pub use forms::{
    FormFault, branch_of_form, decode_form, encode_form, hash_of, inner_branch, inner_of,
    is_inner_form, one_form,
};
pub use leaves::{is_leaf_form, leaf_head};
pub use ledger_spec::{Kind, Place, ShapeFault};
pub use making::{InnerForm, inner_form, leaf_form};
pub use parts::{DATA_LIMIT, Inner, Item, ItemFault, LeafHead};
pub use shapes::shape;

/// A leaf: an item of one kind of map. The key of a bare transaction, of kind `Set`, is its hash.
#[derive(Debug, Drop)]
pub struct Leaf {
    pub kind: Kind,
    pub item: Item,
}

/// A node of a map.
#[derive(Debug, Drop)]
pub enum Node {
    Inner(Inner),
    Leaf(Leaf),
}

#[cfg(test)]
mod tests {
    use super::*;
    use half_hash::{Blob, Half512, Hash32, TinyHash};
    use nib_path::NodeId;
    use std::test::Fail;

    /// The account state of rippled's genesis ledger: its one leaf, and the root above it.
    const KEY: &[u8] = b"2B6AC232AA4C4BE41BF49D2459FA4A0347E1B543A4C92FCEE0821C0201E2E9A8";

    const DATA: &[u8] =
        b"\x11\0\x61\x22\0\0\0\0\x24\0\0\0\x01\x25\0\0\0\0\x2D\0\0\0\0\x55\0\0\0\0\0\0\0\0\0\0\0\0\0\0\0\0\0\0\0\0\0\0\0\0\0\0\0\
          \0\0\0\0\0\x62\x41\x63\x45\x78\x5D\x8A\0\0\x81\x14\xB5\xF7\x62\x79\x8A\x53\xD5\x43\xA0\x14\xCA\xF8\xB2\x97\xCF\xF8\xF2\
          \xF9\x37\xE8";

    const LEAF: &[u8] = b"C30E11C83C5ADFB63E9540266E12A6BCEB90E562331DCBE84CECAC0205C51D0F";

    const ROOT: &[u8] = b"A21ED30C04C88046FC61DB9DC19375EEDBD365FD8C17286F27127DF804E9CAA6";

    #[test]
    fn the_genesis_state(rt: HostRuntime) -> Result<(), Fail> {
        let alloc = rt.alloc();
        let key = Hash32::from_hex(KEY).ok().ok_or("key")?;
        let data = Blob::from_slice(alloc, DATA)?;
        let item = Item::new(key, data).ok().ok_or("item")?;
        let leaf = Node::Leaf(Leaf {
            kind: Kind::State,
            item,
        });
        let of_leaf = hash_of::<Half512>(&leaf).to_hex(alloc)?;
        assert_eq!(rt; of_leaf.bytes(), LEAF);
        let mut hashes = [Hash32::zero(); 16];
        assert!(rt; Inner::new(hashes).is_none());
        let below = Hash32::from_hex(LEAF).ok().ok_or("leaf")?;
        hashes[2] = below;
        let inner = Inner::new(hashes).ok_or("inner")?;
        assert!(rt; inner.count() == 1 && inner.branch(2).equals(&below));
        let of_root = hash_of::<Half512>(&Node::Inner(inner)).to_hex(alloc)?;
        assert_eq!(rt; of_root.bytes(), ROOT);
        Ok(())
    }

    #[test]
    fn an_item_without_a_key(rt: HostRuntime) -> Result<(), Fail> {
        let alloc = rt.alloc();
        let none = Blob::from_slice(alloc, b"")?;
        let fault = Item::new(Hash32::zero(), none).err().ok_or("zero")?;
        let long = ItemFault::TooLong(1);
        assert_eq!(rt;
            format!(in alloc; "{fault}, {long}")?.as_str(),
            "the key is zero, the data is too long"
        );
        Ok(())
    }

    /// `MLN`, a zero, the data 1 2, and a key of 0x10 and 31 zeros.
    const FORM: &[u8] =
        b"MLN\0\x01\x02\x10\0\0\0\0\0\0\0\0\0\0\0\0\0\0\0\0\0\0\0\0\0\0\0\0\0\0\0\0\0\0\0";

    #[test]
    fn a_form_there_and_back(rt: HostRuntime) -> Result<(), Fail> {
        let alloc = rt.alloc();
        let node = decode_form::<TinyHash>(alloc, FORM).ok().ok_or("node")?;
        assert!(rt; hash_of::<TinyHash>(&node).bytes[0] == 0xFA);
        let form = encode_form(alloc, &node)?;
        assert_eq!(rt; form.bytes(), FORM);
        let at_root = shape(&node, None, Kind::State, &NodeId::root());
        assert!(rt; matches!(at_root, Err(ShapeFault::LeafAtRoot)));
        assert!(rt; inner_of(FORM).is_none());
        let short = decode_form::<TinyHash>(alloc, b"MLN").err().ok_or("short")?;
        assert_eq!(rt; short, FormFault::Short(3));
        let other = decode_form::<TinyHash>(alloc, b"LWR\0")
            .err()
            .ok_or("other")?;
        assert_eq!(rt; other, FormFault::Prefix(0x4C57_5200));
        Ok(())
    }
}
