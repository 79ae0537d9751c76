//! The nibbles of 32 bytes: one read or set, the first ones of a key, and the first one that isn't zero.
ghost use Rattle.std.specs.Prelude.{◌≡◌, ◌-◌, ◌*◌, ◌<◌, ◌≤◌, ◌++◌, take, replicate, slice_set, nat_lt, IsTrue};
ghost use Rattle.std.specs.List.{list_all};
ghost use Rattle.nib_path.specs.Paths.{nibbles, nibble_of, first_set_from};

/// Nibble `i` of a key, the branch that rippled's `selectBranch` takes at depth `i`: the high half of byte `i / 2` for an even `i`, and
/// the low half for an odd one.
pub fn nibble(key: &[u8; 32], i: u8) -> u8
    requires { i < 64 }
    ensures value { result ≡ nibble_of key.now i }
    ensures small { result < 16 }
{
    let byte = key[i as usize / 2];
    if i % 2 == 0 { byte / 16 } else { byte % 16 }
}

/// Nibble `i` becomes `n`.
pub(crate) fn set_nibble(id: &mut [u8; 32], i: u8, n: u8)
    requires place { i < 64 }
    requires small { n < 16 }
    ensures { nibbles id.new ≡ slice_set (nibbles id.old) i n }
{
    let at = i as usize / 2;
    let byte = id[at];
    id[at] = if i % 2 == 0 {
        n * 16 + byte % 16
    } else {
        byte / 16 * 16 + n
    };
}

/// The key's first nibbles, and then zeros.
pub(crate) fn head_of(key: &[u8; 32], depth: u8) -> [u8; 32]
    requires { depth ≤ 64 }
    ensures { nibbles result ≡ take depth (nibbles key.now) ++ replicate (64 - depth) 0 }
{
    let whole = depth as usize / 2;
    let mut id = [0; 32];
    id[..whole].copy_from_slice(&key[..whole]);
    if depth % 2 == 1 {
        set_nibble(&mut id, depth - 1, nibble(key, depth - 1));
    }
    id
}

/// For proofs: each half of a byte is below 16.
pub(crate) fn known_small(id: &[u8; 32])
    ensures { IsTrue (list_all (λ n. nat_lt n 16) (nibbles id.now)) }
{
    let _first = nibble(id, 0);
}

/// The first nibble at or past the depth that is not zero: the low half of a byte that the depth divides, and else by whole bytes.
pub(crate) fn first_set(id: &[u8; 32], depth: u8) -> Option<u8>
    requires { depth ≤ 64 }
    ensures { result ≡ first_set_from depth (nibbles id.now) }
{
    if depth % 2 == 1 && nibble(id, depth) != 0 {
        return Some(depth);
    }
    first_set_byte(id, (depth as usize + 1) / 2)
}

// The first nibble that is not zero, from a byte on.
fn first_set_byte(id: &[u8; 32], start: usize) -> Option<u8>
    requires { start ≤ 32 }
    ensures { result ≡ first_set_from (2 * start) (nibbles id.now) }
{
    for at in start..32 {
        let byte = id[at];
        if byte != 0 {
            let high = 2 * at as u8;
            return Some(if byte < 16 { high + 1 } else { high });
        }
    }
    None
}
