//! The prefixes of what is hashed: four bytes that keep an object of one kind from being read as one of another.
ghost use Rattle.std.specs.Prelude.{◌≡◌, nat_eq};
ghost use Rattle.std.specs.List.{starts_with};

/// What a hash is the hash of, told by the four bytes before it (XRP Ledger documentation, "Hash
/// prefixes").
#[derive(Clone, Copy, Debug, PartialEq, Eq)]
pub enum Prefix {
    /// `TXN\0`, a transaction without metadata.
    Txn,
    /// `SND\0`, a transaction with metadata.
    Snd,
    /// `MLN\0`, an entry of the account state.
    Mln,
    /// `MIN\0`, an inner node of a map.
    Min,
    /// `LWR\0`, a ledger's header.
    Lwr,
}

impl Prefix {
    ghost use Rattle.half_hash.specs.Prefix.{prefix_of};

    /// The four bytes.
    pub fn bytes(self) -> [u8; 4]
        ensures { result ≡ prefix_of self }
    {
        match self {
            Prefix::Txn => *b"TXN\0",
            Prefix::Snd => *b"SND\0",
            Prefix::Mln => *b"MLN\0",
            Prefix::Min => *b"MIN\0",
            Prefix::Lwr => *b"LWR\0",
        }
    }

    /// Whether the bytes begin with it.
    pub fn begins(self, bytes: &[u8]) -> bool
        ensures { result ≡ starts_with nat_eq bytes.now (prefix_of self) }
    {
        let [w, x, y, z] = self.bytes();
        match bytes {
            [a, b, c, d, ..] => *a == w && *b == x && *c == y && *d == z,
            _ => false,
        }
    }
}
