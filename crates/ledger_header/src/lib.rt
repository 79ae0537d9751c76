//! A ledger's header, 118 bytes, and its form: the bytes behind the prefix `LWR\0`, which are hashed and stored (XRP Ledger
//! documentation, "Ledger header").
//!
//! | Bytes | Field |
//! |---|---|
//! | 0 to 3 | sequence |
//! | 4 to 11 | total drops |
//! | 12 to 43 | hash of the parent |
//! | 44 to 75 | root of the transactions |
//! | 76 to 107 | root of the account state |
//! | 108 to 111 | the parent's close time |
//! | 112 to 115 | close time |
//! | 116 | close resolution |
//! | 117 | close flags |
//!
//! Numbers stand with the high byte first.
#![tactic(auto)]

ghost use Rattle.std.specs.Prelude.{◌≡◌, ◌↔◌, ◌++◌, length, IfErr, IfOk, IfSome, IsOk, Ok};
ghost use Rattle.std.specs.Option.{option_map};
ghost use Rattle.ledger_spec.specs.Forms.{header_prefix, header_of};
ghost use Rattle.ledger_spec.specs.Header.{header_bytes, IsHeader};
ghost use Rattle.ledger_header.specs.Fields.{fields, Reads};

mod reading;
mod writing;

use half_hash::{Hash32, NodeHash, Prefix};
use reading::{hash_at, u32_at, u64_at};
use thiserror::Error;
use writing::{put, put_u32, put_u64};

/// A ledger's header.
#[derive(Clone, Copy, Debug, PartialEq, Eq)]
pub struct Header {
    /// The ledger's number.
    pub seq: u32,
    /// All drops that there are; a million of them are one XRP.
    pub drops: u64,
    /// The hash of the ledger before this one.
    pub parent: Hash32,
    /// The root of the transactions.
    pub tx_root: Hash32,
    /// The root of the account state.
    pub state_root: Hash32,
    /// When the parent closed.
    pub parent_close: u32,
    /// When this ledger closed.
    pub close: u32,
    /// To how many seconds the close time was rounded.
    pub resolution: u8,
    /// The close flags.
    pub flags: u8,
}

/// Why bytes are no header.
#[derive(Clone, Copy, Debug, PartialEq, Eq, Error)]
pub enum HeaderFault {
    /// There are not 118 bytes, but this many.
    #[error("not 118 bytes long")]
    Length(usize),
}

impl Header {
    /// The 118 bytes.
    pub fn encode(&self) -> [u8; 118]
        ensures bytes { result ≡ header_bytes (fields self.now) }
        ensures reads { Reads result self.now }
    {
        self.known();
        let mut bytes = [0; 118];
        put_u32(&mut bytes, 0, self.seq);
        put_u64(&mut bytes, 4, self.drops);
        put(&mut bytes, 12, &self.parent.bytes);
        put(&mut bytes, 44, &self.tx_root.bytes);
        put(&mut bytes, 76, &self.state_root.bytes);
        put_u32(&mut bytes, 108, self.parent_close);
        put_u32(&mut bytes, 112, self.close);
        put(&mut bytes, 116, &[self.resolution, self.flags]);
        bytes
    }

    /// The header of 118 bytes. Bytes of any other length are refused.
    pub fn decode(bytes: &[u8]) -> Result<Header, HeaderFault>
        ensures size { IsOk result ↔ (length bytes.now ≡ 118) }
        ensures bytes { IfOk result (λ h. header_bytes (fields h) ≡ bytes.now) }
        ensures fault { IfErr result (λ fault. fault ≡ HeaderFault.Length (length bytes.now)) }
        ensures reads { IfOk result (λ h. Reads bytes.now h) }

        // a header's bytes are read as that header
        ensures back { (h : Header) → IsHeader (fields h) → bytes.now ≡ header_bytes (fields h) → result ≡ Ok h }
    {
        if bytes.len() != 118 {
            return Err(HeaderFault::Length(bytes.len()));
        }
        Ok(header_in(bytes))
    }

    /// The form of the header, the 118 bytes behind the prefix, which is hashed and stored.
    pub fn form(&self) -> [u8; 122]
        ensures { result ≡ header_prefix ++ header_bytes (fields self.now) }
    {
        let mut form = [0; 122];
        put(&mut form, 0, &Prefix::Lwr.bytes());
        put(&mut form, 4, &self.encode());
        form
    }

    /// The header whose form the bytes are, or none.
    #[tactic(auto, unfolding(ledger_spec::specs::Forms::header_of))]
    pub fn from_form(bytes: &[u8]) -> Option<Header>
        ensures exact { option_map (λ h. header_bytes (fields h)) result ≡ header_of bytes.now }
        ensures reads { IfSome result (λ h. Reads (header_bytes (fields h)) h) }
    {
        if bytes.len() != 122 || !Prefix::Lwr.begins(bytes) {
            return None;
        }
        let (_prefix, header) = bytes.split_at(4);
        Some(header_in(header))
    }

    /// The header's hash, which is the ledger's: that of its form. It takes no memory.
    pub fn hash<H: NodeHash>(&self) -> Hash32
        ensures { result ≡ H.half (header_prefix ++ header_bytes (fields self.now)) }
    {
        H::half(&self.form())
    }

    /// For proofs: the numbers are within their sizes, and the hashes have 32 bytes. It does nothing.
    pub fn known(&self)
        ensures { IsHeader (fields self.now) }
    {
        sized(*self);
    }
}

// For proofs: what a header's type says of it.
fn sized(header: Header)
    ensures { IsHeader (fields header) }
{
    header.parent.known();
    header.tx_root.known();
    header.state_root.known();
}

// The header of 118 bytes.
fn header_in(bytes: &[u8]) -> Header
    requires { length bytes.now ≡ 118 }
    ensures reads { Reads bytes.now result }
    ensures exact { header_bytes (fields result) ≡ bytes.now }
{
    Header {
        seq: u32_at(bytes, 0),
        drops: u64_at(bytes, 4),
        parent: hash_at(bytes, 12),
        tx_root: hash_at(bytes, 44),
        state_root: hash_at(bytes, 76),
        parent_close: u32_at(bytes, 108),
        close: u32_at(bytes, 112),
        resolution: bytes[116],
        flags: bytes[117],
    }
}

#[cfg(test)]
mod tests {
    use super::*;
    use half_hash::Half512;
    use std::test::Fail;

    /// The header of rippled's genesis ledger, and its hash.
    const GENESIS: &[u8; 118] =
        b"\0\0\0\x01\x01\x63\x45\x78\x5D\x8A\0\0\0\0\0\0\0\0\0\0\0\0\0\0\0\0\0\0\0\0\0\0\0\0\0\0\0\0\0\0\0\0\0\0\0\0\0\0\0\0\0\0\
          \0\0\0\0\0\0\0\0\0\0\0\0\0\0\0\0\0\0\0\0\0\0\0\0\xA2\x1E\xD3\x0C\x04\xC8\x80\x46\xFC\x61\xDB\x9D\xC1\x93\x75\xEE\xDB\
          \xD3\x65\xFD\x8C\x17\x28\x6F\x27\x12\x7D\xF8\x04\xE9\xCA\xA6\0\0\0\0\0\0\0\0\x1E\0";

    const HASH: &[u8] = b"AB868A6CFEEC779C2FF845C0AF00A642259986AF40C01976A7F842B6918936C7";

    const STATE: &[u8] = b"A21ED30C04C88046FC61DB9DC19375EEDBD365FD8C17286F27127DF804E9CAA6";

    #[test]
    fn the_genesis_header(rt: HostRuntime) -> Result<(), Fail> {
        let alloc = rt.alloc();
        let header = Header::decode(GENESIS).ok().ok_or("header")?;
        assert!(rt; header.seq == 1 && header.drops == 100_000_000_000_000_000);
        assert!(rt; header.parent.is_zero() && header.tx_root.is_zero());
        let state = header.state_root.to_hex(alloc)?;
        assert_eq!(rt; state.bytes(), STATE);
        assert!(rt; header.parent_close == 0 && header.close == 0);
        assert!(rt; header.resolution == 30 && header.flags == 0);
        assert!(rt; header.encode() == *GENESIS);
        let hash = header.hash::<Half512>().to_hex(alloc)?;
        assert_eq!(rt; hash.bytes(), HASH);
        Ok(())
    }

    #[test]
    fn forms_and_other_lengths(rt: HostRuntime) -> Result<(), Fail> {
        let alloc = rt.alloc();
        let header = Header::decode(GENESIS).ok().ok_or("header")?;
        let form = header.form();
        assert!(rt; Header::from_form(&form).is_some_and(|h| h == header));
        assert!(rt; Header::from_form(GENESIS).is_none());
        let fault = Header::decode(&form[..117]).err().ok_or("short")?;
        assert_eq!(rt; fault, HeaderFault::Length(117));
        let text = format!(in alloc; "{fault}")?;
        assert_eq!(rt; text.as_str(), "not 118 bytes long");
        Ok(())
    }
}
