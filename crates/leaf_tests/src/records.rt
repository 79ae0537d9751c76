//! Records, each read of its text, and paths that are read of them. A hash is the sum of the bytes, and zeros.
use half_hash::{Hash32, NodeHash, TinyHash};
use ledger_machine::Record;
use path_proof::{FetchFault, NodeSource, Outcome, follow, node_of_form, read};
use script_form::{LineFault, record_of};
use shamap_node::{Kind, Node};
use std::alloc::Global;
use std::process::Abort;
use std::sync::Arc;
use std::test::Fail;

/// What follows the word `store`, and the first byte of the hash as a number, or the cause of the refusal. `]` stands for 62 zeros, and
/// `_` for 64. Under DE (222) stands an account state of one item, whose key begins with 10 (16); under BF (191) there is one more, at
/// 11 (17).
const RECORDS: &str = " FA] 4D4C4E00010210] => 250
 FD] 4D4C4E000511] => 253
 DE] 4D494E00_FA]______________ => 222
 DB] 4D494E00FA]FD]______________ => 219
 BF] 4D494E00_DB]______________ => 191
 FB] 54584E0001 => 251
 => cause 6
 FB] - - => cause 6
 FB] 5 => cause 8
 FA] 54584E0001 => cause 11
 _ 4D4C4E0019_ => cause 11";

/// The first byte of a key that is read below BF, and of another that its path is followed for, as numbers, and what the path says of it.
const PATHS: &str = "17 17 => value
16 16 => value
17 16 => none
18 18 => nothing
18 19 => nothing
18 16 => none
32 48 => nothing
32 18 => none";

/// As many zeros as `]` stands for.
const ZEROS: &str = "00000000000000000000000000000000000000000000000000000000000000";

/// Adds what the byte stands for.
fn add(bytes: &mut Vec<u8>, byte: u8) -> Result<(), Fail> {
    match byte {
        b']' => bytes.extend_from_slice(ZEROS.as_bytes())?,
        b'_' => {
            bytes.extend_from_slice(ZEROS.as_bytes())?;
            bytes.extend_from_slice("00".as_bytes())?;
        }
        other => bytes.push(other)?,
    }
    Ok(())
}

/// The bytes that are written in short.
pub(crate) fn expand(alloc: Global, short: &str) -> Result<Vec<u8>, Fail> {
    let mut bytes = Vec::new(alloc);
    for byte in short.bytes() {
        add(&mut bytes, byte)?;
    }
    Ok(bytes)
}

/// Records as what gives nodes. It tells no proof what it holds.
#[derive(Drop)]
pub(crate) struct Records {
    held: Vec<Record>,
}

impl NodeSource<TinyHash> for Records {
    ghost use Rattle.std.specs.Prelude.{false};
    ghost use Rattle.std.specs.Bool.{⊤};
    ghost use Rattle.path_proof.specs.Sources.{no_nodes};

    ghost tells = { false };

    ghost stored = { λ s. no_nodes };

    ghost Rest = { ⊤ };

    ghost rest = { λ s. tt };

    ghost faults = { λ s. 0 };

    fn fetch(&mut self, alloc: Global, h: &Hash32) -> Result<Option<Arc<Node>>, FetchFault> {
        for one in &self.held {
            if one.hash.equals(h) {
                let form = one.form.bytes();
                return node_of_form(alloc, h, &TinyHash::half(form), form);
            }
        }
        Ok(None)
    }
}

/// What the text says: a record, which is kept.
fn record_word(alloc: Global, held: &mut Vec<Record>, text: &[u8]) -> Result<String, Fail> {
    match record_of::<TinyHash>(alloc, text) {
        Ok(one) => {
            let first = one.hash.bytes[0];
            held.push(one)?;
            Ok(format!(in alloc; "{first}")?)
        }
        Err(LineFault::Cause(cause)) => Ok(format!(in alloc; "cause {cause}")?),
        Err(LineFault::Memory) => Err("memory".into()),
    }
}

/// Keeps the record of a line, which must be read as the line says.
fn read_line(alloc: Global, held: &mut Vec<Record>, line: &str) -> Result<(), Fail> {
    let (record, says) = line.split_once(" => ").ok_or("answer")?;
    let text = expand(alloc, record)?;
    let said = record_word(alloc, held, &text)?;
    if said.as_str() != says {
        return Err("another record".into());
    }
    Ok(())
}

/// The records.
pub(crate) fn known_records(alloc: Global) -> Result<Records, Fail> {
    let mut held = Vec::new(alloc);
    for line in RECORDS.lines() {
        read_line(alloc, &mut held, line)?;
    }
    Ok(Records { held })
}

/// The number, and 31 zeros.
pub(crate) fn key(word: &str) -> Result<Hash32, Fail> {
    let mut bytes = [0; 32];
    bytes[0] = word.parse().or(Err("no byte"))?;
    Ok(Hash32 { bytes })
}

/// The nodes of the path of a key below BF.
fn path(alloc: Global, source: &mut Records, word: &str) -> Result<Vec<Arc<Node>>, Fail> {
    let (root, at) = (key("191")?, key(word)?);
    let answer = read::<TinyHash, Records>(alloc, source, &root, Kind::State, &at);
    Ok(answer.ok().ok_or("no answer")?.used)
}

/// What the nodes say of a key.
fn path_word(used: &[Arc<Node>], word: &str) -> Result<&'static str, Fail> {
    let (root, at) = (key("191")?, key(word)?);
    Ok(match follow::<TinyHash>(&root, Kind::State, &at, used) {
        Some(Outcome::Value) => "value",
        Some(Outcome::Nothing) => "nothing",
        None => "none",
    })
}

/// What the path of the first key says of the other one.
fn said_of(alloc: Global, source: &mut Records, keys: &str) -> Result<&'static str, Fail> {
    let (way, other) = keys.split_once(' ').ok_or("key")?;
    let used = path(alloc, source, way)?;
    path_word(&used, other)
}

/// All paths.
fn follow_all(rt: &impl Abort, alloc: Global, source: &mut Records) -> Result<(), Fail> {
    for line in PATHS.lines() {
        let (keys, says) = line.split_once(" => ").ok_or("answer")?;
        let said = said_of(alloc, source, keys)?;
        assert_eq!(rt; said, says, "{line}");
    }
    Ok(())
}

#[test]
fn paths_are_followed(rt: HostRuntime) -> Result<(), Fail> {
    let mut source = known_records(rt.alloc())?;
    follow_all(&rt, rt.alloc(), &mut source)
}
