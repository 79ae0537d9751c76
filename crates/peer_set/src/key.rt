//! Places as bytes, by which an index looks them up: two places with one key are one.
ghost use Rattle.std.specs.Prelude.{◌≡◌, ◌++◌, ◌∷◌, [], length};
ghost use Rattle.peer_set.specs.Keys.{key_of, kind_number, IsPlace};

use shamap_node::{Kind, Place};
use std::marker::Model;

/// A place as bytes: the wire form of its node's ID and the number of its kind, or zeros for the header.
#[derive(Clone, Copy, PartialEq, Eq, PartialOrd, Ord)]
pub(crate) struct PlaceKey {
    bytes: [u8; 34],
}

impl Model for PlaceKey {
    ghost use Rattle.std.specs.Prelude.{ℕ, List};

    ghost Value = { List ℕ };

    ghost view = { λ a. a.bytes };

    ghost inverse = { λ bytes. record { bytes = bytes } };
}

impl PlaceKey {
    /// The key of a place.
    pub(crate) fn of(place: &Place) -> PlaceKey
        ensures key { result ≡ key_of place.now }
        ensures place { IsPlace place.now }
    {
        match place {
            Place::Header => PlaceKey { bytes: [0; 34] },
            Place::Node { kind, id } => {
                id.known();
                of_parts(id.to_wire(), number(*kind))
            }
        }
    }
}

fn of_parts(wire: [u8; 33], kind: u8) -> PlaceKey
    ensures { result ≡ wire ++ kind ∷ [] }
{
    let mut bytes = [0; 34];
    bytes[..33].copy_from_slice(&wire);
    bytes[33] = kind;
    PlaceKey { bytes }
}

fn number(kind: Kind) -> u8
    ensures { result ≡ kind_number kind }
{
    match kind {
        Kind::State => 1,
        Kind::Tx => 2,
        Kind::Set => 3,
    }
}
