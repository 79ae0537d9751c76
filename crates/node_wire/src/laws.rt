//! Laws of the wire forms, each the contract of an empty function.
ghost use Rattle.node_wire.specs.Laws.{OneNode, ReadByWire, WrittenIsRead};

/// Bytes are a wire form of at most one node. It does nothing.
pub fn one_wire_node()
    ensures { OneNode }
{}

/// What the definitions read of bytes, by a half of 32 bytes, is the node whose wire form they are, and each such node is read. It
/// does nothing.
pub fn read_is_wire()
    ensures { ReadByWire }
{}

/// The wire form that is written of a node is one of its wire forms, and is read as that node. It does nothing.
pub fn written_is_read()
    ensures { WrittenIsRead }
{}
