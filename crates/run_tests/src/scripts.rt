//! Worked scripts and their journals, over the hash that adds the bytes.

/// A script, the status, and the journal, in short: `[xx]` is the byte xx and 31 zero bytes, `_` is 32
/// zero bytes, `@` the header of ledger 10, and `#` the root of its state map.
pub(crate) const ROWS: [(&str, u8, &str); 23] = [
    (WHOLE, 0, WHOLE_SAYS),
    (MARKED, 0, MARKED_SAYS),
    (SMALL, 0, WHOLE_SAYS),
    (COMPRESSED, 0, COMPRESSED_SAYS),
    (TX, 0, TX_SAYS),
    (READ, 0, READ_SAYS),
    (COLLIDING, 7, COLLIDING_SAYS),
    (LEAVES_CLASH, 7, LEAVES_CLASH_SAYS),
    (HEADERS_CLASH, 7, HEADERS_CLASH_SAYS),
    (HEADERS, 0, HEADERS_SAYS),
    (REFUSED, 0, REFUSED_SAYS),
    (TWO_LEAVES, 0, TWO_LEAVES_SAYS),
    (BROKEN, 0, BROKEN_SAYS),
    (KINDS, 0, KINDS_SAYS),
    (TICKS, 0, TICKS_SAYS),
    (WAITING, 0, WAITING_SAYS),
    (EDITED, 0, EDITED_SAYS),
    (ZERO_CLOSED, 7, ZERO_CLOSED_SAYS),
    (CLOSE_CLASH, 7, CLOSE_CLASH_SAYS),
    (LAST_SEQ, 0, LAST_SEQ_SAYS),
    (LYING, 0, LYING_SAYS),
    (LEAF_AS_ROOT, 0, LEAF_AS_ROOT_SAYS),
    (STORED_LIES, 7, STORED_LIES_SAYS),
];

/// The words, a script and the journal of each rotation.
pub(crate) const ROTATIONS: [(&[&str], &str, &str); 2] = [
    (&["replay", "--interval", "4"], TURNED, TURNED_SAYS),
    (TURNING, TURNED_TWICE, TURNED_TWICE_SAYS),
];

/// The words of a replay with a dump.
pub(crate) const DUMPING: &[&str] = &["replay", "--dump"];

/// The words of a replay in which a rotation is due with each ledger, and of its dump.
pub(crate) const TURNING: &[&str] = &["replay", "--interval", "1", "--dump"];

pub(crate) const WHOLE: &str = "0 want [DD] 10
0 peer 5 [DD]
0 check [DD]
0 base 5 [DD] @ #
0 check [DD]
0 node 5 [DD] state [10]01 0102[10]01
0 node 5 [DD] state [10]01 0102[10]01
0 check [DD]
0 check [DD]
";

pub(crate) const WHOLE_SAYS: &str = "1 0 want opened
2 0 peer added
3 0 check need 5 header
4 0 base good / good
5 0 check need 5 state:[10]01
6 0 node good
7 0 node duplicate
8 0 check complete
9 0 check notopen
end complete 1 closed 0 listed 1 floor 0 last 10 epoch 0
";

/// The same, with a root in the form of its branches alone.
/// Ledger 20 has the same account state as ledger 10.
pub(crate) const MARKED: &str = "0 want [DD] 10
0 peer 5 [DD]
0 check [DD]
0 base 5 [DD] @ #
0 check [DD]
0 node 5 [DD] state [10]01 0102[10]01
0 node 5 [DD] state [10]01 0102[10]01
0 check [DD]
0 want [E7] 20
0 peer 5 [E7]
0 base 5 [E7] 000000140000000000000000__[DE]00000000000000000000
0 check [E7]
";

const MARKED_SAYS: &str = "1 0 want opened
2 0 peer added
3 0 check need 5 header
4 0 base good / good
5 0 check need 5 state:[10]01
6 0 node good
7 0 node duplicate
8 0 check complete
9 0 want opened
10 0 peer added
11 0 base good
12 0 check complete
end complete 2 closed 0 listed 2 floor 0 last 10 epoch 0
";

pub(crate) const SMALL: &str = "0 want [DD] 10
0 peer 5 [DD]
0 check [DD]
0 base 5 [DD] @ [FA]0103
0 check [DD]
0 node 5 [DD] state [10]01 0102[10]01
0 node 5 [DD] state [10]01 0102[10]01
0 check [DD]
0 check [DD]
";

/// All that is stored then: the header, the root and the leaf.
pub(crate) const DUMP: &str = "store [DD] 4C575200@
store [DE] 4D494E00_[FA]______________
store [FA] 4D4C4E000102[10]
";

/// Behind these records the ledger is whole without asking anybody.
pub(crate) const AGAIN: &str = "0 want [DD] 0
0 check [DD]
";

pub(crate) const AGAIN_SAYS: &str = "4 0 want opened
5 0 check complete
end complete 1 closed 0 listed 1 floor 0 last 10 epoch 0
";

/// A ledger with a transaction map: its root is first given as the state map's, which has another hash, then under its own.
const TX: &str = "0 want [D8] 10
0 peer 5 [D8]
0 base 5 [D8] 0000000A0000000000000000_[FB][DE]00000000000000000000 # #
0 check [D8]
0 base 5 [D8] 0000000A0000000000000000_[FB][DE]00000000000000000000 # ___[17]____________02
0 check [D8]
0 node 5 [D8] state [10]01 0102[10]01
0 node 5 [D8] tx [30]01 01[30]01
0 node 5 [D8] tx [30]01 02[30]04
0 check [D8]
";

const TX_SAYS: &str = "1 0 want opened
2 0 peer added
3 0 base good / good / bad hash [DE]
4 0 check need 5 state:[10]01 tx:_00
5 0 base duplicate / duplicate / good
6 0 check need 5 tx:[30]01
7 0 node good
8 0 node bad hash [18]
9 0 node good
10 0 check complete
end complete 1 closed 0 listed 1 floor 0 last 10 epoch 0
";

/// The root in the form of its branches alone.
const COMPRESSED: &str = "0 want [DD] 10
0 peer 5 [DD]
0 check [DD]
0 base 5 [DD] @ [FA]0103
0 check [DD]
0 base 5 [DD] @ #
";

const COMPRESSED_SAYS: &str = "1 0 want opened
2 0 peer added
3 0 check need 5 header
4 0 base good / good
5 0 check need 5 state:[10]01
6 0 base duplicate / duplicate
end complete 0 closed 0 listed 0 floor 0 last - epoch 0
";

/// The same ledger read: only what is retained is viewed, a view is its actor's own, and each map has its own keys.
const READ: &str = "0 want [D8] 10
0 peer 5 [D8]
0 base 5 [D8] 0000000A0000000000000000_[FB][DE]00000000000000000000 # ___[17]____________02
0 view 1 [D8]
0 node 5 [D8] state [10]01 0102[10]01
0 node 5 [D8] tx [30]01 02[30]04
0 check [D8]
0 view 1 [D8]
0 view 1 [D8]
0 view 2 [DD]
0 get 1 tx [30]
0 get 1 state [30]
0 get 1 state [10]
0 get 1 state [11]
0 get 1 tx [10]
1 after 15 get 1 tx [30]
1 view 1 [D8]
1 get 1 tx [30]
0 after 18 unview 1
0 get 1 tx [30]
0 unview 1
1 after 21 get 1 state [10]
";

const READ_SAYS: &str = "1 0 want opened
2 0 peer added
3 0 base good / good / good
4 0 view notretained
5 0 node good
6 0 node good
7 0 check complete
8 0 view ok
9 0 view inuse
10 0 view notretained
11 0 get value 02
12 0 get none
13 0 get value 0102
14 0 get none
15 0 get none
16 1 get noview
17 1 view ok
18 1 get value 02
19 0 unview ok
20 0 get noview
21 0 unview noview
22 1 get value 0102
end complete 1 closed 0 listed 1 floor 0 last 10 epoch 0
";

/// The map that has 0201 under [10] has the same root as the one that is stored: a read answers what is stored, and the path that it
/// used shows the other leaf's hash at its end.
const COLLIDING: &str = "0 want [DD] 10
0 peer 5 [DD]
0 base 5 [DD] @ #
0 node 5 [DD] state [10]01 0102[10]01
0 node 5 [DD] state [10]01 0201[10]01
0 check [DD]
0 view 65535 [DD]
0 get 65535 state [10]
";

const COLLIDING_SAYS: &str = "1 0 want opened
2 0 peer added
3 0 base good / good
4 0 node good
5 0 node clash [FA] 4D4C4E000102[10] 4D4C4E000201[10]
6 0 check complete
7 0 view ok
8 0 get value 0102
end complete 1 closed 0 listed 1 floor 0 last 10 epoch 0
";

const LEAVES_CLASH: &str = "0 want [DD] 10
0 peer 5 [DD]
0 check [DD]
0 base 5 [DD] @ #
0 check [DD]
0 node 5 [DD] state [10]01 0102[10]01
0 node 5 [DD] state [10]01 0201[10]01
0 check [DD]
";

const LEAVES_CLASH_SAYS: &str = "1 0 want opened
2 0 peer added
3 0 check need 5 header
4 0 base good / good
5 0 check need 5 state:[10]01
6 0 node good
7 0 node clash [FA] 4D4C4E000102[10] 4D4C4E000201[10]
8 0 check complete
end complete 1 closed 0 listed 1 floor 0 last 10 epoch 0
";

const HEADERS_CLASH: &str = "0 want [DD] 0
0 peer 5 [DD]
0 base 5 [DD] @
0 base 5 [DD] 000A00000000000000000000__[DE]00000000000000000000
";

const HEADERS_CLASH_SAYS: &str = "1 0 want opened
2 0 peer added
3 0 base good
4 0 base clash [DD] 4C575200@ 4C575200000A00000000000000000000__[DE]00000000000000000000
end complete 0 closed 0 listed 0 floor 0 last - epoch 0
";

const HEADERS: &str = "0 want [DD] 9
0 peer 5 [DD]
0 base 5 [DD] 0000000A #
0 base 5 [DD] 0000000B0000000000000000__[DE]00000000000000000000
0 base 6 [DD] @
0 base 5 [9C] @
0 base 5 [DD] @
0 base 5 [DD] @
0 check [DD]
0 base 5 [DD] @
0 want [F6] 1
0 peer 5 [F6]
0 base 5 [F6] 000000010000000000000000___00000000000000000000 #
0 check [F6]
0 check [F6]
";

const HEADERS_SAYS: &str = "1 0 want opened
2 0 peer added
3 0 base bad length 4 / nobase
4 0 base bad hash [DE]
5 0 base unasked
6 0 base notopen
7 0 base good
8 0 base duplicate
9 0 check seqdiffers 9 10
10 0 base notopen
11 0 want opened
12 0 peer added
13 0 base good / emptybranch _00
14 0 check zerostate
15 0 check notopen
end complete 0 closed 0 listed 0 floor 0 last - epoch 0
";

/// Nodes that aren't stored, each for another reason. The fourth that is bad drops its peer, who isn't added again.
const REFUSED: &str = "0 want [DD] 10
0 peer 5 [DD]
0 node 5 [DD] state [10]01 0102[10]01
0 base 5 [DD] @ #
0 node 6 [DD] state [10]01 0102[10]01
0 node 5 [9C] state [10]01 0102[10]01
0 node 5 [DD] state [10]02 0102[10]01
0 node 5 [DD] state [20]01 0102[10]01
0 node 5 [DD] state [10]01 0103[10]01
0 node 5 [DD] state [10]01 -
0 node 5 [DD] state [10]01 0005
0 node 5 [DD] state [10]01 0002
0 node 5 [DD] state [10]01 0102[10]01
0 peer 5 [DD]
0 check [DD]
0 peer 7 [DD]
0 peer 8 [DD]
0 node 7 [DD] state [10]01 [FA]010003
0 node 7 [DD] state [10]01 [FA]1003
0 node 7 [DD] state [10]01 [FA]01[FA]0103
0 node 7 [DD] state [10]01 _0003
0 check [DD]
0 node 8 [DD] state [10]01 ________________02
0 node 8 [DD] state [10]01 0001
0 node 8 [DD] state [10]01 _01
0 node 8 [DD] state [10]01 0102[10]01
0 node 8 [DD] state [10]02 0102[10]01
";

const REFUSED_SAYS: &str = "1 0 want opened
2 0 peer added
3 0 node nobase
4 0 base good / good
5 0 node unasked
6 0 node notopen
7 0 node noparent [10]01
8 0 node emptybranch [20]01
9 0 node bad hash [FB]
10 0 node bad wire 1
11 0 node bad wire 2
12 0 node bad wire 3
13 0 node unasked
14 0 peer known
15 0 check nopeer
16 0 peer added
17 0 peer added
18 0 node bad wire 4
19 0 node bad wire 5
20 0 node bad wire 6
21 0 node bad wire 7
22 0 check need 8 state:[10]01
23 0 node bad wire 8
24 0 node bad wire 9
25 0 node bad wire 10
26 0 node good
27 0 node underleaf [10]01
end complete 0 closed 0 listed 0 floor 0 last - epoch 0
";

/// Two leaves below one inner node.
const TWO_LEAVES: &str = "0 want [9C] 11
0 peer 5 [9C]
0 peer 6 [9C]
0 base 5 [9C] 0000000B0000000000000000[DD]_[BF]00000000000000000000 _[DB]______________02
0 node 5 [9C] state [10]02 0102[10]01
0 check [9C]
0 node 5 [9C] state [10]01 [FD]01[FA]0003
0 check [9C]
0 check [9C]
0 node 6 [9C] state [10]02 0102[10]01
0 node 6 [9C] state [11]02 05[11]01
0 check [9C]
";

const TWO_LEAVES_SAYS: &str = "1 0 want opened
2 0 peer added
3 0 peer added
4 0 base good / good
5 0 node noparent [10]01
6 0 check need 5 state:[10]01
7 0 node good
8 0 check need 6 state:[10]02 state:[11]02
9 0 check waiting 2
10 0 node good
11 0 node good
12 0 check complete
end complete 1 closed 0 listed 1 floor 0 last 11 epoch 0
";

/// A leaf on another branch, one alone below an inner node, one at the root, and a node that is no header.
const BROKEN: &str = "0 want [DD] 10
0 peer 5 [DD]
0 base 5 [DD] @ [FA]0203
0 node 5 [DD] state [20]01 0102[10]01
0 check [DD]
0 check [DD]
0 want [C3] 0
0 peer 5 [C3]
0 base 5 [C3] 0000000A0000000000000000__[C4]00000000000000000000 _[E0]______________02
0 node 5 [C3] state [10]01 [FC]_______________02
0 node 5 [C3] state [10]02 05[10]01
0 check [C3]
0 want [FE] 0
0 peer 5 [FE]
0 base 5 [FE] 0000000A0000000000000000__[FF]00000000000000000000 08[10]01
0 check [FE]
0 want [FA] 0
0 check [FA]
";

const BROKEN_SAYS: &str = "1 0 want opened
2 0 peer added
3 0 base good / good
4 0 node malformed 2
5 0 check malformed state:[20]01 2
6 0 check notopen
7 0 want opened
8 0 peer added
9 0 base good / good
10 0 node good
11 0 node malformed 3
12 0 check malformed state:[10]02 3
13 0 want opened
14 0 peer added
15 0 base good / malformed 5
16 0 check malformed state:_00 5
17 0 want opened
18 0 check malformed header 6
end complete 0 closed 0 listed 0 floor 0 last - epoch 0
";

/// Trees that no map has: a single leaf below an inner node, and a leaf of a transaction among accounts.
const LYING: &str = "0 want [C1] 10
0 peer 5 [C1]
0 base 5 [C1] 0000000A0000000000000000__[C2]00000000000000000000 [DE]0103
0 node 5 [C1] state [10]01 [FA]0003
0 node 5 [C1] state [10]02 0102[10]01
0 check [C1]
0 check [C1]
0 want [DB] 10
0 peer 5 [DB]
0 base 5 [DB] 0000000A0000000000000000__[DC]00000000000000000000 [F8]0103
0 node 5 [DB] state [10]01 0102[10]04
0 check [DB]
";

const LYING_SAYS: &str = "1 0 want opened
2 0 peer added
3 0 base good / good
4 0 node good
5 0 node malformed 3
6 0 check malformed state:[10]02 3
7 0 check notopen
8 0 want opened
9 0 peer added
10 0 base good / good
11 0 node malformed 1
12 0 check malformed state:[10]01 1
end complete 0 closed 0 listed 0 floor 0 last - epoch 0
";

/// A leaf as the root of a map.
const LEAF_AS_ROOT: &str = "0 want [F9] 10
0 peer 5 [F9]
0 base 5 [F9] 0000000A0000000000000000__[FA]00000000000000000000 0102[10]01
0 check [F9]
";

const LEAF_AS_ROOT_SAYS: &str = "1 0 want opened
2 0 peer added
3 0 base good / malformed 5
4 0 check malformed state:_00 5
end complete 0 closed 0 listed 0 floor 0 last - epoch 0
";

/// A header as the root of a map, and a node as a ledger: a header of the same hash clashes with it.
const STORED_LIES: &str = "store [DD] 4C575200@
store [FA] 4D4C4E000102[10]
0 want [D3] 1
0 peer 5 [D3]
0 base 5 [D3] 000000010000000000000000__[DD]00000000000000000000
0 check [D3]
0 want [FA] 0
0 peer 5 [FA]
0 base 5 [FA] 000000050000000000000000___00000000000000000000
0 check [FA]
0 check [FA]
";

const STORED_LIES_SAYS: &str = "3 0 want opened
4 0 peer added
5 0 base good
6 0 check malformed state:_00 6
7 0 want opened
8 0 peer added
9 0 base clash [FA] 4D4C4E000102[10] 4C575200000000050000000000000000___00000000000000000000
10 0 check malformed header 6
11 0 check notopen
end complete 0 closed 0 listed 0 floor 0 last - epoch 0
";

/// Leaves of other kinds with the wanted hash: a transaction with metadata, and one without.
const KINDS: &str = "0 want [DD] 10
0 peer 5 [DD]
0 base 5 [DD] @ #
0 node 5 [DD] state [10]01 0302[10]04
0 check [DD]
0 want [E1] 13
0 peer 5 [E1]
0 base 5 [E1] 0000000D0000000000000000__[DF]00000000000000000000 [FB]0103
0 node 5 [E1] state [10]01 0100
0 check [E1]
";

const KINDS_SAYS: &str = "1 0 want opened
2 0 peer added
3 0 base good / good
4 0 node malformed 1
5 0 check malformed state:[10]01 1
6 0 want opened
7 0 peer added
8 0 base good / good
9 0 node malformed 1
10 0 check malformed state:[10]01 1
end complete 0 closed 0 listed 0 floor 0 last - epoch 0
";

/// What was asked is forgotten at a tick, and the seventh gives the acquisition up.
const TICKS: &str = "0 tick [DD]
0 want [DD] 10
0 check [DD]
0 peer 5 [DD]
0 peer 6 [DD]
0 check [DD]
0 check [DD]
0 tick [DD]
0 check [DD]
0 tick [DD]
0 tick [DD]
0 tick [DD]
0 tick [DD]
0 tick [DD]
0 tick [DD]
0 tick [DD]
0 want [DD] 10
";

const TICKS_SAYS: &str = "1 0 tick notopen
2 0 want opened
3 0 check nopeer
4 0 peer added
5 0 peer added
6 0 check need 5 header
7 0 check waiting 1
8 0 tick timeout 1
9 0 check need 6 header
10 0 tick timeout 2
11 0 tick timeout 3
12 0 tick timeout 4
13 0 tick timeout 5
14 0 tick timeout 6
15 0 tick gaveup 7
16 0 tick notopen
17 0 want opened
end complete 0 closed 0 listed 0 floor 0 last - epoch 0
";

/// Three actors, each line waiting for what it needs, so that the journal has one order.
const WAITING: &str = "0 want [DD] 10
0 peer 5 [DD]
1 after 2 base 5 [DD] @ [FA]0103
1 node 5 [DD] state [10]01 0102[10]01
0 after 4 check [DD]
2 after 5 view 1 [DD]
2 get 1 state [10]
2 after 5 want [DD] 10
";

const WAITING_SAYS: &str = "1 0 want opened
2 0 peer added
3 1 base good / good
4 1 node good
5 0 check complete
6 2 view ok
7 2 get value 0102
8 2 want listed
end complete 1 closed 0 listed 1 floor 0 last 10 epoch 0
";

/// Ledgers made of that one: an item is set beside its own, which is then removed, so that the leaf moves up below the root; the last has
/// no account left. The same ledger once more is listed already, and each session is its actor's own.
const EDITED: &str = "0 want [DD] 10
0 peer 5 [DD]
0 check [DD]
0 base 5 [DD] @ #
0 check [DD]
0 node 5 [DD] state [10]01 0102[10]01
0 node 5 [DD] state [10]01 0102[10]01
0 check [DD]
0 edit 1 [DD]
0 put 1 [11] 05
0 close 1 0 0 0 0
0 edit 2 [9C]
0 del 2 [10]
0 close 2 0 0 0 0
0 edit 3 [7E]
0 del 3 [11]
0 del 3 [11]
0 close 3 0 0 0 0
0 abandon 3
0 edit 4 [DD]
0 edit 4 [9C]
0 put 4 [11] 05
0 close 4 0 0 0 0
0 abandon 4
0 abandon 4
1 after 25 put 4 [11] 05
1 tx 4 [11] 05
1 close 4 0 0 0 0
1 edit 1 [DE]
1 edit 1 [DD]
1 put 1 [12] 00
1 tx 1 [30] 02
1 close 1 0 0 0 0
1 view 1 [93]
1 get 1 state [12]
1 get 1 tx [30]
1 get 1 state [11]
";

const EDITED_SAYS: &str = "1 0 want opened
2 0 peer added
3 0 check need 5 header
4 0 base good / good
5 0 check need 5 state:[10]01
6 0 node good
7 0 node duplicate
8 0 check complete
9 0 edit ok
10 0 put ok
11 0 close closed [9C]
12 0 edit ok
13 0 del ok
14 0 close closed [7E]
15 0 edit ok
16 0 del ok
17 0 del absent
18 0 close zerostate
19 0 abandon ok
20 0 edit ok
21 0 edit inuse
22 0 put ok
23 0 close listed
24 0 abandon ok
25 0 abandon nosession
26 1 put nosession
27 1 tx nosession
28 1 close nosession
29 1 edit notretained
30 1 edit ok
31 1 put ok
32 1 tx ok
33 1 close closed [93]
34 1 view ok
35 1 get value 00
36 1 get value 02
37 1 get none
end complete 1 closed 3 listed 4 floor 0 last 10 epoch 0
";

/// Three ledgers more, of which the last is far enough for a rotation: what lies below the floor is listed no more, nor wanted, and a view
/// reads while the rotation is under way and behind it.
const TURNED: &str = "0 want [DD] 10
0 peer 5 [DD]
0 check [DD]
0 base 5 [DD] @ #
0 check [DD]
0 node 5 [DD] state [10]01 0102[10]01
0 node 5 [DD] state [10]01 0102[10]01
0 check [DD]
0 edit 1 [DD]
0 put 1 [11] 05
0 close 1 0 0 0 0
0 edit 2 [9C]
0 del 2 [10]
0 close 2 0 0 0 0
0 edit 3 [7E]
0 put 3 [20] 07
0 close 3 0 0 0 0
0 begin
0 edit 4 [6F]
0 put 4 [20] 08
0 close 4 0 0 0 0
0 begin
0 begin
0 view 1 [DD]
0 want [DD] 10
0 view 1 [9C]
0 swap
0 get 1 state [10]
0 swap
";

const TURNED_SAYS: &str = "1 0 want opened
2 0 peer added
3 0 check need 5 header
4 0 base good / good
5 0 check need 5 state:[10]01
6 0 node good
7 0 node duplicate
8 0 check complete
9 0 edit ok
10 0 put ok
11 0 close closed [9C]
12 0 edit ok
13 0 del ok
14 0 close closed [7E]
15 0 edit ok
16 0 put ok
17 0 close closed [6F]
18 0 begin notdue
19 0 edit ok
20 0 put ok
21 0 close closed [62]
22 0 begin begun 14 11
23 0 begin busy
24 0 view notretained
25 0 want below floor 11
26 0 view ok
27 0 swap swapped 1
28 0 get value 0102
29 0 swap idle
end complete 1 closed 4 listed 4 floor 11 last 14 epoch 1
";

/// A view holds a ledger below the floor. Behind the second rotation nothing is left but the last ledger. A second swap stands behind each:
/// where the first fails, it ends the rotation.
pub(crate) const TURNED_TWICE: &str = "0 want [DD] 10
0 peer 5 [DD]
0 check [DD]
0 base 5 [DD] @ #
0 check [DD]
0 node 5 [DD] state [10]01 0102[10]01
0 node 5 [DD] state [10]01 0102[10]01
0 check [DD]
0 edit 1 [DD]
0 put 1 [11] 05
0 close 1 0 0 0 0
0 view 9 [DD]
0 begin
0 swap
0 swap
0 get 9 state [10]
0 unview 9
0 edit 2 [9C]
0 del 2 [10]
0 close 2 0 0 0 0
0 begin
0 swap
0 swap
";

pub(crate) const TURNED_TWICE_SAYS: &str = "1 0 want opened
2 0 peer added
3 0 check need 5 header
4 0 base good / good
5 0 check need 5 state:[10]01
6 0 node good
7 0 node duplicate
8 0 check complete
9 0 edit ok
10 0 put ok
11 0 close closed [9C]
12 0 view ok
13 0 begin begun 11 11
14 0 swap swapped 1
15 0 swap idle
16 0 get value 0102
17 0 unview ok
18 0 edit ok
19 0 del ok
20 0 close closed [7E]
21 0 begin begun 12 12
22 0 swap swapped 2
23 0 swap idle
end complete 1 closed 2 listed 1 floor 12 last 12 epoch 2
store [7E] 4C5752000000000C0000000000000000[9C]_[E1]00000000000000000000
store [E1] 4D494E00_[FD]______________
store [FD] 4D4C4E0005[11]
";

/// An item whose leaf has the zero hash.
const ZERO_CLOSED: &str = "0 want [DD] 10
0 peer 5 [DD]
0 check [DD]
0 base 5 [DD] @ #
0 check [DD]
0 node 5 [DD] state [10]01 0102[10]01
0 node 5 [DD] state [10]01 0102[10]01
0 check [DD]
0 edit 1 [DD]
0 put 1 [10] 09
0 close 1 0 0 0 0
0 abandon 1
";

const ZERO_CLOSED_SAYS: &str = "1 0 want opened
2 0 peer added
3 0 check need 5 header
4 0 base good / good
5 0 check need 5 state:[10]01
6 0 node good
7 0 node duplicate
8 0 check complete
9 0 edit ok
10 0 put ok
11 0 close zerohash 4D4C4E0009[10]
12 0 abandon ok
end complete 1 closed 0 listed 1 floor 0 last 10 epoch 0
";

/// An item whose leaf has the hash of the stored one.
const CLOSE_CLASH: &str = "0 want [DD] 10
0 peer 5 [DD]
0 check [DD]
0 base 5 [DD] @ #
0 check [DD]
0 node 5 [DD] state [10]01 0102[10]01
0 node 5 [DD] state [10]01 0102[10]01
0 check [DD]
0 edit 1 [DD]
0 put 1 [11] 02
0 close 1 0 0 0 0
0 abandon 1
";

const CLOSE_CLASH_SAYS: &str = "1 0 want opened
2 0 peer added
3 0 check need 5 header
4 0 base good / good
5 0 check need 5 state:[10]01
6 0 node good
7 0 node duplicate
8 0 check complete
9 0 edit ok
10 0 put ok
11 0 close clash [FA] 4D4C4E000102[10] 4D4C4E0002[11]
12 0 abandon ok
end complete 1 closed 0 listed 1 floor 0 last 10 epoch 0
";

/// The last ledger that a header can number has no next one.
const LAST_SEQ: &str = "0 want [CF] 4294967295
0 peer 5 [CF]
0 base 5 [CF] FFFFFFFF0000000000000000__[DE]00000000000000000000 [FA]0103
0 node 5 [CF] state [10]01 0102[10]01
0 check [CF]
0 edit 1 [CF]
0 abandon 1
";

const LAST_SEQ_SAYS: &str = "1 0 want opened
2 0 peer added
3 0 base good / good
4 0 node good
5 0 check complete
6 0 edit lastseq
7 0 abandon nosession
end complete 1 closed 0 listed 1 floor 0 last 4294967295 epoch 0
";
