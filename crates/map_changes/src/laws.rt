//! Laws of the definitions, each the contract of an empty function.
ghost use Rattle.std.specs.Prelude.{◌≡◌, ℕ, List, [], map, length, Option};
ghost use Rattle.ledger_spec.specs.declared.Kind.{Kind};
ghost use Rattle.ledger_spec.specs.Bytes.{Items};
ghost use Rattle.ledger_spec.specs.Forms.{Held, form_of};
ghost use Rattle.ledger_spec.specs.Tree.{part, forms_of};
ghost use Rattle.map_changes.specs.Placed.{nodes_of};
ghost use Rattle.map_changes.specs.Listed.{HaveSameForms};
ghost use Rattle.map_changes.specs.Trees.{StandsFor};
ghost use Rattle.map_changes.specs.Walks.{shared_nodes};
ghost use Rattle.map_changes.specs.Tracking.{place_of, node_at, kid_at, items_at};
ghost use Rattle.cow_map.specs.Bodies.{CowTree, IsBelow, AreBodies};
ghost use Rattle.cow_map.specs.Gathered.{nothing_held};
ghost use Rattle.cow_map.specs.Trees as links;

/// The nodes of a map in pre-order have the forms of the map's tree, each as often
/// as it stands there.
pub fn a_maps_nodes_have_its_forms()
    ensures { (half : List ℕ → List ℕ) (kind : Kind) (items : Items)
        → HaveSameForms (map (λ p. form_of p.node) (nodes_of half kind items)) (forms_of half kind items) }
{}

/// Where shared nodes stand for a map of items, those that a walk goes through are the map's nodes.
pub fn shared_nodes_are_the_maps()
    ensures { (half : List ℕ → List ℕ) (kind : Kind) (items : Items)
        (held : ℕ → Held) (kid : ℕ → ℕ → Option ℕ) (link : Option ℕ)
        → StandsFor half kind items held kid 64 [] link (part items [])
        → shared_nodes held kid link [] ≡ nodes_of half kind items }
{}

/// Where a map of links stands for a map of items and leaves nothing to a source, its nodes with all their
/// hashes stand for it, and the items are those that its links reach.
pub fn the_nodes_of_links_stand_for_their_map()
    ensures nodes { (half : List ℕ → List ℕ) (m : CowTree) (items : Items)
        → AreBodies m.nodes → IsBelow (length m.nodes) m.top → links.StandsFor half nothing_held m items
        → StandsFor half m.kind items (node_at half m.kind m.nodes) (kid_at m.nodes) 64 [] (place_of m.top) (part items []) }
    ensures items { (half : List ℕ → List ℕ) (m : CowTree) (items : Items)
        → links.StandsFor half nothing_held m items → items ≡ items_at m.nodes m.top }
{}
