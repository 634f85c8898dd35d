//! Laws of the definitions: what they name is there, it is one, and it stays when the nodes are renamed.

ghost use Rattle.std.specs.Prelude.{◌≢◌, ◌↔◌, List, Contains, AllPairs};
ghost use Rattle.ring.specs.Existence.{EachGraphAnswers, EachIsGrounded, GroundedHaveValues};
ghost use Rattle.ring.specs.Laws.{OneRing, OneValue, OneTotal, ReachedAreRows};
ghost use Rattle.ring.specs.Lists.{In, AreApart};
ghost use Rattle.ring.specs.Renaming.{RingsAreRenamed, NoRingIsRenamed, OrdersAreRenamed};
ghost use Rattle.ring.specs.Renaming.{ValuesAreRenamed};

/// The words on elements of lists are those of the standard library.
pub fn list_words<N>()
    ensures contains { (x : N) (xs : List N) → In x xs ↔ Contains xs x }
    ensures apart { (xs : List N) → AreApart xs ↔ AllPairs (λ x y. x ≢ y) xs }
{}

/// Where routes from a root stay among finitely many nodes, some route closes first, or none does, and then no chain of
/// needs from the root goes on for ever.
pub fn each_graph_answers<N>()
    ensures answers { EachGraphAnswers N }
    ensures grounded { EachIsGrounded N }
{}

/// A node from which no chain of needs goes on for ever has a value.
pub fn grounded_values<N, V>()
    ensures { GroundedHaveValues N V }
{}

/// A graph has one first ring from a root.
pub fn one_ring<N>()
    ensures { OneRing N }
{}

/// A node has one value.
pub fn one_value<N, V>()
    ensures { OneValue N V }
{}

/// A node has one total.
pub fn one_total()
    ensures { OneTotal }
{}

/// What is reached from a row of a table is the number of a row.
pub fn reached_within()
    ensures { ReachedAreRows }
{}

/// A graph whose nodes have names of their own, and the graph of these names: the ring of the one is that of the other,
/// the one has no ring where the other has none, and an order of the one is an order of the other.
pub fn renamed_graph<N, M>()
    ensures ring { RingsAreRenamed N M }
    ensures no_ring { NoRingIsRenamed N M }
    ensures order { OrdersAreRenamed N M }
{}

/// The value of a node is that of its name, where the steps to the values are the same.
pub fn renamed_values<N, M, V>()
    ensures { ValuesAreRenamed N M V }
{}
