// The frontier: the nodes that have a label and are not settled, as a table of `size` keys in any order, and
// the place of each node's key; specs/Frontier.antt has how they go with the labels. A key is a node's label
// and the node in one number, so the least key has the nearest node; it is looked for by a scan, and no other
// nodes are looked at.
ghost use Rattle.std.specs.Prelude.{◌≡◌, ◌+◌, ◌-◌, ◌≤◌, ◌<◌, get_or, set};
ghost use Rattle.network.specs.Limits.{most_nodes};
ghost use Rattle.search_frontier.specs.Frontier.{key_of, node_of, last_end};
ghost use Rattle.search_frontier.specs.Take.{Taken};
ghost use Rattle.search_frontier.specs.Nearest.{Small, Least};

use network::limits::MOST_NODES;
use search_arcs::is_before;

const NODES: u32 = MOST_NODES as u32;

// The node of a key.
pub fn node(key: u32) -> usize
    ensures { (result ≡ node_of key) × (result < most_nodes) }
{
    (key % NODES) as usize
}

#[derive(Drop)]
pub struct Frontier {
    pub keys: [u32; MOST_NODES],
    pub places: [u16; MOST_NODES],
    pub size: usize,
}

impl Frontier {
    // The least key.
    pub fn nearest(&self) -> u32
        requires { (0 < self.now.size) × (self.now.size ≤ most_nodes) × Small self.now.keys self.now.size }
        ensures { Least self.now.keys self.now.size result }
    {
        let mut least = self.keys[0];
        for i in 1..self.size {
            let key = self.keys[i];
            if is_before(key, least) {
                least = key;
            }
        }
        least
    }

    // Puts a node with its label at a place.
    pub fn put(&mut self, at: usize, v: usize, label: u32)
        requires { (at < most_nodes) × (v < most_nodes) × (label ≤ last_end) }
        ensures { (self.new.keys ≡ set self.old.keys at (key_of label v))
            × (self.new.places ≡ set self.old.places v at)
            × (self.new.size ≡ self.old.size) }
    {
        self.keys[at] = label * NODES + v as u32;
        self.places[v] = at as u16;
    }

    // Gives a node of the frontier another label.
    pub fn lower(&mut self, v: usize, label: u32)
        requires { (get_or self.old.places v 0 < most_nodes) × (v < most_nodes) × (label ≤ last_end) }
        ensures { (self.new.keys ≡ set self.old.keys (get_or self.old.places v 0) (key_of label v))
            × (self.new.places ≡ set self.old.places v (get_or self.old.places v 0))
            × (self.new.size ≡ self.old.size) }
    {
        let at = usize::from(self.places[v]);
        self.put(at, v, label);
    }

    // Adds a node with its first label.
    pub fn add(&mut self, v: usize, label: u32)
        requires { (self.old.size < most_nodes) × (v < most_nodes) × (label ≤ last_end) }
        ensures { (self.new.keys ≡ set self.old.keys self.old.size (key_of label v))
            × (self.new.places ≡ set self.old.places v self.old.size)
            × (self.new.size ≡ self.old.size + 1) }
    {
        let at = self.size;
        self.put(at, v, label);
        self.size = at + 1;
    }

    // Takes a node out: the last entry comes in its place.
    pub fn take(&mut self, u: usize)
        requires { (u < most_nodes) × (0 < self.old.size) × (self.old.size ≤ most_nodes)
            × (get_or self.old.places u 0 < most_nodes) }
        ensures { Taken self.old.keys self.old.places self.old.size u self.new.keys self.new.places
            × (self.new.size ≡ self.old.size - 1) }
    {
        let at = self.places[u];
        let last = self.size - 1;
        let key = self.keys[last];
        self.keys[usize::from(at)] = key;
        self.places[node(key)] = at;
        self.size = last;
    }
}
